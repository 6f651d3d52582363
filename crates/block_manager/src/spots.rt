// Where columns stand on views, and of which columns new views are made.
use block_pool::ViewId;

/// A view by its place in a list, and a column of it.
#[derive(Clone, Copy)]
pub struct Spot {
    pub(crate) view: usize,
    pub(crate) column: usize,
}

/// Columns side by side of a view, which is named by its place in a list: so many from one on. Where it is alone it
/// has one column, and none may be added.
#[derive(Clone, Copy)]
pub struct Run {
    pub(crate) view: usize,
    pub(crate) from: usize,
    pub(crate) count: usize,
    pub(crate) alone: bool,
}

/// Views, and the spots of columns on them.
#[derive(Drop)]
pub(crate) struct Layout {
    pub(crate) views: Vec<ViewId>,
    pub(crate) spots: Vec<Spot>,
}
