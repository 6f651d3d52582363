// The values of a column of a kind.
ghost use Rattle.std.specs.Prelude.{◌≡◌};
ghost use Rattle.cell_core.specs.declared.cell.Kind.TheVariants.{Int64, Boolean, Text as string};
ghost use Rattle.column_core.specs.Columns.{number_cell, truth_cell, text_cell};
ghost use Rattle.merge_concat.specs.Growing.{cells_of_lane};

use cell_core::TextId;
use column_core::{Borrowed, ColRef, Element, Lane};

/// A value of a kind, of which the columns of that kind have lanes.
pub trait Laid: Element {
    /// The values of a column of the kind.
    fn lane<'a>(column: &'a ColRef<'_>) -> Lane<'a, Self>
        requires { column.now.kind ≡ Self.kind }
        ensures { cells_of_lane Self.cell result ≡ column.now.cells };
}

impl Laid for i64 {
    fn lane<'a>(column: &'a ColRef<'_>) -> Lane<'a, i64>
        requires { column.now.kind ≡ Int64 }
        ensures { cells_of_lane number_cell result ≡ column.now.cells }
    {
        match &column.lanes {
            Borrowed::Ints(lane) => *lane,
            _ => unreachable!(),
        }
    }
}

impl Laid for bool {
    fn lane<'a>(column: &'a ColRef<'_>) -> Lane<'a, bool>
        requires { column.now.kind ≡ Boolean }
        ensures { cells_of_lane truth_cell result ≡ column.now.cells }
    {
        match &column.lanes {
            Borrowed::Truths(lane) => *lane,
            _ => unreachable!(),
        }
    }
}

impl Laid for TextId {
    fn lane<'a>(column: &'a ColRef<'_>) -> Lane<'a, TextId>
        requires { column.now.kind ≡ string }
        ensures { cells_of_lane text_cell result ≡ column.now.cells }
    {
        match &column.lanes {
            Borrowed::Texts(lane) => *lane,
            _ => unreachable!(),
        }
    }
}
