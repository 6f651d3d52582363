// Which columns `pivot` and `pivot_table` are told.
ghost use Rattle.std.specs.Prelude.{◌≡◌, ◌<◌, ◌∷◌, [], length, IfOk, Some};
ghost use Rattle.meaning_call.specs.declared.Accepted.TheVariants.{Scalar};
ghost use Rattle.frame_labels.specs.method.Reshape as meant;
ghost use Rattle.frame_parts.specs.Makes.{MakesBy};
ghost use Rattle.frame_store.specs.Arguments.{object_value, IsLiveObject};
ghost use Rattle.frame_store.specs.Objects.{tables, table_at};
ghost use Rattle.frame_store.specs.World.{world, IsSettledWorld};
ghost use Rattle.frame_labels.specs.Named.{stands_in, NamesColumnsAt};
ghost use Rattle.frame_select.specs.Selected.{as_it_is};
ghost use Rattle.frame_signatures.specs.Bound.{accepted_at};
ghost use Rattle.frame_reshape.specs.Pivots.{pivoted_value, pivoted_seen, IsPivoted, NamesPivot};

use cell_core::{Code, Label, NoMemory, Places, TextDict};
use frame_labels::told_places;
use frame_select::argument_column;
use frame_signatures::{Bound, arguments};
use frame_store::{ObjId, OpFault, Store};
use std::alloc::Global;

// The columns whose cells are the labels of rows, the one whose cells are the labels of columns, and the one whose cells
// are shown.
#[derive(Drop)]
pub(crate) struct Pivoted {
    pub(crate) index: Places,
    pub(crate) columns: usize,
    pub(crate) values: usize,
}

impl Pivoted {
    // The column whose cells are the labels of columns.
    pub(crate) fn labels(&self, alloc: Global) -> Result<Places, NoMemory>
        ensures { IfOk result (λ places. places ≡ self.now.columns ∷ []) }
    {
        let mut places = Places::new(alloc);
        places.push(self.columns)?;
        Ok(places)
    }

    // All columns whose cells are labels, that of the labels of columns last.
    #[tactic(auto, using(crate::proofs::ItemLaws::all_items))]
    pub(crate) fn all(&self, alloc: Global) -> Result<Places, NoMemory>
        ensures { IfOk result (λ places. places ≡ meant.label_places (pivoted_value self.now)) }
    {
        let mut places = Places::new(alloc);
        for k in 0..self.index.len() {
            places.push(*self.index.at(k))?;
        }
        places.push(self.columns)?;
        Ok(places)
    }
}

// The column of the label that stands at a place of the arguments.
fn told_place(
    alloc: Global,
    store: &Store,
    dict: &TextDict,
    bound: &Bound<'_>,
    place: usize,
    on: ObjId,
) -> Result<usize, OpFault>
    requires live { IsLiveObject (tables store.now) on }
    requires settled { IsSettledWorld (world store.now dict.now) }
    requires names { NamesColumnsAt (world store.now dict.now) bound.now place }
    requires one { accepted_at bound.now place ≡ Some Scalar }
    ensures answer { let t = object_value (tables store.now) dict.now on in
        MakesBy as_it_is dict.now result
        (meant.place_in t (stands_in (world store.now dict.now) bound.now place)) }
    ensures inside { IfOk result (λ at. at < length (table_at (tables store.now) on.0).columns) }
{
    let label = Label::from(bound.scalar(place));
    argument_column(alloc, dict, &store.read(on), label)
}

// The columns that the arguments name, the labels of rows first and one of them at least. They stand at the same place in
// both methods, and those of columns and cells at these.
pub(crate) fn pivoted_in(
    alloc: Global,
    store: &Store,
    dict: &TextDict,
    bound: &Bound<'_>,
    columns: usize,
    values: usize,
    on: ObjId,
) -> Result<Pivoted, OpFault>
    requires live { IsLiveObject (tables store.now) on }
    requires settled { IsSettledWorld (world store.now dict.now) }
    requires names { NamesPivot (world store.now dict.now) bound.now columns values }
    ensures answer { let w = world store.now dict.now in
        MakesBy pivoted_seen dict.now result (meant.pivoted_in (object_value w.tables dict.now on)
        (stands_in w bound.now 1) (stands_in w bound.now columns) (stands_in w bound.now values)) }
    ensures told { IfOk result (IsPivoted (table_at (tables store.now) on.0)) }
{
    let index = told_places(alloc, store, dict, bound, arguments::PIVOT_INDEX, on)?;
    if index.len() == 0 {
        return Err(OpFault::Refused(Code::WrongKind));
    }
    let columns = told_place(alloc, store, dict, bound, columns, on)?;
    let values = told_place(alloc, store, dict, bound, values, on)?;
    Ok(Pivoted {
        index,
        columns,
        values,
    })
}
