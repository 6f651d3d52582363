// The labels of columns as labels of rows.
ghost use Rattle.std.specs.Prelude.{◌≡◌, ◌∷◌, [], map, length, None, IfOk};
ghost use Rattle.frame_store.specs.Parts.{labelled};
ghost use Rattle.frame_labels.specs.Labels.{column_tuple};

use cell_core::{Grid, Label, NoMemory, TextDict, Tuple, Tuples};
use frame_store::ObjRef;
use multi_index::Axis;
use std::alloc::Global;

/// The label of a column: 0 where it has none, as only a Series can. Takes no memory.
pub fn column_label(heading: Option<Label>) -> Label
    ensures { column_tuple heading ≡ result ∷ [] }
{
    match heading {
        Some(label) => label,
        None => Label::Int(0),
    }
}

// The labels of the columns, each as a tuple of its own.
fn column_tuples(alloc: Global, on: &ObjRef<'_>) -> Result<Tuples, NoMemory>
    requires { length on.now.headings ≡ length on.now.columns }
    ensures { IfOk result (λ tuples. tuples ≡ map column_tuple on.now.headings) }
{
    let mut tuples = Tuples::new(alloc);
    for place in 0..on.columns() {
        tuples.push(Tuple::of(alloc, &[column_label(on.heading(place))]))?;
    }
    Ok(tuples)
}

/// The axis of the labels of the columns, whose level has the columns' name. `NoMemory` is the only
/// refusal.
#[tactic(auto, using(crate::proofs::ColumnLabelLaws::tuples_alike))]
pub fn columns_axis(alloc: Global, dict: &TextDict, on: &ObjRef<'_>) -> Result<Axis, NoMemory>
    requires { length on.now.headings ≡ length on.now.columns }
    ensures { IfOk result (λ axis. labelled axis ≡ record {
      tuples = map column_tuple on.now.headings;
      names = on.now.columns_name ∷ [];
    }) }
{
    let tuples = column_tuples(alloc, on)?;
    let mut axis = Axis::from_tuples(alloc, dict, &tuples, 1)?;
    axis.set_name(0, on.columns_name());
    Ok(axis)
}
