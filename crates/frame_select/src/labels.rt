// Columns by their labels.
ghost use Rattle.std.specs.Prelude.{◌≡◌, ◌≢◌, ◌<◌, ◌∷◌, [], length, map, slice_index_or, All, Some, None, IfOk, IfErr, IfSome, IfNone};
ghost use Rattle.cell_core.specs.declared.code.Code.TheVariants.{NoKey};
ghost use Rattle.column_core.specs.cells.Cell.{label_datum};
ghost use Rattle.column_core.specs.cells.Operator.{cell_label};
ghost use Rattle.frame_store.specs.tables.Settled.{IsSettled};
ghost use Rattle.frame_store.specs.tables.Table.{table_value, heading_value};
ghost use Rattle.frame_store.specs.tables.Valid.{IsWhole};
ghost use Rattle.cell_core.specs.declared.grid.Shape.TheVariants.{Frame};
ghost use Rattle.frame_parts.specs.form.Select as meant;
ghost use Rattle.frame_parts.specs.form.Finish.{column_labels};
ghost use Rattle.meaning_charge.specs.select.Keys as keys;
ghost use Rattle.indexers.specs.pick.Keys.{one_key};
ghost use Rattle.frame_store.specs.declared.fault.OpFault.TheVariants.{Refused};
ghost use Rattle.frame_store.specs.Shown.{headings_value, cells_value};
ghost use Rattle.frame_parts.specs.Makes.{MakesBy};
ghost use Rattle.frame_select.specs.Headings.{NamesRepeated, first_several as meant_several};
ghost use Rattle.frame_select.specs.Reaches.{pick_value, PicksBelow};
ghost use Rattle.frame_select.specs.Selected.{as_it_is, places_named, headings_at as meant_headings};

use crate::headings::{heading_places, repeated_label};
use cell_core::{Cells, Code, Grid, Label, NoMemory, Places, TextDict, Tuple};
use frame_parts::same_heading;
use frame_store::{ObjRef, OpFault};
use indexers::Picked;
use std::alloc::Global;

// The fault of a label that no column has.
fn missing(alloc: Global, label: Label) -> OpFault
    ensures { result ≡ Refused (NoKey (label ∷ [])) }
{
    OpFault::Refused(Code::NoKey(Tuple::of(alloc, &[label])))
}

/// The place of the first column with the label. Takes no memory.
#[tactic(auto, using(crate::proofs::Hints::place_of_label))]
pub fn place_of_label(dict: &TextDict, on: &ObjRef<'_>, label: Label) -> Option<usize>
    requires whole { IsWhole on.now }
    requires settled { IsSettled headings_value dict.now on.now.headings }
    requires label { IsSettled label_datum dict.now label }
    ensures place { result ≡ meant.place_of_label (headings_value dict.now on.now.headings)
        (label_datum dict.now label) }
    ensures inside { IfSome result (λ place. place < length on.now.columns) }
    ensures met { IfSome result (λ place. slice_index_or on.now.headings place None ≡ Some label) }
    ensures absent { IfNone result (All (λ heading. heading ≢ Some label) on.now.headings) }
{
    // Equal texts have equal numbers: `TextDict::len` says so.
    let _ = dict.len();
    for place in 0..on.columns() {
        if same_heading(dict, Some(label), on.heading(place)) {
            return Some(place);
        }
    }
    None
}

/// The places of all columns with the label, in order. `NoMemory` is the only refusal.
#[tactic(auto, using(crate::proofs::Hints::places_of_label))]
pub fn places_of_label(
    alloc: Global,
    dict: &TextDict,
    on: &ObjRef<'_>,
    label: Label,
) -> Result<Places, NoMemory>
    requires whole { IsWhole on.now }
    requires settled { IsSettled headings_value dict.now on.now.headings }
    requires label { IsSettled label_datum dict.now label }
    ensures places { IfOk result (λ places. places ≡ meant.places_of_label
        (headings_value dict.now on.now.headings) (label_datum dict.now label)) }
    ensures inside { IfOk result (All (λ place. place < length on.now.columns)) }
{
    let mut places = Places::new(alloc);
    for place in 0..on.columns() {
        if !same_heading(dict, Some(label), on.heading(place)) {
            continue;
        }
        places.push(place)?;
    }
    Ok(places)
}

/// The columns that a label selects: all that have it, in order. One alone is single.
///
/// `NoKey` where no column has the label. `NoMemory` may come in place of any answer.
#[tactic(auto, using(crate::proofs::Hints::label_columns))]
pub fn label_columns(
    alloc: Global,
    dict: &TextDict,
    on: &ObjRef<'_>,
    label: Label,
) -> Result<Picked, OpFault>
    requires whole { IsWhole on.now }
    requires shape { on.now.shape ≡ Frame }
    requires settled { IsSettled headings_value dict.now on.now.headings }
    requires label { IsSettled label_datum dict.now label }
    ensures answer { MakesBy pick_value dict.now result (keys.found_labels 1
        (column_labels (table_value dict.now on.now)) (one_key (label_datum dict.now label ∷ []))) }
    ensures within { IfOk result (PicksBelow (length on.now.columns)) }
{
    let places = places_of_label(alloc, dict, on, label)?;
    if places.len() == 0 {
        return Err(missing(alloc, label));
    }
    let single = places.len() == 1;
    Ok(Picked {
        places,
        single,
        dropped: 0,
        span: None,
    })
}

/// Columns that labels name.
#[derive(Drop)]
pub struct Named {
    /// The first column of each label.
    pub places: Places,
    /// The first of the labels that several columns have.
    pub repeated: Option<Label>,
}

impl Named {
    /// The columns, each the one of its label.
    ///
    /// # Errors
    ///
    /// `BadValue(Repeated)` of the first label that several columns have.
    pub fn each_once(self, alloc: Global) -> Result<Places, OpFault>
        ensures ok { IfOk result (λ places.
            (places ≡ self.places) × (self.repeated ≡ None)) }
        ensures refused { IfErr result (λ fault. NamesRepeated fault self.repeated) }
    {
        match self.repeated {
            Some(label) => Err(repeated_label(alloc, label)),
            None => Ok(self.places),
        }
    }
}

// The first label that several columns have: one that was met before, or else this one where it is such a label.
fn first_several(so_far: Option<Label>, several: bool, label: Label) -> Option<Label>
    ensures { result ≡ meant_several so_far several label }
{
    match so_far {
        Some(first) => Some(first),
        None => { if several { Some(label) } else { None } }
    }
}

/// The first column of each of these labels, in their order, and the first of them that several columns have. `NoKey` of
/// the first one that no column has. `NoMemory` may come in place of any answer.
#[tactic(auto, using(crate::proofs::Hints::named_columns))]
pub fn named_columns(
    alloc: Global,
    dict: &TextDict,
    on: &ObjRef<'_>,
    cells: &Cells,
) -> Result<Named, OpFault>
    requires whole { IsWhole on.now }
    requires settled { IsSettled headings_value dict.now on.now.headings }
    requires cells { IsSettled cells_value dict.now cells.now }
    ensures answer { MakesBy places_named dict.now result (meant.first_columns
        (table_value dict.now on.now) (map cell_label (cells_value dict.now cells.now))) }
    ensures repeated { IfOk result (λ named. heading_value dict.now named.repeated
        ≡ meant.label_of_several (table_value dict.now on.now)
        (map cell_label (cells_value dict.now cells.now))) }
    ensures given { IfOk result (λ named. IsSettled heading_value dict.now named.repeated) }
    ensures inside { IfOk result (λ named. All (λ place. place < length on.now.columns)
        named.places) }
{
    // Equal texts have equal numbers: `TextDict::len` says so.
    let _ = dict.len();
    let headings = heading_places(alloc, on)?;
    let mut places = Places::new(alloc);
    let mut repeated = None;
    for k in 0..cells.len() {
        let label = Label::from(*cells.at(k));
        let Some(place) = headings.first.get(&Some(label)) else {
            return Err(missing(alloc, label));
        };
        repeated = first_several(repeated, headings.repeated.contains(&Some(label)), label);
        places.push(*place)?;
    }
    Ok(Named { places, repeated })
}

/// The places of the columns that these labels name as an argument of a call, in their order.
///
/// # Errors
///
/// `NoKey` of the first label that no column has, then `BadValue(Repeated)` of the first one that several columns have.
/// `NoMemory` may come in place of any answer.
pub fn argument_columns(
    alloc: Global,
    dict: &TextDict,
    on: &ObjRef<'_>,
    cells: &Cells,
) -> Result<Places, OpFault>
    requires whole { IsWhole on.now }
    requires settled { IsSettled headings_value dict.now on.now.headings }
    requires cells { IsSettled cells_value dict.now cells.now }
    ensures answer { MakesBy as_it_is dict.now result (meant.argument_columns
        (table_value dict.now on.now) (map cell_label (cells_value dict.now cells.now))) }
    ensures inside { IfOk result (All (λ place. place < length on.now.columns)) }
{
    named_columns(alloc, dict, on, cells)?.each_once(alloc)
}

/// The place of the column that a label names as the argument of a call.
///
/// # Errors
///
/// `NoKey` where no column has the label, `BadValue(Repeated)` where several have it.
#[tactic(auto, using(crate::proofs::Hints::argument_column))]
pub fn argument_column(
    alloc: Global,
    dict: &TextDict,
    on: &ObjRef<'_>,
    label: Label,
) -> Result<usize, OpFault>
    requires whole { IsWhole on.now }
    requires settled { IsSettled headings_value dict.now on.now.headings }
    requires label { IsSettled label_datum dict.now label }
    ensures answer { MakesBy as_it_is dict.now result
        (meant.argument_column (table_value dict.now on.now) (label_datum dict.now label)) }
    ensures inside { IfOk result (λ place. place < length on.now.columns) }
{
    let places = places_of_label(alloc, dict, on, label)?;
    match places.len() {
        0 => Err(missing(alloc, label)),
        1 => Ok(*places.at(0)),
        _ => Err(repeated_label(alloc, label)),
    }
}

/// The headings of the columns at these places. `NoMemory` is the only refusal.
pub fn headings_at(
    alloc: Global,
    on: &ObjRef<'_>,
    places: &Places,
) -> Result<Vec<Option<Label>>, NoMemory>
    requires { All (λ place. place < length on.now.columns) places.now }
    ensures { IfOk result (λ made. made.items ≡ meant_headings on.now places.now) }
{
    let mut headings = Vec::new(alloc);
    for place in places.as_slice() {
        headings.push(on.heading(*place))?;
    }
    Ok(headings)
}
