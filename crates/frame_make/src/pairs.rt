// The pairs of a dict, and the columns that their values are.
ghost use Rattle.std.specs.Prelude.{◌≡◌, List, All, length, IfOk};
ghost use Rattle.indexmap.specs.IndexMap.{keys, values};
ghost use Rattle.column_core.specs.cells.Text.{Text as OneText};
ghost use Rattle.frame_parts.specs.form.Finish.{try_all};
ghost use Rattle.frame_parts.specs.form.Make as make;
ghost use Rattle.frame_parts.specs.Makes.{column_seen, MakesBy, blocks_value};
ghost use Rattle.frame_store.specs.Objects.{Tables};
ghost use Rattle.frame_store.specs.Arguments.{entries_of};
ghost use Rattle.frame_store.specs.Parts.{AreBelow, IsSingle};
ghost use Rattle.frame_make.specs.Scalars.{scalars_given};
ghost use Rattle.frame_make.specs.Pairs.{entries_seen, list_seen, lists_seen, listed_column, AreSettledKeys, AreSettledLabels};

use crate::scalars::scalar_column;
use cell_core::{Code, Label, NoMemory, TextDict};
use column_core::Column;
use frame_signatures::are_scalars;
use frame_store::{Argument, Blocks, Item, OpFault};
use indexmap::IndexMap;
use std::alloc::Global;

// The keys, each with the place of its last value. Texts are told apart by their numbers.
pub(crate) fn last_places(
    alloc: Global,
    dict: &TextDict,
    pairs: &[(Label, Argument)],
) -> Result<IndexMap<Label, usize>, NoMemory>
    requires { AreSettledKeys dict.now pairs.now }
    ensures inside { IfOk result (λ places. AreBelow (length pairs.now) (values places)) }
    ensures settled { IfOk result (λ places. AreSettledLabels dict.now (keys places)) }
    ensures pairs { IfOk result (λ places. (live : Tables)
        → entries_seen live dict.now pairs.now places.entries
        ≡ make.pairs_in (entries_of live dict.now pairs.now)) }
{
    // Equal texts have equal numbers: `TextDict::len` says so.
    let _ = dict.len();
    let mut places = IndexMap::new(alloc);
    for place in 0..pairs.len() {
        places.insert(pairs[place].0, place)?;
    }
    Ok(places)
}

// The parts of a list that has scalars alone.
fn scalar_list(argument: &Argument) -> Option<&[Item]>
    ensures { (texts : List OneText) → scalars_given texts result ≡ list_seen texts argument.now }
{
    match argument.list() {
        Some(items) => {
            if are_scalars(items) {
                Some(items)
            } else {
                None
            }
        }
        None => None,
    }
}

// The column of a list of scalars.
fn listed_column(alloc: Global, argument: &Argument) -> Result<Column, OpFault>
    ensures { (texts : List OneText) → MakesBy column_seen texts result
        (listed_column (list_seen texts argument.now)) }
{
    match scalar_list(argument) {
        Some(items) => scalar_column(alloc, items),
        None => Err(OpFault::Refused(Code::WrongKind)),
    }
}

// The columns of the values at these places, in the order of the keys.
pub(crate) fn listed_columns(
    alloc: Global,
    pairs: &[(Label, Argument)],
    places: &IndexMap<Label, usize>,
) -> Result<Blocks, OpFault>
    requires { AreBelow (length pairs.now) (values places.now) }
    ensures single { IfOk result (All IsSingle) }
    ensures columns { (texts : List OneText) → MakesBy blocks_value texts result
        (try_all listed_column (lists_seen texts pairs.now (values places.now))) }
{
    let mut columns = Blocks::new(alloc);
    for place in places.values() {
        let column = listed_column(alloc, &pairs[*place].1)?;
        columns.push(column.into_block())?;
    }
    Ok(columns)
}
