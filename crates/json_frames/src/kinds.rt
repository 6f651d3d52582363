// The keys of records, and the kinds of the cells under them.
ghost use Rattle.std.specs.Prelude.{◌≡◌, true, false, OnOk, IfOk, Some, None, MatchOption};
ghost use Rattle.serde_json.specs.Data.{object};
ghost use Rattle.serde_json.specs.View.{view, members_view};
ghost use Rattle.json_frames.specs.Views.{values_seen};
ghost use Rattle.json_frames.specs.Kinds.{clash, kind_under, WithRow, HasClash, IsNoted, OfRows, HasMixed};

use crate::values::kind_of;
use cell_core::{Kind, NoMemory};
use serde_json::{Map, Value};
use std::alloc::Global;
use std::collections::BTreeMap;

/// The kind of the cells under each key, as far as it is known.
pub(crate) type Kinds = BTreeMap<String, Option<Kind>>;

// Notes a cell's kind under a key, and says whether a cell of another kind stands there.
fn note(alloc: Global, kinds: &mut Kinds, key: &str, kind: Option<Kind>) -> Result<bool, NoMemory>
    ensures noted { OnOk result (IsNoted kinds.old key.now kind kinds.new) }
    ensures clash { IfOk result (λ other. other ≡ clash (kind_under kinds.old key.now) kind) }
{
    match known(kinds, key) {
        Some(known) => Ok(differs(known, kind)),
        None => {
            kinds.insert(String::from_str(alloc, key)?, kind)?;
            Ok(false)
        }
    }
}

// The kind that is known under a key.
pub(crate) fn known(kinds: &Kinds, key: &str) -> Option<Kind>
    ensures { result ≡ kind_under kinds.now key.now }
{
    match kinds.get(key) {
        Some(kind) => *kind,
        None => None,
    }
}

pub(crate) fn differs(known: Kind, kind: Option<Kind>) -> bool
    ensures { result ≡ clash (Some known) kind }
{
    match kind {
        Some(kind) => kind != known,
        None => false,
    }
}

// Notes the kinds of a row's cells, and says whether one is of another kind than the rows before have.
fn note_row(alloc: Global, kinds: &mut Kinds, row: &Map<String, Value>) -> Result<bool, NoMemory>
    ensures same { IfOk result (λ other. other ≡ false →
        WithRow kinds.old (object (members_view row.now.entries)) kinds.new) }
    ensures other { IfOk result (λ other. other ≡ true →
        HasClash kinds.old (object (members_view row.now.entries))) }
{
    for (key, value) in row.iter() {
        if note(alloc, kinds, key.as_str(), kind_of(value))? {
            return Ok(true);
        }
    }
    Ok(false)
}

// Notes the kinds of a row that is a value; one that is no object has no cell.
fn note_value(alloc: Global, kinds: &mut Kinds, row: &Value) -> Result<bool, NoMemory>
    ensures same { IfOk result (λ other. other ≡ false → WithRow kinds.old (view row.now) kinds.new) }
    ensures other { IfOk result (λ other. other ≡ true → HasClash kinds.old (view row.now)) }
{
    match row.as_object() {
        Some(members) => note_row(alloc, kinds, members),
        None => Ok(false),
    }
}

/// The keys of all rows, with the kinds of the cells under them; none where the cells under a key are of two kinds.
pub(crate) fn kinds_of(alloc: Global, rows: &[Value]) -> Result<Option<Kinds>, NoMemory>
    ensures { IfOk result (λ found. MatchOption found (HasMixed (values_seen rows.now))
        (λ kinds. OfRows kinds (values_seen rows.now))) }
{
    let mut kinds = Kinds::new(alloc);
    let mut rest = rows;
    while let [row, more @ ..] = rest {
        if note_value(alloc, &mut kinds, row)? {
            return Ok(None);
        }
        rest = more;
    }
    Ok(Some(kinds))
}
