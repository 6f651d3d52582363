// What `pd.concat` is told besides the axis.
ghost use Rattle.std.specs.Prelude.{◌≡◌, List, Result, OnOk};
ghost use Rattle.column_core.specs.cells.Text.{Text};
ghost use Rattle.column_core.specs.cells.Fault.{FaultValue};
ghost use Rattle.frame_store.specs.tables.Value.{Entry};
ghost use Rattle.meaning_method.specs.Concat as meant;
ghost use Rattle.frame_parts.specs.Makes.{Passes};
ghost use Rattle.frame_concat.specs.Asked.{asked_value, AreKeysFor};

use cell_core::{Code, Label, Reason};
use frame_store::OpFault;

// Whether only what all parts have stays, whether the labels along the axis are 0, 1 and so on, and a label for each
// part.
#[derive(Drop)]
pub(crate) struct Asked {
    pub(crate) inner: bool,
    pub(crate) renumbered: bool,
    pub(crate) keys: Option<Vec<Label>>,
}

// Whether labels of parts fit: not where rows are numbered, not on axis 1, and one for each part.
pub(crate) fn check_keys(count: usize, across: bool, asked: &Asked) -> Result<(), OpFault>
    ensures fit { OnOk result (AreKeysFor count asked.now) }
    ensures passes { (texts : List Text) (rest : Result Entry FaultValue)
        → let c = asked_value texts asked.now in
        Passes texts result rest (meant.with_keys count across c.renumbered c.keys rest) }
{
    let Some(keys) = &asked.keys else {
        return Ok(());
    };
    if asked.renumbered {
        return Err(OpFault::Refused(Code::BadValue(Reason::Argument)));
    }
    if across {
        return Err(OpFault::Refused(Code::WrongKind));
    }
    if count != keys.len() {
        let lengths = Reason::Length(count as u64, keys.len() as u64);
        return Err(OpFault::Refused(Code::BadValue(lengths)));
    }
    Ok(())
}
