// Words of trees, as the forms take them.
ghost use Rattle.std.specs.Prelude.{◌≡◌, IfOk};
ghost use Rattle.script_state.specs.select.Select.{through};
ghost use Rattle.script_state.specs.frame_select.Selected.{way_of};
ghost use Rattle.script_tree.specs.View.{accessor_of};

use cell_core::{NoMemory, Words};
use frame_store::Selector;
use script_tree::Accessor;
use std::alloc::Global;

// The name of an argument, if it has one.
pub(crate) fn copied_name(alloc: Global, name: &Option<Words>) -> Result<Option<Words>, NoMemory>
    ensures { IfOk result (λ n. n ≡ name.now) }
{
    match name {
        Some(name) => Ok(Some(Words::from_text(alloc, name.as_str())?)),
        None => Ok(None),
    }
}

// An accessor before its brackets.
pub(crate) fn selector_of(by: Accessor) -> Selector
    ensures { way_of result ≡ through (accessor_of by) }
{
    match by {
        Accessor::Loc => Selector::Loc,
        Accessor::Iloc => Selector::Iloc,
        Accessor::At => Selector::At,
        Accessor::Iat => Selector::Iat,
    }
}
