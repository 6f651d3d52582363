// What the calls of forms cost, in cells.
ghost use Rattle.std.specs.Prelude.{◌≡◌, ℕ, ◌*◌, List, true};
ghost use Rattle.meaning_laws.specs.cells.Text.{Text as OneText};
ghost use Rattle.meaning_laws.specs.charge.Charge.{answer_charge, is_of_labels, is_slice};
ghost use Rattle.meaning_laws.specs.method.Charges.{is_free_method};
ghost use Rattle.frame_store.specs.Arguments.{entry_of, subscript_of, IsLive};
ghost use Rattle.frame_store.specs.Objects.{Tables, tables};
ghost use Rattle.frame_select.specs.Selected.{way_of};
ghost use Rattle.script_state.specs.Charges.{told, rows_in, columns_in, is_free_on, method_cost, selection_cost, setting_cost};
ghost use Rattle.script_state.specs.Reads.{count_after};

use cell_core::{Grid, Shape};
use frame_store::{Argument, Selector, Store, Subscript, Value};
use meaning_call::{LevelMethod, Method, TableMethod};

/// The charge with so many cells more. It stops at its last number.
pub(crate) fn charged(charge: u64, cells: u64) -> u64
    ensures { (cost : ℕ) → cells ≡ told cost → result ≡ count_after charge cost }
{
    charge.saturating_add(cells)
}

// The rows of so many columns, in cells.
fn cells(rows: usize, columns: usize) -> u64
    ensures { result ≡ told (rows * columns) }
{
    (rows as u64).saturating_mul(columns as u64)
}

/// The rows of a value; a scalar has none.
pub(crate) fn rows_of(store: &Store, value: Value) -> usize
    requires { IsLive (tables store.now) value }
    ensures { (texts : List OneText) →
        result ≡ rows_in (entry_of (tables store.now) texts value) }
{
    match value {
        Value::Object(id) => store.read(id).rows(),
        Value::Scalar(_) => 0,
    }
}

/// The columns of a value; a scalar has none.
pub(crate) fn columns_of(store: &Store, value: Value) -> usize
    requires { IsLive (tables store.now) value }
    ensures { (texts : List OneText) →
        result ≡ columns_in (entry_of (tables store.now) texts value) }
{
    match value {
        Value::Object(id) => store.read(id).columns(),
        Value::Scalar(_) => 0,
    }
}

/// The cells of an answer; a scalar has none.
#[tactic(auto, using(crate::proofs::ChargeLaws::answer_told))]
pub(crate) fn answer_cells(store: &Store, answer: Value) -> u64
    requires { IsLive (tables store.now) answer }
    ensures { (texts : List OneText) →
        result ≡ told (answer_charge (entry_of (tables store.now) texts answer)) }
{
    cells(rows_of(store, answer), columns_of(store, answer))
}

/// Whether a selection costs nothing: columns by their labels, and rows by a slice.
pub(crate) fn is_free_selection(store: &Store, on: Value, by: Selector, first: &Subscript) -> bool
    requires { IsLive (tables store.now) on }
    ensures { (texts : List OneText) → result
        ≡ is_free_on (entry_of (tables store.now) texts on) (way_of by)
        (subscript_of (tables store.now) texts first.now) }
{
    let Value::Object(id) = on else {
        return true;
    };
    match by {
        Selector::Plain => match store.read(id).shape() {
            Shape::Series => is_slice(first),
            Shape::Frame => is_of_labels(first),
        },
        Selector::Loc | Selector::Iloc => is_slice(first),
        Selector::At | Selector::Iat => false,
    }
}

// A slice, `:` among them.
fn is_slice(key: &Subscript) -> bool
    ensures { (live : Tables) (texts : List OneText) →
        result ≡ is_slice (subscript_of live texts key.now) }
{
    match key {
        Subscript::Key(_) => false,
        Subscript::Span(_, _, _) => true,
    }
}

// A label or a list of labels.
fn is_of_labels(key: &Subscript) -> bool
    ensures { (live : Tables) (texts : List OneText) →
        result ≡ is_of_labels (subscript_of live texts key.now) }
{
    match key {
        Subscript::Key(Argument::One(Value::Scalar(_))) => true,
        Subscript::Key(Argument::Many(_)) => true,
        _ => false,
    }
}

/// The cells of an answer of a method of a value with so many rows and columns: none where the answer shares all that it
/// has, and of `reset_index` those of the columns that labels became.
pub(crate) fn method_cells(
    store: &Store,
    method: Method,
    rows: usize,
    columns: usize,
    answer: Value,
) -> u64
    requires { IsLive (tables store.now) answer }
    ensures { (texts : List OneText) → result
        ≡ told (method_cost method rows columns (entry_of (tables store.now) texts answer)) }
{
    if let Method::Levels(LevelMethod::ResetIndex) = method {
        return cells(rows, columns_of(store, answer).saturating_sub(columns));
    }
    if is_free_method(method) {
        return 0;
    }
    answer_cells(store, answer)
}

/// The cells of an answer of a selection, which may cost nothing.
pub(crate) fn selection_cells(store: &Store, free: bool, answer: Value) -> u64
    requires { IsLive (tables store.now) answer }
    ensures { (texts : List OneText) → result
        ≡ told (selection_cost free (entry_of (tables store.now) texts answer)) }
{
    if free {
        return 0;
    }
    answer_cells(store, answer)
}

// Whether a method's answer shares all cells with what is there.
fn is_free_method(method: Method) -> bool
    ensures { result ≡ is_free_method method }
{
    match method {
        Method::Table(method) => !matches!(method, TableMethod::ToCsv),
        Method::Levels(method) => !matches!(method, LevelMethod::ResetIndex),
        _ => false,
    }
}

/// The cells of a setting that touched so many columns of a value with so many rows, once it is done: those of the rows
/// in these columns, or all where it added a row.
pub(crate) fn setting_cells(store: &Store, rows: usize, touched: u64, left: Value) -> u64
    requires { IsLive (tables store.now) left }
    ensures { (texts : List OneText) → result
        ≡ told (setting_cost rows touched (entry_of (tables store.now) texts left)) }
{
    let now = rows_of(store, left);
    if rows < now {
        return cells(now, columns_of(store, left));
    }
    (now as u64).saturating_mul(touched)
}
