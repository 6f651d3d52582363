// Fields, and the kinds that they are of.
ghost use Rattle.std.specs.Prelude.{◌≡◌, ◌∷◌, [], List, ℕ};
ghost use Rattle.meaning_csv.specs.CsvRead as meant;

use cell_core::Kind;
use nullable_array::{number_of_text, truth_of_text};

/// Whether a field is a missing cell.
pub(crate) fn is_missing(field: &str) -> bool
    ensures { result ≡ meant.is_missing field.now }
{
    match field.as_bytes() {
        [] => true,
        [first, ..] => is_missing_word(*first, field),
    }
}

// Whether a field is a missing cell, by its first byte: few words begin with it, so few are compared, and for most
// fields none.
fn is_missing_word(first: u8, field: &str) -> bool
    requires { (rest : List ℕ) × (field.now ≡ first ∷ rest) }
    ensures { result ≡ meant.is_missing field.now }
{
    match first {
        b'#' => matches!(field, "#N/A" | "#N/A N/A" | "#NA"),
        b'-' => matches!(field, "-1.#IND" | "-1.#QNAN" | "-NaN" | "-nan"),
        b'1' => matches!(field, "1.#IND" | "1.#QNAN"),
        b'<' => field == "<NA>",
        b'N' => matches!(field, "N/A" | "NA" | "NULL" | "NaN" | "None"),
        b'n' => matches!(field, "n/a" | "nan" | "null"),
        _ => false,
    }
}

/// Whether a field can be a cell of the kind.
pub(crate) fn is_of_kind(kind: Kind, field: &str) -> bool
    ensures { result ≡ meant.is_of_kind kind field.now }
{
    if is_missing(field) {
        return true;
    }
    match kind {
        Kind::Int64 => number_of_text(field).is_some(),
        Kind::Boolean => truth_of_text(field).is_some(),
        Kind::Text => true,
    }
}

/// The kind of a column that has this field alone.
pub(crate) fn kind_of_field(field: &str) -> Kind
    ensures { result ≡ meant.kind_of_fields (field.now ∷ []) }
{
    if is_of_kind(Kind::Int64, field) {
        Kind::Int64
    } else if is_of_kind(Kind::Boolean, field) {
        Kind::Boolean
    } else {
        Kind::Text
    }
}
