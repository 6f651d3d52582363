// What `how` and `validate` say.
ghost use Rattle.std.specs.Prelude.{◌≡◌};
ghost use Rattle.std.specs.Option.{option_map};
ghost use Rattle.frame_labels.specs.method.Merge as meant;

use meaning_join::{How, Validate};

// What `how` says; one of the four names is given.
pub(crate) fn how_named(name: &str) -> How
    ensures { result ≡ meant.how_named name.now }
{
    match name {
        "left" => How::Left,
        "right" => How::Right,
        "outer" => How::Outer,
        _ => How::Inner,
    }
}

// Whether no key may stand twice on the left side.
fn left_once(name: &str) -> bool
    ensures { result ≡ (meant.validate_named name.now).left }
{
    matches!(name, "one_to_one" | "1:1" | "one_to_many" | "1:m")
}

// Whether no key may stand twice on the right side.
fn right_once(name: &str) -> bool
    ensures { result ≡ (meant.validate_named name.now).right }
{
    matches!(name, "one_to_one" | "1:1" | "many_to_one" | "m:1")
}

// The sides on which `validate` lets no key stand twice; none where it isn't given.
pub(crate) fn once_in(name: Option<&str>) -> Validate
    ensures { result ≡ meant.validate_in (option_map (λ text. text.now) name.entry) }
{
    match name {
        Some(name) => Validate {
            left: left_once(name),
            right: right_once(name),
        },
        None => Validate {
            left: false,
            right: false,
        },
    }
}
