// The rows of labels.
use cell_core::{Label, NoMemory, Places, Rows, TextDict};
use index_core::{Index, IndexFault};

// Whether the places are these.
pub(crate) fn are(places: &Places, expected: &[usize]) -> bool {
    if places.len() != expected.len() {
        return false;
    }
    for k in 0..places.len() {
        if *places.at(k) != expected[k] {
            return false;
        }
    }
    true
}

// Whether these places were found.
fn found(places: Result<Places, IndexFault>, expected: &[usize]) -> bool {
    match places {
        Ok(places) => are(&places, expected),
        Err(_) => false,
    }
}

#[test]
fn a_label_has_its_places(rt: HostRuntime) -> Result<(), NoMemory> {
    let alloc = rt.alloc();
    let keys = Index::from_labels(alloc, &[Label::Int(7), Label::Na, Label::Int(7)])?;
    assert!(rt; found(keys.places(alloc, Label::Int(7)), &[0, 2]));
    let absent = keys.places(alloc, Label::Bool(true));
    assert!(rt; matches!(absent, Err(IndexFault::NotThere(Label::Bool(true)))));
    Ok(())
}

#[test]
fn two_different_labels_are_unique(rt: HostRuntime) -> Result<(), NoMemory> {
    let alloc = rt.alloc();
    let different = Index::from_labels(alloc, &[Label::Int(1), Label::Bool(true)])?;
    assert!(rt; different.is_unique(alloc) == Ok(true));
    Ok(())
}

#[test]
fn a_slice_of_labels_has_both_ends(rt: HostRuntime) -> Result<(), NoMemory> {
    let dict = TextDict::new(rt.alloc());
    let labels = [Label::Bool(false), Label::Int(3), Label::Int(5), Label::Na];
    let keys = Index::from_labels(rt.alloc(), &labels)?;
    assert!(rt; keys.is_sorted(&dict));
    let rows = keys.slice_places(&dict, Some(Label::Int(3)), Some(Label::Int(5)));
    let both = Rows {
        start: 1,
        step: 1,
        count: 2,
    };
    assert!(rt; rows == Ok(both));
    Ok(())
}
