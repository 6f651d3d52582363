// Items that are put at places.
ghost use Rattle.std.specs.Prelude.{◌≡◌, ◌<◌, ◌≤◌, vec_len, vec_capacity};
ghost use Rattle.meaning_tables.specs.Change.{put_at};

// Puts an item in place of the one at a place, or last where the place is that after the last one.
pub(crate) fn put_at<T: Drop>(items: &mut Vec<T>, place: usize, item: T)
    requires place { place ≤ vec_len items.old }
    requires room { vec_len items.old < vec_capacity items.old }
    ensures { items.new.items ≡ put_at items.old.items place item }
{
    if place < items.len() {
        items[place] = item;
    } else if items.push(item).is_err() {
        unreachable!()
    }
}
