// Writes to lists that a place outside leaves as they were.
ghost use Rattle.std.specs.Prelude.{◌≡◌, ◌-◌, slice_set};

use storage_model::Sequence;

pub fn put_in<T: Drop>(list: &mut Sequence<T>, place: usize, item: T)
    ensures { list.new ≡ slice_set list.old place item }
{
    if place < list.len() {
        list.set(place, item);
    }
}

/// The place of a number that is counted from 1.
pub fn place_of(id: u32) -> usize
    ensures { result ≡ id - 1 }
{
    (id as usize).saturating_sub(1)
}
