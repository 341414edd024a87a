// The lowest waiting request, and how many wait.
ghost use Rattle.std.specs.Prelude.{◌≡◌, ◌+◌, ◌-◌, ◌<◌, ◌≤◌, ◌^◌, ℕ, false, true, fold, length, slice_get, Some, slice_set, slice_index_or};
ghost use Rattle.std.specs.List.{position_or_len};
ghost use Rattle.drv_jobs.specs.Changes.{waits_again};
ghost use Rattle.drv_jobs.specs.Sound.{AreHeld, IsCounted};

use crate::holders::Holders;

// The first place from `from` on that waits, or the number of places.
pub(crate) fn first_from(waiting: &[bool], from: usize) -> usize
    requires from { from ≤ length waiting.now }
    requires before { (place : ℕ) → place < from → slice_index_or waiting.now place false ≡ false }
    ensures { result ≡ position_or_len (λ waits. waits) waiting.now }
{
    let mut place = from;
    while place < waiting.len() && !waiting[place] {
        place += 1;
    }
    place
}

// The lowest waiting request waits no more.
pub(crate) fn take_first(waiting: &mut [bool], first: &mut usize, count: &mut u32)
    requires counted { IsCounted waiting.old first.old count.old }
    requires waits { first.old < length waiting.old }
    ensures waiting { waiting.new ≡ slice_set waiting.old first.old false }
    ensures counted { IsCounted waiting.new first.new count.new }
{
    let place = *first;
    waiting[place] = false;
    *count -= 1;
    *first = first_from(waiting, place + 1);
}

// The request at a place waits again.
pub(crate) fn wait_again(waiting: &mut [bool], first: &mut usize, count: &mut u32, place: usize)
    requires counted { IsCounted waiting.old first.old count.old }
    requires within { place < length waiting.old }
    requires few { length waiting.old < 2 ^ 32 }
    ensures waiting { waiting.new ≡ slice_set waiting.old place true }
    ensures counted { IsCounted waiting.new first.new count.new }
{
    if !waiting[place] {
        waiting[place] = true;
        *count += 1;
        *first = place.min(*first);
    }
}

// The requests of all tags wait again.
pub(crate) fn wait_all(waiting: &mut [bool], first: &mut usize, count: &mut u32, holders: &Holders)
    requires counted { IsCounted waiting.old first.old count.old }
    requires held { AreHeld waiting.old holders.now }
    requires few { length waiting.old < 2 ^ 32 }
    ensures waiting { waiting.new ≡ fold waits_again waiting.old holders.now }
    ensures length { length waiting.new ≡ length waiting.old }
    ensures counted { IsCounted waiting.new first.new count.new }
{
    for holder in holders.iter() {
        if let Some(id) = holder {
            wait_again(waiting, first, count, *id as usize - 1);
        }
    }
}
