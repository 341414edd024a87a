// The requests that the tags are issued for.
ghost use Rattle.std.specs.Prelude.{◌≡◌, ◌==◌, ◌<◌, ◌≤◌, None, Some, count_by, is_some, length, slice_set};
ghost use Rattle.std.specs.Int.{bit_at};
ghost use Rattle.std.specs.List.{list_any};
ghost use Rattle.drv_tags.specs.Tags.{lowest_free};
ghost use Rattle.drv_jobs.specs.Standings.{holder_of, no_holders};
ghost use Rattle.drv_jobs.specs.Changes.{freed_from};
ghost use Rattle.drv_jobs.specs.Sound.{AreTied};

use crate::next::{DIRECT_TAG, Due};
use drv_tags::Tags;

// A table of the requests by their tags.
pub(crate) type Holders = [Option<u32>; 32];

// No tag is issued.
pub(crate) fn no_holders() -> Holders
    ensures { result ≡ no_holders }
{
    [None; 32]
}

// The request of a tag.
pub(crate) fn holder_of(holders: &Holders, tag: u8) -> Option<u32>
    ensures { result ≡ holder_of holders.now tag }
{
    if tag < 32 {
        holders[usize::from(tag)]
    } else {
        None
    }
}

// Whether any tag is issued.
pub(crate) fn is_any_issued(holders: &Holders) -> bool
    ensures { result ≡ list_any is_some holders.now }
{
    holders.iter().any(|holder| holder.is_some())
}

// How many tags are issued.
pub(crate) fn count_issued(holders: &Holders) -> u32
    ensures value { result ≡ count_by is_some holders.now }
    ensures few { result ≤ 32 }
{
    let mut count = 0;
    for holder in holders.iter() {
        if holder.is_some() {
            count += 1;
        }
    }
    count
}

// Takes the tag of a request that is to be issued.
pub(crate) fn use_tag(holders: &mut Holders, tags: &mut Tags, due: Due)
    requires tied { AreTied tags.old holders.old }
    requires below { due.tag < 32 }
    requires lowest { due.tag < DIRECT_TAG → lowest_free tags.old ≡ Some due.tag }
    ensures holders { holders.new ≡ slice_set holders.old due.tag (Some due.id) }
    ensures tied { AreTied tags.new holders.new }
    ensures depth { tags.new.depth ≡ tags.old.depth }
{
    if due.tag < DIRECT_TAG {
        let _ = tags.take();
    }
    holders[usize::from(due.tag)] = Some(due.id);
}

// Frees a tag, if it is used.
pub(crate) fn free_tag(holders: &mut Holders, tags: &mut Tags, tag: u8)
    requires tied { AreTied tags.old holders.old }
    requires below { tag < 32 }
    ensures holders { holders.new ≡ slice_set holders.old tag None }
    ensures tied { AreTied tags.new holders.new }
    ensures depth { tags.new.depth ≡ tags.old.depth }
{
    if tag < DIRECT_TAG && holders[usize::from(tag)].is_some() {
        tags.give(tag);
    }
    holders[usize::from(tag)] = None;
}

// Frees the tags of a word.
pub(crate) fn free_tags(holders: &mut Holders, tags: &mut Tags, word: u32)
    requires { AreTied tags.old holders.old }
    ensures holders { holders.new ≡ freed_from word 0 holders.old }
    ensures tied { AreTied tags.new holders.new }
    ensures depth { tags.new.depth ≡ tags.old.depth }
{
    for tag in 0..32u8 {
        if is_set(word, tag) {
            free_tag(holders, tags, tag);
        }
    }
}

// Frees all tags.
pub(crate) fn free_all(holders: &mut Holders, tags: &mut Tags, depth: u8)
    requires few { depth ≤ 31 }
    ensures holders { holders.new ≡ no_holders }
    ensures tied { AreTied tags.new holders.new }
    ensures depth { tags.new.depth ≡ depth }
{
    *holders = no_holders();
    *tags = Tags::new(depth);
}

// Whether a bit of a word is 1.
fn is_set(word: u32, bit: u8) -> bool
    requires { bit < 32 }
    ensures { result ≡ (bit_at word bit == 1) }
{
    word >> bit & 1 == 1
}
