// Power cuts: which `cut` line is due, and what comes after a cut.
ghost use Rattle.std.specs.Prelude.{◌≡◌, ◌==◌, ◌&&◌, nat_le, not, option_map, position, zip, slice_get};
ghost use Rattle.std.specs.List.{list_any};
ghost use Rattle.storage_machine.specs.Cuts.{due_line, first_lost, has_own_line, is_due, least, lower_issued, nearer, next_left, same_block, sent_so_far, shows};

use crate::commands::next_number;
use crate::host::to_do;
use crate::slots::{Question, asks, id_of};
use crate::{Slot, State};
use storage_model::{Block, Mark};

fn sent_so_far(s: &State) -> u32
    ensures { result ≡ sent_so_far s.now }
{
    if s.busy { next_number(s) } else { s.n }
}

/// The first `cut` line that isn't used and whose number has come.
#[tactic(auto, unfolding(crate::specs::Cuts::due_line))]
pub fn due_line(s: &State) -> Option<usize>
    ensures { result ≡ due_line s.now }
{
    s.cuts.first_up_to(&s.faults, sent_so_far(s))
}

pub fn is_due(s: &State) -> bool
    ensures { result ≡ is_due s.now }
{
    to_do(s) && due_line(s).is_some()
}

/// Whether the next command's own number has a `cut` line that isn't used.
#[tactic(auto, unfolding(crate::specs::Cuts::has_own_line))]
pub fn has_own_line(s: &State) -> bool
    ensures { result ≡ has_own_line s.now }
{
    s.cuts.has_unused(&s.faults, next_number(s))
}

fn least(best: Option<u32>, x: u32) -> Option<u32>
    ensures { result ≡ least best x }
{
    match best {
        None => Some(x),
        Some(y) => Some(y.min(x)),
    }
}

fn lower_issued(best: Option<u32>, slot: &Slot) -> Option<u32>
    ensures { result ≡ lower_issued best slot.now }
{
    if asks(Question::Issued, slot) {
        least(best, id_of(slot))
    } else {
        best
    }
}

/// The lowest number of the issued requests.
#[tactic(auto, unfolding(crate::specs::Cuts::first_lost))]
pub fn first_lost(slots: &[Slot; 32]) -> Option<u32>
    ensures { result ≡ first_lost slots.now }
{
    slots
        .iter()
        .fold(None, |best, slot| lower_issued(best, slot))
}

fn nearer(from: u64, best: Option<u32>, mark: &Mark) -> Option<u32>
    ensures { result ≡ nearer from best mark.now }
{
    match mark {
        Mark::Put(put) => {
            if from <= u64::from(put.sector) {
                least(best, put.sector)
            } else {
                best
            }
        }
        Mark::Bar => best,
    }
}

/// The lowest sector, from a first on, that has a put.
#[tactic(auto, unfolding(crate::specs::Cuts::next_left))]
pub fn next_left(pend: &[Mark], from: u64) -> Option<u32>
    ensures { result ≡ next_left pend.now from }
{
    pend.iter()
        .fold(None, |best, mark| nearer(from, best, mark))
}

pub fn same_block(block: &Block, other: &Block) -> bool
    ensures { result ≡ same_block block.now other.now }
{
    block.0 == other.0
}

/// Whether the contents have a value at a place.
pub fn shows(contents: &[Block], place: usize, value: &Block) -> bool
    ensures { result ≡ shows (slice_get contents.now place) value.now }
{
    match contents.get(place) {
        None => false,
        Some(block) => same_block(block, value),
    }
}
