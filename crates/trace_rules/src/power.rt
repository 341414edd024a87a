// When the lines of a cut, and of the end, may stand.
ghost use Rattle.std.specs.Prelude.{◌≡◌, ◌<◌, length};
ghost use Rattle.storage_model.specs.declared.trace.End.TheVariants.{Fault};
ghost use Rattle.trace_rules.specs.Lines.{cut_holds, end_holds, is_allowed, is_dead, is_left_owed, left_by_owed, left_holds, lost_by_owed, lost_holds, may_be_on, may_cut, may_end, off_holds, on_holds};

use crate::lines::{is_free, is_number};
use storage_machine::cuts::first_lost;
use storage_machine::host::to_do;
use storage_machine::slots::{Question, has};
use storage_machine::{Owed, State};
use storage_model::{Block, End};

fn may_cut(s: &State, owed: &Owed) -> bool
    ensures { result ≡ may_cut s.now owed.now }
{
    match owed {
        Owed::Nothing | Owed::Closed | Owed::Bus { .. } | Owed::Flash { .. } | Owed::End => true,
        Owed::Dark { cuts } => !has(Question::Issued, &s.slots) && *cuts < 8,
        _ => false,
    }
}

#[tactic(auto, unfolding(crate::specs::Lines::cut_holds))]
pub fn cut_holds(s: &State) -> bool
    ensures { result ≡ cut_holds s.now }
{
    may_cut(s, &s.owed)
}

fn lost_by_owed(s: &State, id: u32, owed: &Owed) -> bool
    ensures { result ≡ lost_by_owed s.now id owed.now }
{
    match owed {
        Owed::Dark { .. } => is_number(id, first_lost(&s.slots)),
        _ => false,
    }
}

#[tactic(auto, unfolding(crate::specs::Lines::lost_holds))]
pub fn lost_holds(s: &State, id: u32) -> bool
    ensures { result ≡ lost_holds s.now id }
{
    lost_by_owed(s, id, &s.owed)
}

/// Whether the power may be on again.
pub fn may_be_on(s: &State, owed: &Owed) -> bool
    ensures { result ≡ may_be_on s.now owed.now }
{
    match owed {
        Owed::Dark { cuts } => !has(Question::Issued, &s.slots) && *cuts <= 7,
        _ => false,
    }
}

#[tactic(auto, unfolding(crate::specs::Lines::on_holds))]
pub fn on_holds(s: &State) -> bool
    ensures { result ≡ on_holds s.now }
{
    may_be_on(s, &s.owed)
}

fn is_allowed(s: &State, sector: usize, value: &Block) -> bool
    requires { sector < length s.now.base }
    ensures { result ≡ is_allowed s.now sector value.now }
{
    let base = s.base.as_slice();
    s.epochs
        .as_slice()
        .iter()
        .any(|epoch| s.pend.allows(base, *epoch, sector, value))
}

fn left_by_owed(s: &State, sector: u32, value: &Block, owed: &Owed) -> bool
    ensures { result ≡ left_by_owed s.now sector value.now owed.now }
{
    match owed {
        Owed::Left { from } => {
            if !is_number(sector, s.pend.next_left(*from)) {
                return false;
            }
            let sector = sector as usize;
            sector < s.base.len() && is_allowed(s, sector, value)
        }
        _ => false,
    }
}

#[tactic(auto, unfolding(crate::specs::Lines::left_holds))]
pub fn left_holds(s: &State, sector: u32, value: &Block) -> bool
    ensures { result ≡ left_holds s.now sector value.now }
{
    left_by_owed(s, sector, value, &s.owed)
}

fn is_left_owed(owed: &Owed) -> bool
    ensures { result ≡ is_left_owed owed.now }
{
    matches!(owed, Owed::Left { .. })
}

fn is_dead(s: &State, owed: &Owed) -> bool
    ensures { result ≡ is_dead s.now owed.now }
{
    match owed {
        Owed::Dark { cuts } => !has(Question::Issued, &s.slots) && *cuts == 8,
        _ => false,
    }
}

fn may_end(s: &State) -> bool
    ensures { result ≡ may_end s.now }
{
    is_free(&s.owed) && !to_do(s)
}

fn may_fail(s: &State) -> bool
    ensures { result ≡ end_holds s.now Fault }
{
    if may_end(s) {
        return true;
    }
    if may_be_on(s, &s.owed) {
        return true;
    }
    is_left_owed(&s.owed)
}

#[tactic(auto, unfolding(crate::specs::Lines::off_holds))]
pub fn off_holds(s: &State, end: End) -> bool
    ensures { result ≡ off_holds s.now end }
{
    match end {
        End::Good => may_end(s),
        End::Fault => may_fail(s),
        End::Dead => is_dead(s, &s.owed),
        End::Image => may_be_on(s, &s.owed),
    }
}
