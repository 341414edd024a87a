ghost use Rattle.std.specs.Prelude.{◌≡◌, ◌<◌, ◌≤◌, ◌&&◌, false, true, length, is_some};
ghost use Rattle.cut_order.specs.Order.{due_at, fresh, front, is_dark, is_line_due, next_letter, order_of, with_letter, with_line};
ghost use Rattle.storage_machine.specs.Cuts.{is_due, sent_so_far};
ghost use Rattle.storage_machine.specs.Host.{to_do};
ghost use Rattle.storage_machine.specs.declared.state.Event.TheVariants.{Due};
ghost use Rattle.storage_machine.specs.declared.state.State.{State};
ghost use Rattle.storage_model.specs.Faults.{AreRising};
ghost use Rattle.storage_model.specs.declared.faults.Letter.{Letter};
ghost use Rattle.trace_effects.specs.Effects.{after_cut, after_turn};

use std::marker::Model;
use storage_model::{Letter, LetterList, WordList};

/// The letters and the `cut` lines of a fault text, and how many of each are used.
#[derive(Drop)]
pub struct Order {
    turns: LetterList,
    letters: usize,
    cuts: WordList,
    used: usize,
}

impl Model for Order {
    ghost use Rattle.std.specs.Prelude.{length};
    ghost use Rattle.cut_order.specs.Order.{front, IsWithin, OrderState};

    ghost Value = { OrderState };

    ghost view = { λ it. record { turns = it.turns; letters = it.letters; cuts = it.cuts; used = front it.used (length it.cuts) } };

    ghost invariant = { λ it. IsWithin it.turns it.letters it.cuts it.used };
}

impl Order {
    /// Nothing is used.
    pub fn start(cuts: WordList, turns: LetterList) -> Order
        requires { AreRising cuts }
        ensures { result ≡ fresh turns cuts }
    {
        Order {
            turns,
            letters: 0,
            cuts,
            used: 0,
        }
    }

    /// The next letter. None where all are used.
    pub fn letter(&self) -> Option<Letter>
        ensures { result ≡ next_letter self.now }
    {
        if self.letters < self.turns.len() {
            Some(*self.turns.at(self.letters))
        } else {
            None
        }
    }

    /// Uses the next letter, where one is left.
    pub fn use_letter(&mut self)
        ensures letters { self.new ≡ with_letter self.old }
        ensures turn { (s : State) (letter : Letter) → order_of s ≡ self.old → order_of (after_turn s letter) ≡ self.new }
    {
        if self.letters < self.turns.len() {
            self.letters += 1;
        }
    }

    /// Whether a line is due where so many commands were sent, that of a phase under way among them.
    pub fn is_due(&self, sent: u32) -> bool
        ensures line { result ≡ is_line_due self.now sent }
        ensures due { (s : State) → order_of s ≡ self.now → sent_so_far s ≡ sent → is_due s ≡ (to_do s && result) }
    {
        has_come(self.cuts.as_slice(), self.used, sent)
    }

    /// Uses the line that is due, where one is.
    pub fn use_cut(&mut self, sent: u32)
        ensures lines { self.new ≡ with_line self.old sent }
        ensures cut { (s : State) → order_of s ≡ self.old → sent_so_far s ≡ sent → s.event ≡ Due → is_dark s.owed ≡ false → order_of (after_cut s) ≡ self.new }
    {
        if has_come(self.cuts.as_slice(), self.used, sent) {
            self.used += 1;
        }
    }
}

// Whether a line stands behind the first ones and its number has come.
fn has_come(cuts: &[u32], first: usize, sent: u32) -> bool
    requires rising { AreRising cuts.now }
    requires within { first ≤ length cuts.now }
    ensures due { result ≡ is_some (due_at cuts.now (front first (length cuts.now)) sent) }
    ensures below { result ≡ true → first < length cuts.now }
{
    first < cuts.len() && cuts[first] <= sent
}
