// Whose event comes next.
ghost use Rattle.std.specs.Prelude.{◌≡◌, not};
ghost use Rattle.cut_order.specs.Order.{next_letter};
ghost use Rattle.trace_rules.specs.Lines.{is_letter, same_letter};
ghost use Rattle.world_steps.specs.World.{chosen_of, is_cut_due, is_to_do, uses_line};

use crate::world::World;
use storage_model::Letter;

impl World {
    /// Whose event comes next: power's where a cut is due, else that of the next letter, else the host's where it has work, else
    /// the engine's.
    #[tactic(auto, unfolding(world_steps::specs::World::chosen_of))]
    pub fn choose(&self) -> Letter
        ensures { result ≡ chosen_of self.now }
    {
        if self.is_cut_due() {
            return Letter::Cut;
        }
        match self.order.letter() {
            Some(letter) => letter,
            None if self.path.driver.has_work(&self.path.regs) => Letter::Host,
            None => Letter::Engine,
        }
    }

    /// Whether nothing is to do: no request waits or is issued, and no recovery is under way.
    #[tactic(auto, unfolding(world_steps::specs::World::is_to_do))]
    pub fn over(&self) -> bool
        ensures { result ≡ not (is_to_do self.now.path) }
    {
        let driver = &self.path.driver;
        driver.waiting() == 0 && driver.issued() == 0 && !driver.recovering()
    }

    // Whether power is to be cut now.
    #[tactic(auto, unfolding(world_steps::specs::World::is_cut_due))]
    pub(crate) fn is_cut_due(&self) -> bool
        ensures { result ≡ is_cut_due self.now }
    {
        !self.over() && self.order.is_due(self.path.script.sent())
    }

    // Whether an actor's event uses the line that is due.
    pub(crate) fn uses_line(&self, actor: Letter) -> bool
        ensures { result ≡ uses_line self.now actor }
    {
        is_same(actor, Letter::Cut) && self.is_cut_due()
    }

    // Whether the next letter is an actor's.
    pub(crate) fn has_letter(&self, actor: Letter) -> bool
        ensures { result ≡ is_letter actor (next_letter self.now.order) }
    {
        match self.order.letter() {
            None => false,
            Some(next) => is_same(actor, next),
        }
    }
}

fn is_same(letter: Letter, other: Letter) -> bool
    ensures { result ≡ same_letter letter other }
{
    match letter {
        Letter::Host => matches!(other, Letter::Host),
        Letter::Engine => matches!(other, Letter::Engine),
        Letter::Card => matches!(other, Letter::Card),
        Letter::Cut => matches!(other, Letter::Cut),
    }
}
