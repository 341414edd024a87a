ghost use Rattle.std.specs.Prelude.{◌≡◌};
ghost use Rattle.card_link.specs.Behind.{Fits, behind, link_state};
ghost use Rattle.card_link.specs.Made.{CardMade};
ghost use Rattle.std.proofs.Common.{rules};
ghost use Rattle.std.proofs.lemmas.Grind.{common_steps};

use crate::calls::{close, exchange, give, take};
use array_edge::Array;
use bus_link::{Link, LinkEnd, ScriptLink};
use card_core::Card;
use cmd_words::Command;
use storage_model::Block;

/// A card behind a bus with a script, and the array behind the card.
#[derive(Drop)]
pub struct CardLink<'a, 'b, 'c, A: Array> {
    pub card: &'a mut Card,
    pub array: &'b mut A,
    pub link: &'c mut ScriptLink,
}

impl<'a, 'b, 'c, A: Array> Link for CardLink<'a, 'b, 'c, A> {
    ghost made = { λ old call new. CardMade (behind old.card.now (A.state old.array.now) old.link.now) call (behind new.card.now (A.state new.array.now) new.link.now) };

    ghost keeps = { λ old new. (new.card.ghost_name ≡ old.card.ghost_name) × (new.array.ghost_name ≡ old.array.ghost_name) × (new.link.ghost_name ≡ old.link.ghost_name) };

    ghost fits = { λ l. Fits (behind l.card.now (A.state l.array.now) l.link.now) };

    ghost state = { λ l. link_state (behind l.card.now (A.state l.array.now) l.link.now) };

    ghost kept = { Prim.search (rules, common_steps) };

    ghost kept_on = { Prim.search (rules, common_steps) };

    fn exchange(&mut self, command: &Command) -> Result<u32, LinkEnd> {
        exchange(self.card, self.array, self.link, command)
    }

    fn give(&mut self, block: &Block) -> Result<(), LinkEnd> {
        give(self.card, self.array, self.link, block)
    }

    fn take(&mut self, block: &mut Block) -> Result<(), LinkEnd> {
        take(self.card, self.array, self.link, block)
    }

    fn close(&mut self) -> Result<u32, LinkEnd> {
        close(self.card, self.array, self.link)
    }
}
