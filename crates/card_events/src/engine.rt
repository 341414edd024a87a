// An event of the engine over the bus to the card.
ghost use Rattle.std.specs.Prelude.{◌≡◌, ◌↔◌, ◌⊎◌, [], true};
ghost use Rattle.card_link.specs.Behind.{Fits, behind, link_state};
ghost use Rattle.card_link.specs.Made.{CardMade};
ghost use Rattle.cq_engine.specs.Ends.{EventEnds};
ghost use Rattle.cq_engine.specs.Event.{Event};
ghost use Rattle.cq_engine.specs.Holds.{AreCounted, Holds, LieIn};
ghost use Rattle.cq_engine.specs.Outcome.{stop_of};
ghost use Rattle.cq_engine.specs.Standings.{MovesBy, OneOpen, completed_by, set_up_of};
ghost use Rattle.cq_regs.specs.Slots.{IsRing};
ghost use Rattle.cq_schedule.specs.Meaning.{rests};
ghost use Rattle.piece_data.specs.Laws.{HasSameSpace};

use array_edge::Array;
use bus_link::ScriptLink;
use card_core::Card;
use card_link::CardLink;
use cq_engine::{Did, Engine};
use cq_regs::Regs;
use host_mem::HostMem;

/// One event of the engine over the card.
pub fn engine_event<A: Array>(
    engine: &mut Engine,
    regs: &mut Regs,
    mem: &mut HostMem,
    card: &mut Card,
    script: &mut ScriptLink,
    array: &mut A,
) -> Did
    requires fits { Fits (behind card.old (A.state array.old) script.old) }
    requires holds { Holds engine.old regs.old }
    requires lie { LieIn mem.old engine.old.held }
    ensures event { Event CardMade (behind card.old (A.state array.old) script.old) (behind card.new (A.state array.new) script.new) engine.old engine.new regs.old regs.new mem.old mem.new result }
    ensures fits { Fits (behind card.new (A.state array.new) script.new) }
    ensures holds { Holds engine.new regs.new }
    ensures lie { LieIn mem.new engine.new.held }
    ensures space { HasSameSpace mem.old mem.new }
    ensures idle { (result ≡ Did.Idle) ↔ ((rests regs.old ≡ true) ⊎ (regs.old.ring ≡ [])) }
    ensures ring { IsRing regs.new.ring }
    ensures slots { MovesBy result regs.old regs.new }
    ensures done { regs.new.completed ≡ completed_by result regs.old.completed }
    ensures set_up { set_up_of regs.new ≡ set_up_of regs.old }
    ensures counts { AreCounted engine.old.held → AreCounted engine.new.held }
    ensures one { OneOpen regs.old.ring → OneOpen regs.new.ring }
    ensures ends { EventEnds (link_state (behind card.old (A.state array.old) script.old)) (link_state (behind card.new (A.state array.new) script.new)) (stop_of result) }
{
    let mut link = CardLink {
        card,
        array,
        link: script,
    };
    engine_over(engine, regs, mem, &mut link)
}

// One event over a link to a card.
fn engine_over<A: Array>(
    engine: &mut Engine,
    regs: &mut Regs,
    mem: &mut HostMem,
    link: &mut CardLink<A>,
) -> Did
    requires fits { Fits (behind link.old.card.now (A.state link.old.array.now) link.old.link.now) }
    requires holds { Holds engine.old regs.old }
    requires lie { LieIn mem.old engine.old.held }
    ensures event { Event CardMade (behind link.old.card.now (A.state link.old.array.now) link.old.link.now) (behind link.new.card.now (A.state link.new.array.now) link.new.link.now) engine.old engine.new regs.old regs.new mem.old mem.new result }
    ensures fits { Fits (behind link.new.card.now (A.state link.new.array.now) link.new.link.now) }
    ensures holds { Holds engine.new regs.new }
    ensures lie { LieIn mem.new engine.new.held }
    ensures space { HasSameSpace mem.old mem.new }
    ensures idle { (result ≡ Did.Idle) ↔ ((rests regs.old ≡ true) ⊎ (regs.old.ring ≡ [])) }
    ensures ring { IsRing regs.new.ring }
    ensures slots { MovesBy result regs.old regs.new }
    ensures done { regs.new.completed ≡ completed_by result regs.old.completed }
    ensures set_up { set_up_of regs.new ≡ set_up_of regs.old }
    ensures counts { AreCounted engine.old.held → AreCounted engine.new.held }
    ensures one { OneOpen regs.old.ring → OneOpen regs.new.ring }
    ensures ends { EventEnds (link_state (behind link.old.card.now (A.state link.old.array.now) link.old.link.now)) (link_state (behind link.new.card.now (A.state link.new.array.now) link.new.link.now)) (stop_of result) }
    ensures card { link.new.card.ghost_name ≡ link.old.card.ghost_name }
    ensures array { link.new.array.ghost_name ≡ link.old.array.ghost_name }
    ensures script { link.new.link.ghost_name ≡ link.old.link.ghost_name }
{
    engine.event(regs, mem, link)
}
