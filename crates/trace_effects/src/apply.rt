// What a line does, of whatever kind.
ghost use Rattle.std.specs.Prelude.{◌≡◌, IsTrue, OnOk, OnErr};
ghost use Rattle.trace_effects.specs.Effects.{effect};
ghost use Rattle.trace_rules.specs.Lines.{holds};
ghost use Rattle.storage_machine.specs.Sound.{IsSound};

use crate::cut_effects::{after_cut, after_left, after_lost, after_off, after_on};
use crate::effects::{
    after_address, after_answer, after_bus, after_discard, after_fault, after_flash, after_irq,
    after_issue, after_params, after_poll, after_read, after_recover, after_sector, after_turn,
    over,
};
use crate::phase_effects::{PhaseLine, after_phase};
use std::alloc::Global;
use storage_machine::{Owed, State};
use storage_model::{Item, NoMemory};

/// Does what a line does; without memory the state stays as it was.
#[tactic(auto, unfolding(crate::specs::Effects::effect))]
pub fn apply(s: &mut State, alloc: Global, item: &Item) -> Result<(), NoMemory>
    requires sound { IsSound s.old }
    requires holds { IsTrue (holds s.old item.now) }
    ensures ok { OnOk result (s.new ≡ effect s.old item.now) }
    ensures err { OnErr result (s.new ≡ s.old) }
{
    match item {
        Item::Card { .. } => over(s, Owed::Nothing),
        Item::Turn { letter } => after_turn(s, *letter),
        Item::Issue { id, tag } => return after_issue(s, *id, *tag),
        Item::Params { n, id } => after_params(s, *n, *id),
        Item::Address { n, id } => after_address(s, *n, *id),
        Item::Poll { n, mask } => after_poll(s, *n, *mask),
        Item::Phase { n, id, count, kept } => {
            let line = PhaseLine {
                n: *n,
                id: *id,
                count: *count,
                kept: *kept,
            };
            return after_phase(s, alloc, line);
        }
        Item::Bus { n, kind, id } => after_bus(s, *n, *kind, *id),
        Item::Flash { id } => after_flash(s, *id),
        Item::Irq { .. } => after_irq(s),
        Item::Done { id } | Item::Status { id, .. } => after_answer(s, *id),
        Item::Read { id } => after_read(s, *id),
        Item::Sector { .. } => after_sector(s, alloc),
        Item::Recover => after_recover(s, alloc),
        Item::Discard { n } => after_discard(s, *n),
        Item::Fault { id, .. } | Item::Refused { id, .. } => after_fault(s, *id),
        Item::Cut => after_cut(s),
        Item::Lost { id } => after_lost(s, alloc, *id),
        Item::On => return after_on(s, alloc),
        Item::Left { sector, value } => return after_left(s, alloc, *sector, value),
        Item::Off { end } => return after_off(s, alloc, *end),
    }
    Ok(())
}
