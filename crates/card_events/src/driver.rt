// An event of the host driver over the bus to the card.
ghost use Rattle.std.specs.Prelude.{◌≡◌};
ghost use Rattle.card_link.specs.Behind.{Fits, behind, link_state};
ghost use Rattle.card_link.specs.Made.{CardMade};
ghost use Rattle.drv_core.specs.Event.{Event, step_of};
ghost use Rattle.drv_core.specs.declared.act.Act.TheVariants.{Step as Stepped};
ghost use Rattle.drv_core.specs.State.{layout_of};
ghost use Rattle.drv_jobs.specs.Sound.{IsSound};
ghost use Rattle.drv_recover.specs.Ends.{EventEnds};
ghost use Rattle.drv_recover.specs.Recovery.{IsAt, IsOver};
ghost use Rattle.drv_recover.specs.declared.recovery.Step.TheVariants.{Over};
ghost use Rattle.drv_ring.specs.Layout.{HasLayout};

use array_edge::Array;
use bus_link::{Cause, ScriptLink};
use card_core::Card;
use card_link::CardLink;
use cq_regs::Regs;
use drv_core::{Act, Driver};
use host_mem::HostMem;

/// One event of the driver over the card. `cause` is why the engine stopped.
pub fn driver_event<A: Array>(
    driver: &mut Driver,
    regs: &mut Regs,
    mem: &mut HostMem,
    cause: Option<Cause>,
    card: &mut Card,
    script: &mut ScriptLink,
    array: &mut A,
) -> Act
    requires fits { Fits (behind card.old (A.state array.old) script.old) }
    requires layout { HasLayout mem.old (layout_of driver.old.requests.plan) }
    ensures event { Event CardMade (record { driver = driver.old; regs = regs.old; memory = mem.old; link = behind card.old (A.state array.old) script.old }) (record { driver = driver.new; regs = regs.new; memory = mem.new; link = behind card.new (A.state array.new) script.new }) cause result }
    ensures fits { Fits (behind card.new (A.state array.new) script.new) }
    ensures ends { EventEnds (link_state (behind card.old (A.state array.old) script.old)) (link_state (behind card.new (A.state array.new) script.new)) (step_of result) }
    ensures plan { driver.new.requests.plan ≡ driver.old.requests.plan }
    ensures sound { IsSound driver.new.requests }
    ensures layout { HasLayout mem.new (layout_of driver.new.requests.plan) }
    ensures at { IsAt driver.old.recovery regs.old → IsAt driver.new.recovery regs.new }
    ensures over { IsAt driver.old.recovery regs.old → result ≡ Stepped Over → IsOver regs.new }
{
    let mut link = CardLink {
        card,
        array,
        link: script,
    };
    driver_over(driver, regs, mem, cause, &mut link)
}

// One event over a link to a card.
fn driver_over<A: Array>(
    driver: &mut Driver,
    regs: &mut Regs,
    mem: &mut HostMem,
    cause: Option<Cause>,
    link: &mut CardLink<A>,
) -> Act
    requires fits { Fits (behind link.old.card.now (A.state link.old.array.now) link.old.link.now) }
    requires layout { HasLayout mem.old (layout_of driver.old.requests.plan) }
    ensures event { Event CardMade (record { driver = driver.old; regs = regs.old; memory = mem.old; link = behind link.old.card.now (A.state link.old.array.now) link.old.link.now }) (record { driver = driver.new; regs = regs.new; memory = mem.new; link = behind link.new.card.now (A.state link.new.array.now) link.new.link.now }) cause result }
    ensures fits { Fits (behind link.new.card.now (A.state link.new.array.now) link.new.link.now) }
    ensures ends { EventEnds (link_state (behind link.old.card.now (A.state link.old.array.now) link.old.link.now)) (link_state (behind link.new.card.now (A.state link.new.array.now) link.new.link.now)) (step_of result) }
    ensures plan { driver.new.requests.plan ≡ driver.old.requests.plan }
    ensures sound { IsSound driver.new.requests }
    ensures layout { HasLayout mem.new (layout_of driver.new.requests.plan) }
    ensures at { IsAt driver.old.recovery regs.old → IsAt driver.new.recovery regs.new }
    ensures over { IsAt driver.old.recovery regs.old → result ≡ Stepped Over → IsOver regs.new }
    ensures card { link.new.card.ghost_name ≡ link.old.card.ghost_name }
    ensures array { link.new.array.ghost_name ≡ link.old.array.ghost_name }
    ensures script { link.new.link.ghost_name ≡ link.old.link.ghost_name }
{
    driver.event(regs, mem, cause, link)
}
