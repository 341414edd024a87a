// The calls over the bus, with card, array and script apart.
ghost use Rattle.std.specs.Prelude.{◌≡◌, false, Err, IfOk, IfSome, Some};
ghost use Rattle.bus_link.specs.declared.link.LinkEnd.TheVariants.{Bus};
ghost use Rattle.bus_link.specs.Script.{bus_count, struck};
ghost use Rattle.storage_model.specs.Count.{Later, Rose};
ghost use Rattle.storage_model.specs.declared.faults.BusKind.TheVariants.{Late};
ghost use Rattle.bus_link.specs.Link.{LinkEnds, TellsFlash, is_poll};
ghost use Rattle.card_link.specs.Behind.{Fits, behind, link_state};
ghost use Rattle.card_link.specs.Made.{Closes, Exchanges, Gives, Takes, after_block, bad_block, block_seen, choice_of, heard};

use array_edge::Array;
use bus_link::{LinkEnd, ScriptLink};
use card_core::{BlockEnd, Card, Dark};
use cmd_words::Command;
use storage_model::{Block, BusKind};

pub fn exchange<A: Array>(
    card: &mut Card,
    array: &mut A,
    script: &mut ScriptLink,
    command: &Command,
) -> Result<u32, LinkEnd>
    requires fits { Fits (behind card.old (A.state array.old) script.old) }
    ensures fits { Fits (behind card.new (A.state array.new) script.new) }
    ensures made { Exchanges command.now (behind card.old (A.state array.old) script.old) (behind card.new (A.state array.new) script.new) result }
    ensures ends { LinkEnds (link_state (behind card.old (A.state array.old) script.old)) (link_state (behind card.new (A.state array.new) script.new)) result }
    ensures flash { is_poll command.now ≡ false → IfOk result (TellsFlash (link_state (behind card.old (A.state array.old) script.old)) (link_state (behind card.new (A.state array.new) script.new))) }
{
    let hit = script.arm(command, card.blocks_of(command));
    if let Some(BusKind::Lost) = hit {
        return Err(strike(script, BusKind::Lost));
    }
    let choice = choice_of(script, command);
    let Ok(word) = card.exchange(command, choice, array) else {
        return Err(LinkEnd::Dark);
    };
    if let Some(BusKind::NoResp) = hit {
        return Err(strike(script, BusKind::NoResp));
    }
    Ok(word)
}

// The tasks that the card makes ready, where the command is a poll.
fn choice_of(script: &mut ScriptLink, command: &Command) -> u32
    ensures choice { result ≡ choice_of script.old command.now }
    ensures after { script.new ≡ heard script.old command.now }
{
    match command {
        Command::Status { queue: true, .. } => script.choice(),
        _ => 0,
    }
}

// Counts the fault of the last command.
fn strike(script: &mut ScriptLink, kind: BusKind) -> LinkEnd
    requires { script.old.hit ≡ Some kind }
    ensures struck { script.new ≡ struck script.old }
    ensures rose { Rose (bus_count script.old) (bus_count script.new) }
    ensures later { Later (bus_count script.old) (bus_count script.new) }
    ensures end { result ≡ Bus kind }
{
    script.strike();
    LinkEnd::Bus(kind)
}

pub fn give<A: Array>(
    card: &mut Card,
    array: &mut A,
    script: &mut ScriptLink,
    block: &Block,
) -> Result<(), LinkEnd>
    requires fits { Fits (behind card.old (A.state array.old) script.old) }
    ensures fits { Fits (behind card.new (A.state array.new) script.new) }
    ensures made { Gives block.now (behind card.old (A.state array.old) script.old) (behind card.new (A.state array.new) script.new) result }
    ensures ends { LinkEnds (link_state (behind card.old (A.state array.old) script.old)) (link_state (behind card.new (A.state array.new) script.new)) result }
{
    if let Some(kind) = bad_block(card, script) {
        return Err(strike(script, kind));
    }
    end_of_block(card.block_in(block, array), script)
}

pub fn take<A: Array>(
    card: &mut Card,
    array: &mut A,
    script: &mut ScriptLink,
    block: &mut Block,
) -> Result<(), LinkEnd>
    requires fits { Fits (behind card.old (A.state array.old) script.old) }
    ensures fits { Fits (behind card.new (A.state array.new) script.new) }
    ensures made { Takes block.new (behind card.old (A.state array.old) script.old) (behind card.new (A.state array.new) script.new) result }
    ensures ends { LinkEnds (link_state (behind card.old (A.state array.old) script.old)) (link_state (behind card.new (A.state array.new) script.new)) result }
{
    if let Some(kind) = bad_block(card, script) {
        return Err(strike(script, kind));
    }
    end_of_block(card.block_out(block, array), script)
}

// The fault of the data, if it comes with the next block of the open phase.
fn bad_block(card: &Card, script: &ScriptLink) -> Option<BusKind>
    ensures value { result ≡ bad_block script.now card.now.phase }
    ensures hit { IfSome result (λ kind. script.now.hit ≡ Some kind) }
{
    let Some(BusKind::Bad(block)) = script.hit() else {
        return None;
    };
    let phase = card.phase()?;
    if u32::from(block) == u32::from(phase.moved) + 1 {
        Some(BusKind::Bad(block))
    } else {
        None
    }
}

// What the host sees of the end of a block.
fn end_of_block(end: Result<(), BlockEnd>, script: &mut ScriptLink) -> Result<(), LinkEnd>
    ensures seen { result ≡ block_seen script.old.hit end }
    ensures after { script.new ≡ after_block script.old.hit end script.old }
    ensures later { Later (bus_count script.old) (bus_count script.new) }
    ensures rose { result ≡ Err (Bus Late) → Rose (bus_count script.old) (bus_count script.new) }
{
    match end {
        Ok(()) => Ok(()),
        Err(BlockEnd::Dark) => Err(LinkEnd::Dark),
        Err(BlockEnd::Status(word)) => {
            if let Some(BusKind::Late) = script.hit() {
                return Err(strike(script, BusKind::Late));
            }
            Err(LinkEnd::Status(word))
        }
    }
}

pub fn close<A: Array>(
    card: &mut Card,
    array: &mut A,
    script: &mut ScriptLink,
) -> Result<u32, LinkEnd>
    requires fits { Fits (behind card.old (A.state array.old) script.old) }
    ensures fits { Fits (behind card.new (A.state array.new) script.new) }
    ensures made { Closes (behind card.old (A.state array.old) script.old) (behind card.new (A.state array.new) script.new) result }
    ensures ends { LinkEnds (link_state (behind card.old (A.state array.old) script.old)) (link_state (behind card.new (A.state array.new) script.new)) result }
    ensures flash { IfOk result (TellsFlash (link_state (behind card.old (A.state array.old) script.old)) (link_state (behind card.new (A.state array.new) script.new))) }
{
    let Ok(word) = card.finish(array) else {
        return Err(LinkEnd::Dark);
    };
    if let Some(BusKind::Late) = script.hit() {
        return Err(strike(script, BusKind::Late));
    }
    Ok(word)
}
