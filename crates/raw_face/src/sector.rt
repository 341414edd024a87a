// The card's sectors, its queue and its cache, without the engine.
ghost use Rattle.std.specs.Prelude.{◌≡◌, ◌≢◌, ◌≤◌, Some, true, OnOk};
ghost use Rattle.array_edge.specs.Array.{ArrayState};
ghost use Rattle.card_store.specs.Store.{HasSector, IsOpen};
ghost use Rattle.raw_face.specs.Output.{HasCauses};
ghost use Rattle.storage_model.specs.declared.trace.End.TheVariants.{Dead};
ghost use Rattle.raw_face.specs.Sector.{HasFlushed, HasShown, IsDiscarded, IsShown, sector_output};
ghost use Rattle.raw_face.specs.Reply.{output_of};

use crate::reply::Reply;
use array_edge::Array;
use card_core::{Card, Dark};
use cmd_words::Command;
use intent_store::StoreEnd;
use raw_lines::RawLine;
use storage_model::{Block, End};

/// CMD48 of the whole queue (JESD84-B51, section 6.6.39).
const DISCARD: Command = Command::Manage {
    whole: true,
    task: 0,
};

/// Shows a sector as a read would see it.
pub fn show<A: Array>(card: &mut Card, sector: u32, array: &mut A) -> Reply
    requires open { IsOpen card.old.store (A.state array.old) }
    requires powered { (A.state array.old).powered ≡ true }
    ensures open { IsOpen card.new.store (A.state array.new) }
    ensures on { (output_of result).end ≢ Some Dead → (A.state array.new).powered ≡ true }
    ensures causes { HasCauses (A.state array.old) (A.state array.new) (output_of result) }
    ensures shown { IsShown sector card.old (A.state array.old) (output_of result) card.new (A.state array.new) }
{
    if sector >= card.store().sectors() {
        return Reply::of(RawLine::Outside);
    }
    read_sector(card, sector, array)
}

// Shows a sector of the card.
fn read_sector<A: Array>(card: &mut Card, sector: u32, array: &mut A) -> Reply
    requires open { IsOpen card.old.store (A.state array.old) }
    requires powered { (A.state array.old).powered ≡ true }
    requires sector { HasSector card.old.store sector }
    ensures open { IsOpen card.new.store (A.state array.new) }
    ensures on { (output_of result).end ≢ Some Dead → (A.state array.new).powered ≡ true }
    ensures causes { HasCauses (A.state array.old) (A.state array.new) (output_of result) }
    ensures shown { HasShown sector card.old (A.state array.old) (output_of result) card.new (A.state array.new) }
{
    let mut value = Block([0; 512]);
    let end = card.read(sector, &mut value, array);
    sector_reply(value, end)
}

// What shows a sector, by how its read ended.
fn sector_reply(value: Block, end: Result<(), StoreEnd>) -> Reply
    ensures { output_of result ≡ sector_output value end }
{
    match end {
        Ok(()) => Reply::of(RawLine::Sector { value }),
        Err(StoreEnd::Flash) => Reply::of(RawLine::Unread),
        Err(StoreEnd::PowerLost) => Reply::ending(End::Dead),
    }
}

/// Discards the whole queue of the card.
pub fn discard<A: Array>(card: &mut Card, array: &mut A) -> Reply
    requires open { IsOpen card.old.store (A.state array.old) }
    requires powered { (A.state array.old).powered ≡ true }
    ensures open { IsOpen card.new.store (A.state array.new) }
    ensures on { (output_of result).end ≢ Some Dead → (A.state array.new).powered ≡ true }
    ensures causes { HasCauses (A.state array.old) (A.state array.new) (output_of result) }
    ensures discarded { IsDiscarded card.old (A.state array.old) (output_of result) card.new (A.state array.new) }
{
    match card.exchange(&DISCARD, 0, array) {
        Ok(_) => Reply::none(),
        Err(Dark) => Reply::ending(End::Dead),
    }
}

/// Flushes the cache of the card, and ends the script.
pub fn flush<A: Array>(card: &mut Card, array: &mut A) -> Reply
    requires open { IsOpen card.old.store (A.state array.old) }
    requires powered { (A.state array.old).powered ≡ true }
    ensures open { IsOpen card.new.store (A.state array.new) }
    ensures on { (output_of result).end ≢ Some Dead → (A.state array.new).powered ≡ true }
    ensures causes { HasCauses (A.state array.old) (A.state array.new) (output_of result) }
    ensures flushed { HasFlushed card.old (A.state array.old) (output_of result) card.new (A.state array.new) }
{
    match card.flush(array) {
        Ok(()) => Reply::ending(End::Good),
        Err(StoreEnd::Flash) => Reply::ending(End::Fault),
        Err(StoreEnd::PowerLost) => Reply::ending(End::Dead),
    }
}
