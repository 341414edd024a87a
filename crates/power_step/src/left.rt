// What a loss of power left of the sectors.
ghost use Rattle.std.specs.Prelude.{◌≡◌, Err, OnOk, true};
ghost use Rattle.storage_model.specs.Count.{Later, Rose};
ghost use Rattle.storage_model.specs.declared.ends.Halt.TheVariants.{SinkFailed};
ghost use Rattle.card_store.specs.Store.{IsOpen, IsStore};
ghost use Rattle.power_step.specs.Cut.{LeftWritten, SectorWritten};

use array_edge::Array;
use card_core::Card;
use io_edge::Sink;
use storage_model::{Block, End, Halt, Item};
use trace_print::print;

// Prints what the card shows of these sectors.
pub fn print_left<A: Array, K: Sink>(
    sectors: &[u32],
    card: &mut Card,
    array: &mut A,
    out: &mut K,
) -> Result<(), Halt>
    requires open { IsOpen card.old.store (A.state array.old) }
    requires powered { (A.state array.old).powered ≡ true }
    ensures left { LeftWritten K.took sectors.now out.old card.old (A.state array.old) result out.new card.new (A.state array.new) }
    ensures store { OnOk result (IsStore card.new.store) }
    ensures faults { Later (K.faults out.old) (K.faults out.new) }
    ensures failed { result ≡ Err SinkFailed → Rose (K.faults out.old) (K.faults out.new) }
{
    let mut k = 0;
    while k < sectors.len() {
        print_sector(sectors[k], card, array, out)?;
        k += 1;
    }
    card.store().keeps_lines();
    Ok(())
}

// Prints what the card shows of a sector, or the end where it can't be read. The image that is open now may have fewer sectors
// than the one before, where the array was changed meanwhile: a sector beyond its end is passed.
fn print_sector<A: Array, K: Sink>(
    sector: u32,
    card: &mut Card,
    array: &mut A,
    out: &mut K,
) -> Result<(), Halt>
    requires open { IsOpen card.old.store (A.state array.old) }
    requires powered { (A.state array.old).powered ≡ true }
    ensures sector { SectorWritten K.took sector out.old card.old (A.state array.old) result out.new card.new (A.state array.new) }
    ensures faults { Later (K.faults out.old) (K.faults out.new) }
    ensures failed { result ≡ Err SinkFailed → Rose (K.faults out.old) (K.faults out.new) }
{
    if sector >= card.store().sectors() {
        return Ok(());
    }
    let mut value = Block([0; 512]);
    match card.read(sector, &mut value, array) {
        Ok(()) => print(&Item::Left { sector, value }, out),
        Err(_) => {
            print(&Item::Off { end: End::Fault }, out)?;
            Err(Halt::OpenFault)
        }
    }
}
