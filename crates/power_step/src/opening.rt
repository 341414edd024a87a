// The openings behind a cut.
ghost use Rattle.std.specs.Prelude.{◌≡◌, ◌∷◌, [], Err};
ghost use Rattle.storage_model.specs.Count.{Later, Rose};
ghost use Rattle.storage_model.specs.declared.ends.Halt.TheVariants.{SinkFailed};
ghost use Rattle.trace_print.specs.Prints.{Takes};
ghost use Rattle.power_step.specs.Cut.{HaltsFor, OpensAgain, failed_line};

use array_edge::Array;
use card_core::Card;
use intent_store::StartEnd;
use io_edge::Sink;
use storage_model::{End, Halt, Item};
use trace_print::print;

/// How many openings in a row may be cut.
const MOST_OPENINGS: u32 = 8;

// Opens the image again: each opening that is cut prints one more.
pub fn open_again<A: Array, K: Sink>(
    card: &mut Card,
    array: &mut A,
    out: &mut K,
) -> Result<(), Halt>
    ensures opens { OpensAgain K.took out.old card.old (A.state array.old) result out.new card.new (A.state array.new) }
    ensures faults { Later (K.faults out.old) (K.faults out.new) }
    ensures failed { result ≡ Err SinkFailed → Rose (K.faults out.old) (K.faults out.new) }
{
    let mut cuts = 0;
    while cuts < MOST_OPENINGS {
        match card.boot(array) {
            Ok(()) => return Ok(()),
            Err(why) => print_failed(why, out)?,
        }
        cuts += 1;
    }
    print(&Item::Off { end: End::Dead }, out)?;
    Err(Halt::PowerGone)
}

// The line of an opening that failed. It is an end, but after a cut.
fn print_failed<K: Sink>(why: StartEnd, out: &mut K) -> Result<(), Halt>
    ensures taken { Takes K.took out.old (failed_line why ∷ []) result out.new }
    ensures halt { HaltsFor why result }
    ensures faults { Later (K.faults out.old) (K.faults out.new) }
    ensures failed { result ≡ Err SinkFailed → Rose (K.faults out.old) (K.faults out.new) }
{
    match why {
        StartEnd::PowerLost => print(&Item::Cut, out),
        StartEnd::Flash => {
            print(&Item::Off { end: End::Fault }, out)?;
            Err(Halt::OpenFault)
        }
        StartEnd::BadImage => {
            print(&Item::Off { end: End::Image }, out)?;
            Err(Halt::BadImage)
        }
    }
}
