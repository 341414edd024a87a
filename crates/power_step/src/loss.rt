// The loss of power.
ghost use Rattle.std.specs.Prelude.{◌≡◌, Err, OnOk, is_some};
ghost use Rattle.storage_model.specs.Count.{Later, Rose};
ghost use Rattle.storage_model.specs.declared.ends.Halt.TheVariants.{SinkFailed};
ghost use Rattle.card_link.specs.Behind.{Fits};
ghost use Rattle.dark_laws.specs.Anew.{Outlasts, set_anew};
ghost use Rattle.power_step.specs.Cut.{PowerReturns};
ghost use Rattle.power_step.specs.Loses.{IsBackOn, Loses};
ghost use Rattle.world_state.specs.Path.{behind_path};

use crate::Pending;
use crate::lost::print_lost;
use crate::opening::open_again;
use array_edge::Array;
use card_core::Card;
use cq_regs::Regs;
use io_edge::Sink;
use storage_model::{Halt, Item};
use trace_print::print;
use world_state::Path;

/// The power is cut, and comes again: the cut's line, those of the lost requests, the openings, what is left.
///
/// # Errors
///
/// `OpenFault` where the array failed, `PowerGone` where 8 openings in a row were cut, `BadImage` where the pages are no
/// image, each with its last line; and `SinkFailed` where the sink failed.
pub fn cut<A: Array, K: Sink>(
    path: &mut Path,
    pending: &mut Pending,
    array: &mut A,
    out: &mut K,
) -> Result<(), Halt>
    requires outlasts { Outlasts path.old }
    requires fits { Fits (behind_path path.old (A.state array.old)) }
    ensures loses { Loses K.took path.old (A.state array.old) out.old result path.new (A.state array.new) out.new }
    ensures back { OnOk result (IsBackOn path.old (A.state array.old) path.new (A.state array.new)) }
    ensures told { is_some (A.state array.new).told ≡ is_some (A.state array.old).told }
    ensures faults { Later (K.faults out.old) (K.faults out.new) }
    ensures failed { result ≡ Err SinkFailed → Rose (K.faults out.old) (K.faults out.new) }
{
    print(&Item::Cut, out)?;
    print_lost(&path.driver, out)?;
    pending.note(path.card.store());
    begin_anew(path);
    come_back(pending, &mut path.card, array, out)
}

// Opens the image again, and prints that the power is on, and what is left of the sectors that had a put pending.
fn come_back<A: Array, K: Sink>(
    pending: &Pending,
    card: &mut Card,
    array: &mut A,
    out: &mut K,
) -> Result<(), Halt>
    ensures returns { PowerReturns K.took pending.now out.old card.old (A.state array.old) result out.new card.new (A.state array.new) }
    ensures faults { Later (K.faults out.old) (K.faults out.new) }
    ensures failed { result ≡ Err SinkFailed → Rose (K.faults out.old) (K.faults out.new) }
{
    open_again(card, array, out)?;
    print(&Item::On, out)?;
    pending.print(card, array, out)
}

// The driver forgets the issued requests and sets the registers up, and the engine holds nothing.
fn begin_anew(path: &mut Path)
    ensures { path.new ≡ set_anew path.old path.old.card path.old.script }
{
    path.driver.forget();
    path.engine.reset();
    path.regs = Regs::new();
    path.driver.set_up(&mut path.regs);
}
