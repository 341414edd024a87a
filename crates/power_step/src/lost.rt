// The requests that are lost with the power.
ghost use Rattle.std.specs.Prelude.{◌≡◌, Err, IfErr};
ghost use Rattle.storage_model.specs.Count.{Later, Rose};
ghost use Rattle.storage_model.specs.declared.ends.Halt.TheVariants.{SinkFailed};
ghost use Rattle.cut_laws.specs.Lost.{above, lower, next_lost};
ghost use Rattle.power_step.specs.Cut.{LostWritten};

use drv_core::Driver;
use io_edge::Sink;
use storage_model::{Halt, Item};
use trace_print::print;

// Prints the issued requests, by number.
pub fn print_lost<K: Sink>(driver: &Driver, out: &mut K) -> Result<(), Halt>
    ensures lost { LostWritten K.took driver.now.requests.holders 0 out.old result out.new }
    ensures halt { IfErr result (λ halt. halt ≡ SinkFailed) }
    ensures faults { Later (K.faults out.old) (K.faults out.new) }
    ensures failed { result ≡ Err SinkFailed → Rose (K.faults out.old) (K.faults out.new) }
{
    let mut last = 0;
    while let Some(id) = next_issued(driver, last) {
        print(&Item::Lost { id }, out)?;
        last = id;
    }
    Ok(())
}

// The issued request with the lowest number above `last`.
fn next_issued(driver: &Driver, last: u32) -> Option<u32>
    ensures { result ≡ next_lost last driver.now.requests.holders }
{
    let _ = driver.plan();
    let mut next = None;
    for tag in 0..32u8 {
        next = lower(next, driver.holder(tag), last);
    }
    next
}

// The lower of two requests, of which the second counts only above `last`.
fn lower(next: Option<u32>, holder: Option<u32>, last: u32) -> Option<u32>
    ensures { result ≡ lower next (above last holder) }
{
    match (next, holder) {
        (_, None) => next,
        (_, Some(id)) if id <= last => next,
        (None, Some(id)) => Some(id),
        (Some(found), Some(id)) => Some(found.min(id)),
    }
}
