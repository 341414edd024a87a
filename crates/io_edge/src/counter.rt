// What the sources and sinks that fail by themselves count with.
ghost use Rattle.std.specs.Prelude.{◌↔◌, Contains, IsTrue};
ghost use Rattle.storage_model.specs.Count.{Later, RaisedByOne, Rose};
ghost use Rattle.io_edge.specs.Counter.{counted};

use crate::Failed;

// Counts a fault.
pub(crate) fn fail(faults: &mut u64) -> Failed
    ensures raised { RaisedByOne (counted faults.old) (counted faults.new) }
    ensures later { Later (counted faults.old) (counted faults.new) }
    ensures rose { Rose (counted faults.old) (counted faults.new) }
{
    *faults = faults.saturating_add(1);
    Failed
}

// Whether the call is one of those that fail.
pub(crate) fn is_listed(fails: &[u32], call: u64) -> bool
    ensures { IsTrue result ↔ Contains fails.now call }
{
    fails.iter().any(|fail| u64::from(*fail) == call)
}
