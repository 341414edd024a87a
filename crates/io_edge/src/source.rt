ghost use Rattle.std.specs.Prelude.{◌≡◌, ◌≤◌, List, ℕ, length, Option, IfOk, OnOk, OnErr};
ghost use Rattle.storage_model.specs.Count.{Count, Later, Rose};
ghost use Rattle.io_edge.specs.Source.{Fills};

use crate::Failed;

/// Where a text comes from.
pub trait Source {
    /// The bytes that are left, where the source tells them.
    ghost left: { Self → Option (List ℕ) };

    /// How often the source failed.
    ghost faults: { Self → Count };

    /// Moves the next bytes to the front of `buf` and answers their number. 0 with a `buf` that isn't empty is the end.
    fn fill(&mut self, buf: &mut [u8]) -> Result<usize, Failed>
        ensures within { IfOk result (λ n. n ≤ length buf.old) }
        ensures moved { Fills (left self.old) buf.new result (left self.new) }
        ensures faults { Later (faults self.old) (faults self.new) }
        ensures calm { OnOk result (faults self.new ≡ faults self.old) }
        ensures failed { OnErr result (Rose (faults self.old) (faults self.new)) };
}
