ghost use Rattle.std.specs.Prelude.{◌≡◌, ◌<◌, ◌≤◌, List, [], ◌++◌, ℕ, length, IfOk, OnOk, OnErr};
ghost use Rattle.storage_model.specs.Count.{Count, Later, Rose};
ghost use Rattle.io_edge.specs.Sink.{Puts};

use crate::Failed;

/// Where a text goes.
pub trait Sink {
    /// The bytes that were taken between two states of the sink, where it tells them.
    ghost took: { Self → List ℕ → Self → Type 0 };

    /// How often the sink failed.
    ghost faults: { Self → Count };

    /// Takes a prefix of the piece and answers its length, at least 1 where the piece isn't empty.
    fn put(&mut self, piece: &[u8]) -> Result<usize, Failed>
        ensures within { IfOk result (λ n. n ≤ length piece.now) }
        ensures progress { IfOk result (λ n. 0 < length piece.now → 0 < n) }
        ensures taken { Puts took self.old piece.now result self.new }
        ensures faults { Later (faults self.old) (faults self.new) }
        ensures calm { OnOk result (faults self.new ≡ faults self.old) }
        ensures failed { OnErr result (Rose (faults self.old) (faults self.new)) };

    /// Nothing happened, and nothing was taken.
    ghost took_nothing: { (out : Self) → took out [] out };

    /// What was taken first, and then what was taken next.
    ghost took_both: { (a b c : Self) (front back : List ℕ) → took a front b → took b back c → took a (front ++ back) c };
}
