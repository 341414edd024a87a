// The sink.
ghost use Rattle.std.specs.Prelude.{◌≡◌, ◌<◌, ◌≤◌, List, fold, false, length, IfOk, IsOk, OnOk, OnErr};
ghost use Rattle.storage_model.specs.Count.{Later, Rose};
ghost use Rattle.storage_model.specs.declared.trace.Item.{Item};
ghost use Rattle.io_edge.specs.Sink.{Puts};
ghost use Rattle.trace_text.specs.Trace.{items_text};
ghost use Rattle.load_count.specs.Counts.{counts};
ghost use Rattle.load_count.specs.Lines.{Took, fresh, never, step};
ghost use Rattle.std.proofs.Common.{◌∙◌, ap, refl, sym};
ghost use Rattle.std.proofs.lemmas.List.Sums.{fold-append};

use crate::counts::Counts;
use crate::line::Line;
use io_edge::{Failed, Sink};

/// Takes every piece whole and never fails. What it took is the text of a trace, of which it keeps the counts, and of the line
/// under way a few letters.
#[derive(Debug, Drop)]
pub struct CountingSink {
    pub(crate) counts: Counts,
    pub(crate) line: Line,
}

impl CountingSink {
    /// A sink that took nothing.
    pub fn new() -> Self
        ensures { result ≡ fresh }
    {
        CountingSink {
            counts: Counts::new(),
            line: Line::new(),
        }
    }

    /// The counts of the lines that it took whole.
    pub fn counts(&self) -> Counts
        ensures { (lines : List Item) → Took fresh (items_text lines) self.now → result ≡ counts lines }
    {
        self.counts
    }

    // One byte more.
    #[tactic(auto, unfolding(crate::specs::Lines::step))]
    fn take(&mut self, byte: u8)
        ensures { self.new ≡ step self.old byte }
    {
        if byte == b'\n' {
            self.counts.tell(self.line);
            self.line = Line::new();
        } else {
            self.line.see(byte);
        }
    }
}

impl Sink for CountingSink {
    ghost took = { Took };

    ghost faults = { λ _. never };

    fn put(&mut self, piece: &[u8]) -> Result<usize, Failed>
        ensures within { IfOk result (λ n. n ≤ length piece.now) }
        ensures progress { IfOk result (λ n. 0 < length piece.now → 0 < n) }
        ensures taken { Puts Took self.old piece.now result self.new }
        ensures faults { Later never never }
        ensures calm { OnOk result (never ≡ never) }
        ensures failed { OnErr result (Rose never never) }
        ensures all { IsOk result }
    {
        for byte in piece {
            self.take(*byte);
        }
        Ok(piece.len())
    }

    ghost took_nothing = { λ _. refl };

    ghost took_both = { λ a b c front back first then. then ∙ ap (λ sink. fold step sink back) first ∙ sym (fold-append step a front back) };
}
