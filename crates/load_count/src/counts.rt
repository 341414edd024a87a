// The counts, and what a whole line adds to them.
ghost use Rattle.std.specs.Prelude.{◌≡◌};
ghost use Rattle.load_count.specs.Lines.{answered, ended, moved, none, told};

use crate::line::Line;
use storage_model::End;

/// How many lines of each kind there were: the answers `ok`, `data`, those of a fault or a refusal, `lost`, the phases and those of
/// them that were kept, each up to the last number of 64 bits; and the last line of an end.
#[derive(Clone, Copy, Debug, Drop)]
pub struct Counts {
    pub ok: u64,
    pub reads: u64,
    pub fault: u64,
    pub lost: u64,
    pub phases: u64,
    pub kept: u64,
    pub end: Option<End>,
}

impl Counts {
    /// Those of no line.
    pub fn new() -> Self
        ensures { result ≡ none }
    {
        Counts {
            ok: 0,
            reads: 0,
            fault: 0,
            lost: 0,
            phases: 0,
            kept: 0,
            end: None,
        }
    }

    /// A line came to its end.
    #[tactic(auto, unfolding(crate::specs::Lines::told))]
    pub fn tell(&mut self, line: Line)
        ensures { self.new ≡ told self.old line }
    {
        match line.first {
            b'0'..=b'9' => self.answer(line.second),
            b'p' => self.phase(line.words),
            b'o' => self.end(line.second),
            _ => {}
        }
    }

    // An answer, by the first letter of its second word.
    #[tactic(auto, unfolding(crate::specs::Lines::answered))]
    fn answer(&mut self, letter: u8)
        ensures { self.new ≡ answered self.old letter }
    {
        match letter {
            b'o' => self.ok = self.ok.saturating_add(1),
            b'd' => self.reads = self.reads.saturating_add(1),
            b'f' | b'r' => self.fault = self.fault.saturating_add(1),
            b'l' => self.lost = self.lost.saturating_add(1),
            _ => {}
        }
    }

    // A phase has four words, and where it was kept five; the other lines with its first letter have three.
    #[tactic(auto, unfolding(crate::specs::Lines::moved))]
    fn phase(&mut self, words: u8)
        ensures { self.new ≡ moved self.old words }
    {
        if words >= 4 {
            self.phases = self.phases.saturating_add(1);
        }
        if words >= 5 {
            self.kept = self.kept.saturating_add(1);
        }
    }

    // An end, by the first letter of its second word. The line of the power that is on again has none.
    #[tactic(auto, unfolding(crate::specs::Lines::ended))]
    fn end(&mut self, letter: u8)
        ensures { self.new ≡ ended self.old letter }
    {
        match letter {
            b'o' => self.end = Some(End::Good),
            b'f' => self.end = Some(End::Fault),
            b'd' => self.end = Some(End::Dead),
            b'i' => self.end = Some(End::Image),
            _ => {}
        }
    }
}
