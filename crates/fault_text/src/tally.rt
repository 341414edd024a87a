// What has been taken of a text.
ghost use Rattle.std.specs.Prelude.{◌≡◌, ◌+◌, ◌<◌, ◌≤◌, IfNone, IfSome};
ghost use Rattle.fault_text.specs.Tally.{Follows, IsWithin, nothing_taken, with_line};

use crate::line::FaultLine;

const MAX_LINES: u32 = 4096;

const MAX_LETTERS: usize = 65_536;

/// How many lines and letters there are so far, and the least number that the next line of a kind may have.
#[derive(Clone, Copy)]
pub struct Tally {
    pub lines: u32,
    pub letters: usize,
    pub bus: u64,
    pub programs: u64,
    pub fetches: u64,
    pub cuts: u64,
}

impl Tally {
    pub fn new() -> Self
        ensures { result ≡ nothing_taken }
    {
        Tally {
            lines: 0,
            letters: 0,
            bus: 0,
            programs: 0,
            fetches: 0,
            cuts: 0,
        }
    }

    /// With one line more, if it passes no limit and its number isn't too low.
    pub fn with(self, line: &FaultLine) -> Option<Self>
        requires { IsWithin self }
        ensures some { IfSome result (λ next. (self.lines < 4096) × Follows self line.now × (next ≡ with_line self line.now)) }
        ensures none { IfNone result (self.lines < 4096 → ¬ Follows self line.now) }
    {
        if self.lines >= MAX_LINES {
            return None;
        }
        let lines = self.lines + 1;
        match line {
            FaultLine::Ready { .. } => Some(Tally { lines, ..self }),
            FaultLine::Bus { n, .. } => {
                let bus = past(self.bus, *n)?;
                Some(Tally { lines, bus, ..self })
            }
            FaultLine::Program { n, .. } => {
                let programs = past(self.programs, *n)?;
                Some(Tally {
                    lines,
                    programs,
                    ..self
                })
            }
            FaultLine::Fetch { n } => {
                let fetches = past(self.fetches, *n)?;
                Some(Tally {
                    lines,
                    fetches,
                    ..self
                })
            }
            FaultLine::Cut { n } => {
                let cuts = past(self.cuts, *n)?;
                Some(Tally {
                    lines,
                    cuts,
                    ..self
                })
            }
            FaultLine::Turn { letters } => {
                let letters = more_letters(self.letters, letters.len())?;
                Some(Tally {
                    lines,
                    letters,
                    ..self
                })
            }
        }
    }
}

// The least number after `n`, if that is at least `least`.
fn past(least: u64, n: u32) -> Option<u64>
    ensures some { IfSome result (λ next. (least ≤ n) × (next ≡ n + 1)) }
    ensures none { IfNone result (n < least) }
{
    if u64::from(n) < least {
        return None;
    }
    Some(u64::from(n) + 1)
}

fn more_letters(letters: usize, more: usize) -> Option<usize>
    requires { letters ≤ 65536 }
    ensures some { IfSome result (λ all. (all ≤ 65536) × (all ≡ letters + more)) }
    ensures none { IfNone result (65536 < letters + more) }
{
    if more > MAX_LETTERS - letters {
        return None;
    }
    Some(letters + more)
}
