// Which `cut` lines were used, and the first that wasn't.
ghost use Rattle.std.specs.Prelude.{◌≡◌, ◌==◌, ◌<◌, ◌&&◌, ℕ, false, get_or, length, map, nat_le, not, position, replicate, slice_set, true, zip, IfOk, IsTrue};
ghost use Rattle.std.specs.List.{list_any};
ghost use Rattle.storage_model.specs.Faults.{AreRising};

use crate::{Flags, Script};
use std::alloc::Global;
use std::marker::Model;
use storage_model::NoMemory;

/// Of each `cut` line, whether it was used.
#[derive(Drop)]
pub struct UsedLines {
    unused: Flags,
}

impl Model for UsedLines {
    ghost use Rattle.std.specs.Prelude.{Bool, List, map, not};

    ghost Value = { List Bool };

    ghost view = { λ it. map not it.unused };
}

impl UsedLines {
    /// None of so many lines was used.
    #[tactic(auto, using(crate::proofs::UnusedLines::all_unused))]
    pub fn none_used(alloc: Global, count: usize) -> Result<Self, NoMemory>
        ensures { IfOk result (λ lines. lines ≡ replicate count false) }
    {
        let unused = Flags::all_up(alloc, count)?;
        Ok(UsedLines { unused })
    }

    /// A line is used.
    #[tactic(auto, using(crate::proofs::UnusedLines::line_used))]
    pub fn use_line(&mut self, place: usize)
        ensures { self.new ≡ slice_set self.old place true }
    {
        self.unused.lower(place);
    }

    /// The first line that isn't used and whose number is at most `most`.
    pub fn first_up_to(&self, script: &Script, most: u32) -> Option<usize>
        ensures { result ≡ position (λ line. not line.1 && nat_le line.0 most) (zip script.now.cuts self.now) }
    {
        let cuts = script.faults().cuts.as_slice();
        let from = self.unused.start();
        line_up_to(cuts, self.unused.as_slice(), from, script.is_rising(), most)
    }

    /// Whether a line with this number isn't used.
    pub fn has_unused(&self, script: &Script, number: u32) -> bool
        ensures { result ≡ list_any (λ line. not line.1 && (line.0 == number)) (zip script.now.cuts self.now) }
    {
        let cuts = script.faults().cuts.as_slice();
        let from = self.unused.start();
        has_line(
            cuts,
            self.unused.as_slice(),
            from,
            script.is_rising(),
            number,
        )
    }
}

fn line_up_to(lines: &[u32], unused: &[bool], from: usize, rising: bool, most: u32) -> Option<usize>
    requires before { (k : ℕ) → k < from → get_or unused.now k false ≡ false }
    requires rising { IsTrue rising → AreRising lines.now }
    ensures { result ≡ position (λ line. not line.1 && nat_le line.0 most) (zip lines.now (map not unused.now)) }
{
    let mut place = from;
    while place < lines.len() && place < unused.len() {
        if lines[place] <= most {
            if unused[place] {
                return Some(place);
            }
        } else if rising {
            return None;
        }
        place += 1;
    }
    None
}

fn has_line(lines: &[u32], unused: &[bool], from: usize, rising: bool, number: u32) -> bool
    requires before { (k : ℕ) → k < from → get_or unused.now k false ≡ false }
    requires rising { IsTrue rising → AreRising lines.now }
    ensures { result ≡ list_any (λ line. not line.1 && (line.0 == number)) (zip lines.now (map not unused.now)) }
{
    let mut place = from;
    while place < lines.len() && place < unused.len() {
        if lines[place] == number {
            if unused[place] {
                return true;
            }
        } else if rising && number < lines[place] {
            return false;
        }
        place += 1;
    }
    false
}
