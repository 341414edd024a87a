// Fault texts.
ghost use Rattle.std.specs.Prelude.{◌≡◌, ◌≤◌, ◌++◌, [], length, IfOk, IfErr, IfNone, IfSome, OnOk};
ghost use Rattle.storage_model.specs.declared.faults.Faults.{Faults};
ghost use Rattle.storage_model.specs.declared.ends.TextEnd.TheVariants.{NoMemory as OutOfMemory};
ghost use Rattle.fault_text.specs.declared.line.FaultLine.{FaultLine};
ghost use Rattle.storage_model.specs.Faults.{AreValid};
ghost use Rattle.fault_text.specs.Faults.{IsRefused, Means, faults_of};
ghost use Rattle.fault_text.specs.Tally.{IsNext, IsWithin, with_faults, with_line};

use crate::line::{FaultLine, read_line};
use crate::tally::Tally;
use std::alloc::Global;
use storage_model::{
    ArrayHit, ArrayHits, Faults, Hit, HitList, LetterList, NoMemory, TextEnd, WordList,
};
use text_words::split_once;

/// The faults that a text means, each list in the order of the text. `Bad` gives the first line, counted from 1, that is
/// of none of the forms, whose number doesn't rise among the lines of its kind, or by which the text has more than 4,096
/// lines or 65,536 letters. So no text of more than 16 MiB is read.
pub fn read_faults(alloc: Global, bytes: &[u8]) -> Result<Faults, TextEnd>
    ensures means { IfOk result (Means bytes.now) }
    ensures valid { IfOk result AreValid }
    ensures short { IfOk result (λ read. length bytes.now ≤ 16777216) }
    ensures bad { IfErr result (IsRefused bytes.now) }

    // The text that faults have is read as these faults.
    ensures again { (faults : Faults) → Means bytes.now faults → IfOk result (λ read. read ≡ faults) × IfErr result (λ end. end ≡ OutOfMemory) }
{
    let mut faults = no_faults(alloc);
    let mut tally = Tally::new();
    let mut rest = bytes;
    while !rest.is_empty() {
        let bad = TextEnd::Bad {
            line: tally.lines + 1,
        };
        let Some((text, after)) = split_once(rest, b'\n') else {
            return Err(bad);
        };
        let Some((line, counted)) = next_line(alloc, text, tally)? else {
            return Err(bad);
        };
        add(&mut faults, line)?;
        tally = counted;
        rest = after;
    }
    Ok(faults)
}

fn no_faults(alloc: Global) -> Faults
    ensures { result ≡ faults_of [] }
{
    Faults {
        ready: WordList::new(alloc),
        bus: HitList::new(alloc),
        array: ArrayHits::new(alloc),
        cuts: WordList::new(alloc),
        turns: LetterList::new(alloc),
    }
}

// The line of a text, and the counts with it, if it can follow.
fn next_line(
    alloc: Global,
    text: &[u8],
    tally: Tally,
) -> Result<Option<(FaultLine, Tally)>, NoMemory>
    requires { IsWithin tally }
    ensures { IfOk result (λ read. IfSome read (λ next. IsNext text.now tally next.0 × (next.1 ≡ with_line tally next.0)) × IfNone read ((line : FaultLine) → ¬ IsNext text.now tally line)) }
{
    let Some(line) = read_line(alloc, text)? else {
        return Ok(None);
    };
    match tally.with(&line) {
        Some(counted) => Ok(Some((line, counted))),
        None => Ok(None),
    }
}

// Adds what a line says to the faults so far.
fn add(faults: &mut Faults, line: FaultLine) -> Result<(), NoMemory>
    ensures { OnOk result (faults.new ≡ with_faults faults.old line) }
{
    match line {
        FaultLine::Ready { mask } => faults.ready.push(mask),
        FaultLine::Bus { n, kind } => faults.bus.push(Hit { n, kind }),
        FaultLine::Program { n, cut, mask } => faults.array.push(ArrayHit {
            fetch: false,
            n,
            cut,
            mask,
        }),
        FaultLine::Fetch { n } => faults.array.push(ArrayHit {
            fetch: true,
            n,
            cut: false,
            mask: 0,
        }),
        FaultLine::Cut { n } => faults.cuts.push(n),
        FaultLine::Turn { letters } => push_all(&mut faults.turns, &letters),
    }
}

fn push_all(list: &mut LetterList, letters: &LetterList) -> Result<(), NoMemory>
    ensures { OnOk result (list.new ≡ list.old ++ letters.now) }
{
    for letter in letters.as_slice() {
        list.push(*letter)?;
    }
    Ok(())
}
