// The words of the program, and the command that they call.
ghost use Rattle.std.specs.Prelude.{◌≡◌, ◌+◌, ◌^◌, ◌<◌, ◌≤◌, decimal, drop, false, ℕ, [], List, Option, All, IfSome, IfNone, IsTrue, ◌↔◌, map, string_bytes, vec_len};
ghost use Rattle.cqmmc_top.specs.declared.command.Command.{Command as CommandOf};
ghost use Rattle.cqmmc_top.specs.declared.command.Command.TheVariants.{Load as LoadOf, New as NewOf};
ghost use Rattle.cqmmc_top.specs.Command.{Answers, IsCall, IsCommand, IsLoad, IsMakeable, IsNew, IsRaw, IsRun, ListAnswers, MakeAnswers, RunAnswers, hands_back, reads_first, reads_second};
ghost use Rattle.cqmmc_top.specs.Refusal.{Says};

use crate::listing::put_csd;
use crate::load::load;
use crate::make::make_image;
use crate::opening::open;
use crate::prepare::prepare;
use crate::raw::run_script;
use crate::refusal::{Refusal, put_numbered};
use crate::run::serve;
use array_edge::Array;
use ext_csd::ExtCsd;
use io_edge::{Sink, Source};
use std::alloc::Global;
use text_words::read_decimal;
use world::World;

/// A command with its words.
#[derive(Clone, Copy, Debug, PartialEq, Eq)]
pub enum Command {
    /// `run IMAGE REQUESTS FAULTS`
    Run,
    /// `extcsd IMAGE`
    ExtCsd,
    /// `new IMAGE SECTORS`, of 1 to 65,536 sectors
    New { sectors: u32 },
    /// `raw IMAGE SCRIPT`
    Raw,
    /// `load IMAGE N`, N from 0 to 4,294,967,295
    Load { seed: u32 },
}

/// How many pages `new` makes: 8 and one for each sector. None comes exactly where the words are no form of `new`.
pub fn new_pages(words: &[String]) -> Option<u32>
    ensures some { IfSome result (λ pages. (sectors : ℕ) × IsNew sectors (map string_bytes words.now) × (pages ≡ 8 + sectors)) }
    ensures none { IfNone result ((sectors : ℕ) → IsNew sectors (map string_bytes words.now) → ⊥) }
{
    match command_of(words) {
        Some(Command::New { sectors }) => Some(8 + sectors),
        Some(Command::Run) => None,
        Some(Command::ExtCsd) => None,
        Some(Command::Raw) => None,
        Some(Command::Load { .. }) => None,
        None => None,
    }
}

/// The words that name the command's texts: those behind the image, of `run` and `raw` alone.
pub fn text_words(words: &[String]) -> &[String]
    ensures run { IsRun (map string_bytes words.now) → result.now ≡ drop 2 words.now }
    ensures raw { IsRaw (map string_bytes words.now) → result.now ≡ drop 2 words.now }
    ensures none { (IsRun (map string_bytes words.now) → ⊥) → (IsRaw (map string_bytes words.now) → ⊥) → result.now ≡ [] }
{
    match words {
        [command, _, _, _] if is_word(command, "run") => &words[2..],
        [command, _, _] if is_word(command, "raw") => &words[2..],
        _ => &[],
    }
}

/// Runs the command that the words call, over an array, three sources for its texts and a sink for its lines, and gives back the
/// exit status, the array, and the run of `run` or `load` where it ended well. The first text is read for `run` and `raw` alone, the second
/// for `run` alone.
pub fn run_command<A: Array, S1: Source, S2: Source, S3: Source, K: Sink>(
    alloc: Global,
    words: &[String],
    array: A,
    first: &mut S1,
    second: &mut S2,
    third: &mut S3,
    out: &mut K,
) -> (u8, A, Option<World>)
    ensures answers { Answers K.took K.faults (map string_bytes words.now) (S1.left first.old) (S1.faults first.old) (S1.faults first.new) (S2.left second.old) (S2.faults second.old) (S2.faults second.new) (A.state array) (A.state result.1) out.old result.0 result.2 out.new }
    ensures world { (IsRun (map string_bytes words.now) → ⊥) → ((n : ℕ) → IsLoad n (map string_bytes words.now) → ⊥) → result.2 ≡ None }
    ensures first { (IsRun (map string_bytes words.now) → ⊥) → (IsRaw (map string_bytes words.now) → ⊥) → first.new ≡ first.old }
    ensures second { (IsRun (map string_bytes words.now) → ⊥) → second.new ≡ second.old }
    ensures third { third.new ≡ third.old }
{
    let _ = third;
    carry_out(alloc, command_of(words), first, second, array, out)
}

// Carries a command out, or tells the usage where there is none.
fn carry_out<A: Array, S1: Source, S2: Source, K: Sink>(
    alloc: Global,
    command: Option<Command>,
    first: &mut S1,
    second: &mut S2,
    mut array: A,
    out: &mut K,
) -> (u8, A, Option<World>)
    requires makeable { IfSome command IsMakeable }
    ensures answers { (words : List (List ℕ)) → IsCall command words → Answers K.took K.faults words (S1.left first.old) (S1.faults first.old) (S1.faults first.new) (S2.left second.old) (S2.faults second.old) (S2.faults second.new) (A.state array) (A.state result.1) out.old result.0 result.2 out.new }
    ensures world { hands_back command ≡ false → result.2 ≡ None }
    ensures first { reads_first command ≡ false → first.new ≡ first.old }
    ensures second { reads_second command ≡ false → second.new ≡ second.old }
{
    match command {
        None => (refuse(Refusal::Usage, out), array, None),
        Some(Command::Run) => run(alloc, first, second, array, out),
        Some(Command::ExtCsd) => (list(&mut array, out), array, None),
        Some(Command::New { sectors }) => (make(sectors, &mut array, out), array, None),
        Some(Command::Raw) => (run_script(alloc, first, &mut array, out), array, None),
        Some(Command::Load { seed }) => load(alloc, seed, array, out),
    }
}

fn run<A: Array, S1: Source, S2: Source, K: Sink>(
    alloc: Global,
    first: &mut S1,
    second: &mut S2,
    array: A,
    out: &mut K,
) -> (u8, A, Option<World>)
    ensures { RunAnswers K.took K.faults (S1.left first.old) (S1.faults first.old) (S1.faults first.new) (S2.left second.old) (S2.faults second.old) (S2.faults second.new) (A.state array) (A.state result.1) out.old result.0 result.2 out.new }
{
    match prepare(alloc, first, second) {
        Err(refusal) => (refuse(refusal, out), array, None),
        Ok(ready) => serve(ready, array, out),
    }
}

// Lists the extended CSD of the card on an image, with 16 tasks and 64 cache lines.
fn list<A: Array, K: Sink>(array: &mut A, out: &mut K) -> u8
    ensures { ListAnswers K.took K.faults (A.state array.old) (A.state array.new) out.old result out.new }
{
    match open(array) {
        Err(refusal) => refuse(refusal, out),
        Ok(intent) => match put_csd(&ExtCsd::new(intent.sectors(), 16, 64), out) {
            Ok(()) => 0,
            Err(_) => 5,
        },
    }
}

// Makes an image.
fn make<A: Array, K: Sink>(sectors: u32, array: &mut A, out: &mut K) -> u8
    requires some { 1 ≤ sectors }
    requires most { sectors ≤ 65536 }
    ensures { MakeAnswers K.took K.faults sectors (A.state array.old) (A.state array.new) out.old result out.new }
{
    match make_image(sectors, array) {
        Err(refusal) => refuse(refusal, out),
        Ok(()) => match put_numbered(b"new ", sectors, out) {
            Ok(()) => 0,
            Err(_) => 5,
        },
    }
}

// The command of some words, if they are of a form.
fn command_of(words: &[String]) -> Option<Command>
    ensures some { IfSome result (λ command. IsCommand command (map string_bytes words.now)) }
    ensures none { IfNone result ((command : CommandOf) → IsCommand command (map string_bytes words.now) → ⊥) }
{
    match words {
        [command, _, _, _] if is_word(command, "run") => Some(Command::Run),
        [command, _] if is_word(command, "extcsd") => Some(Command::ExtCsd),
        [command, _, sectors] if is_word(command, "new") => new_of(sectors),
        [command, _, _] if is_word(command, "raw") => Some(Command::Raw),
        [command, _, seed] if is_word(command, "load") => load_of(seed),
        _ => None,
    }
}

// `new` with its number of sectors, if that is one.
fn new_of(sectors: &String) -> Option<Command>
    ensures some { IfSome result (λ command. (n : ℕ) × (command ≡ NewOf n) × (1 ≤ n) × (n ≤ 65536) × (string_bytes sectors.now ≡ decimal n)) }
    ensures none { IfNone result ((n : ℕ) → 1 ≤ n → n ≤ 65536 → string_bytes sectors.now ≡ decimal n → ⊥) }
{
    let sectors = read_decimal(sectors.as_bytes())?;
    if sectors < 1 {
        return None;
    }
    if sectors > 65536 {
        return None;
    }
    Some(Command::New { sectors })
}

// `load` with its number, if that is one.
fn load_of(seed: &String) -> Option<Command>
    ensures some { IfSome result (λ command. (n : ℕ) × (command ≡ LoadOf n) × (n < 2 ^ 32) × (string_bytes seed.now ≡ decimal n)) }
    ensures none { IfNone result ((n : ℕ) → n < 2 ^ 32 → string_bytes seed.now ≡ decimal n → ⊥) }
{
    let seed = read_decimal(seed.as_bytes())?;
    Some(Command::Load { seed })
}

fn is_word(word: &String, text: &str) -> bool
    ensures { IsTrue result ↔ (string_bytes word.now ≡ text.now) }
{
    word.as_str() == text
}

// Writes the refusal's line, and answers its status, or 5 where the sink failed.
pub fn refuse<K: Sink>(refusal: Refusal, out: &mut K) -> u8
    ensures { Says K.took K.faults refusal out.old result out.new }
{
    match refusal.put(out) {
        Ok(()) => refusal.status(),
        Err(_) => 5,
    }
}
