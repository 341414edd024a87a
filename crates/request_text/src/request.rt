// The line of a request.
ghost use Rattle.std.specs.Prelude.{◌≡◌, ◌^◌, ◌<◌, ◌∷◌, ◌++◌, [], ℕ, List, All, IfSome, IfNone, codes, decimal};
ghost use Rattle.storage_model.specs.declared.plan.Job.{Job};
ghost use Rattle.text_words.specs.Reads.{Reads};
ghost use Rattle.text_words.specs.Words.{spaced, words_of};
ghost use Rattle.request_text.specs.Requests.{IsFill, IsFillAt, IsJob, IsOther, IsPlacedAt, all_words, contents_text, fill_words, flag_text, flag_words, job_words, later_words};

use storage_model::{Fill, Job};
use text_words::{Words, read_decimal, read_decimal_in, read_hex_byte};

const MAX_BLOCKS: u16 = 1024;

// The request of a line, given without its line feed, and the digits of the blocks that it lists, if it does. They will
// stand from `place` on.
pub fn read_job(line: &[u8], place: u32) -> Option<(Job, &[u8])>
    ensures some { IfSome result (λ read. IsJob read.0 × IsPlacedAt place read.0 × (words_of line.now ≡ job_words read.1.now read.0)) }
    ensures none { IfNone result ((job : Job) (digits : List ℕ) → IsJob job → IsPlacedAt place job → All (λ b. 32 < b) digits → ¬ (line.now ≡ spaced (job_words digits job))) }
{
    let mut words = Words::of(line);
    let first = words.next()?;
    let (job, digits) = job_of(first, words, place)?;
    Some((job, digits))
}

fn job_of<'a>(first: &'a [u8], words: Words<'a>, place: u32) -> Option<(Job, &'a [u8])>
    ensures some { IfSome result (λ read. IsJob read.0 × IsPlacedAt place read.0 × (first.now ∷ words.entry ≡ job_words read.1.now read.0)) }
    ensures none { IfNone result ((job : Job) (digits : List ℕ) → IsJob job → IsPlacedAt place job → ¬ (first.now ∷ words.entry ≡ job_words digits job)) }
{
    match first {
        b"write" => write_of(words, place),
        _ => Some((other_of(first, words)?, first)),
    }
}

// A request that is no write.
fn other_of(first: &[u8], words: Words) -> Option<Job>
    ensures { Reads result (λ job. IsOther job × IsJob job × (first.now ∷ words.entry ≡ job_words [] job)) }
{
    match first {
        b"read" => read_of(words),
        b"flush" => alone(words, Job::Flush),
        b"barrier" => alone(words, Job::Barrier),
        b"status" => alone(words, Job::Status),
        _ => None,
    }
}

fn alone(words: Words, job: Job) -> Option<Job>
    ensures { Reads result (λ only. (only ≡ job) × (words.entry ≡ [])) }
{
    words.end()?;
    Some(job)
}

// `S N` and maybe `high`, what follows `read`.
fn read_of(mut words: Words) -> Option<Job>
    ensures { Reads result (λ job. IsOther job × IsJob job × (codes "read" ∷ words.entry ≡ job_words [] job)) }
{
    let sector = read_decimal(words.next()?)?;
    let blocks = read_decimal_in(words.next()?, 1, MAX_BLOCKS)?;
    let high = last_high(words)?;
    Some(Job::Read {
        sector,
        blocks,
        high,
    })
}

// `S N DATA` and the flags, what follows `write`; with it the word after DATA's first.
fn write_of<'a>(mut words: Words<'a>, place: u32) -> Option<(Job, &'a [u8])>
    ensures some { IfSome result (λ read. IsJob read.0 × IsPlacedAt place read.0 × (codes "write" ∷ words.entry ≡ job_words read.1.now read.0)) }
    ensures none { IfNone result ((job : Job) (digits : List ℕ) → IsJob job → IsPlacedAt place job → ¬ (codes "write" ∷ words.entry ≡ job_words digits job)) }
{
    let sector = read_decimal(words.next()?)?;
    let blocks = read_decimal_in(words.next()?, 1, MAX_BLOCKS)?;
    let contents = read_contents(words.next()?)?;
    let value = words.next()?;
    let fill = fill_of(contents, value, place)?;
    let (forced, reliable, high) = flags(words)?;
    let job = Job::Write {
        sector,
        blocks,
        fill,
        forced,
        reliable,
        high,
    };
    Some((job, value))
}

// The first word of a write's contents.
#[derive(Clone, Copy)]
pub enum Contents {
    Fill,
    Ramp,
    Hex,
}

fn read_contents(word: &[u8]) -> Option<Contents>
    ensures { Reads result (λ contents. word.now ≡ contents_text contents) }
{
    match word {
        b"fill" => Some(Contents::Fill),
        b"ramp" => Some(Contents::Ramp),
        b"hex" => Some(Contents::Hex),
        _ => None,
    }
}

fn fill_of(contents: Contents, value: &[u8], place: u32) -> Option<Fill>
    ensures { Reads result (λ fill. IsFill fill × IsFillAt place fill × (contents_text contents ∷ value.now ∷ [] ≡ fill_words value.now fill)) }
{
    match contents {
        Contents::Fill => Some(Fill::Same(read_hex_byte(value)?)),
        Contents::Ramp => Some(Fill::Ramp(byte(value)?)),
        Contents::Hex => Some(Fill::Listed(place)),
    }
}

fn byte(word: &[u8]) -> Option<u8>
    ensures { Reads result (λ n. (n < 2 ^ 8) × (word.now ≡ decimal n)) }
{
    let number = read_decimal_in(word, 0, 255)?;
    Some(number as u8)
}

// A word that may follow a write's contents.
#[derive(Clone, Copy)]
pub enum Flag {
    Forced,
    Reliable,
    High,
}

fn read_flag(word: &[u8]) -> Option<Flag>
    ensures { Reads result (λ flag. word.now ≡ flag_text flag) }
{
    match word {
        b"forced" => Some(Flag::Forced),
        b"reliable" => Some(Flag::Reliable),
        b"high" => Some(Flag::High),
        _ => None,
    }
}

// The flags of a write, `forced`, `reliable` and `high` in this order, and no more.
fn flags(mut words: Words) -> Option<(bool, bool, bool)>
    ensures { Reads result (λ set. words.entry ≡ all_words set.0 set.1 set.2) }
{
    match words.next() {
        None => Some((false, false, false)),
        Some(word) => flags_from(read_flag(word)?, words),
    }
}

fn flags_from(first: Flag, words: Words) -> Option<(bool, bool, bool)>
    ensures { Reads result (λ set. flag_text first ∷ words.entry ≡ all_words set.0 set.1 set.2) }
{
    match first {
        Flag::Forced => {
            let (reliable, high) = later_flags(words)?;
            Some((true, reliable, high))
        }
        Flag::Reliable => {
            let high = last_high(words)?;
            Some((false, true, high))
        }
        Flag::High => {
            words.end()?;
            Some((false, false, true))
        }
    }
}

fn later_flags(mut words: Words) -> Option<(bool, bool)>
    ensures { Reads result (λ set. words.entry ≡ later_words set.0 set.1) }
{
    match words.next() {
        None => Some((false, false)),
        Some(word) => later_from(read_flag(word)?, words),
    }
}

fn later_from(first: Flag, words: Words) -> Option<(bool, bool)>
    ensures { Reads result (λ set. flag_text first ∷ words.entry ≡ later_words set.0 set.1) }
{
    match first {
        Flag::Forced => None,
        Flag::Reliable => {
            let high = last_high(words)?;
            Some((true, high))
        }
        Flag::High => {
            words.end()?;
            Some((false, true))
        }
    }
}

fn last_high(mut words: Words) -> Option<bool>
    ensures { Reads result (λ high. words.entry ≡ flag_words (codes "high") high) }
{
    match words.next() {
        None => Some(false),
        Some(b"high") => {
            words.end()?;
            Some(true)
        }
        Some(_) => None,
    }
}
