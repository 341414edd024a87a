// What a stop of the engine does to the request that it names.
ghost use Rattle.std.specs.Int.{bit_at};
ghost use Rattle.std.specs.Prelude.{◌≡◌, ◌==◌, ◌<◌};
ghost use Rattle.drv_jobs.specs.Standings.{holder_of};
ghost use Rattle.drv_core.specs.Judge.{after_error, after_fault, error_of, judged};

use crate::{Act, Stop};
use bus_link::Cause;
use drv_jobs::{MOST_FAULTS, Requests};

// No request is ended.
const RETRY: Act = Act::Failed {
    id: None,
    why: Stop::Retry,
};

// Answers the request that a stop ends.
pub(crate) fn judge(requests: &mut Requests, cause: Option<Cause>) -> Act
    ensures act { result ≡ (judged requests.old cause).act }
    ensures requests { requests.new ≡ (judged requests.old cause).requests }
{
    match cause {
        Some(
            Cause::Bus {
                slot: Some(tag),
                ..
            },
        ) => after_fault(requests, tag),
        Some(Cause::Response { word, slot }) => match error_of(word) {
            Some(why) => after_error(requests, slot, why),
            None => RETRY,
        },
        _ => RETRY,
    }
}

// Counts a fault of the bus in the task of a tag.
fn after_fault(requests: &mut Requests, tag: u8) -> Act
    ensures act { result ≡ (after_fault requests.old tag (holder_of requests.old.holders tag)).act }
    ensures requests { requests.new ≡ (after_fault requests.old tag (holder_of requests.old.holders tag)).requests }
{
    match requests.holder(tag) {
        Some(id) => {
            if requests.note_fault(id) != MOST_FAULTS {
                return RETRY;
            }
            requests.answer(tag);
            Act::Failed {
                id: Some(id),
                why: Stop::Bus,
            }
        }
        None => RETRY,
    }
}

// Answers the request of a tag with an error.
fn after_error(requests: &mut Requests, tag: u8, why: Stop) -> Act
    ensures act { result ≡ (after_error requests.old tag why (holder_of requests.old.holders tag)).act }
    ensures requests { requests.new ≡ (after_error requests.old tag why (holder_of requests.old.holders tag)).requests }
{
    match requests.holder(tag) {
        Some(id) => {
            requests.answer(tag);
            Act::Failed { id: Some(id), why }
        }
        None => RETRY,
    }
}

// The error of a status word that ends a request.
fn error_of(word: u32) -> Option<Stop>
    ensures { result ≡ error_of word }
{
    if is_set(word, 19) {
        return Some(Stop::Flash);
    }
    if is_set(word, 21) {
        return Some(Stop::Flash);
    }
    if is_set(word, 31) {
        return Some(Stop::Range);
    }
    None
}

// Whether a bit of a word is 1.
fn is_set(word: u32, bit: u8) -> bool
    requires { bit < 32 }
    ensures { result ≡ (bit_at word bit == 1) }
{
    word >> bit & 1 == 1
}
