// The verdict on a trace.
ghost use Rattle.std.specs.Prelude.{◌≡◌, ◌<◌, ◌^◌, length, IfOk};
ghost use Rattle.storage_order.specs.Start.{IsStart};
ghost use Rattle.trace_judge.specs.Answers.{IsAnswer};
ghost use Rattle.trace_judge.specs.Verdicts.{IsVerdict, ends};

use crate::answer::Answer;
use fault_text::read_faults;
use request_text::read_requests;
use std::alloc::Global;
use storage_model::{BlockList, Faults, Item, NoMemory, Plan, TextEnd};
use storage_order::{MState, Refuse, accept_item};
use trace_text::read_items;

/// What the acceptance says of lines.
#[derive(Clone, Copy)]
pub enum Verdict {
    /// All are accepted, and the last is an `off` line.
    Accepted,
    /// All are accepted, and more may follow.
    Front,
    /// The lines before this one, which is counted from 1, are accepted. It breaks this rule, and none that is lower.
    Rejected { line: usize, rule: u8 },
}

/// What there is to say of the texts of a run on these contents.
pub fn judge_texts(
    alloc: Global,
    base: BlockList,
    requests: &[u8],
    faults: &[u8],
    trace: &[u8],
) -> Answer
    requires { length base < 2 ^ 32 }
    ensures { IsAnswer base requests.now faults.now trace.now result }
{
    let plan = match read_requests(alloc, requests) {
        Ok(plan) => plan,
        Err(TextEnd::Bad { line }) => return Answer::BadRequests { line },
        Err(TextEnd::NoMemory) => return Answer::NoMemory,
    };
    let faults = match read_faults(alloc, faults) {
        Ok(faults) => faults,
        Err(TextEnd::Bad { line }) => return Answer::BadFaults { line },
        Err(TextEnd::NoMemory) => return Answer::NoMemory,
    };
    let items = match read_items(alloc, trace) {
        Ok(items) => items,
        Err(TextEnd::Bad { line }) => return Answer::BadTrace { line },
        Err(TextEnd::NoMemory) => return Answer::NoMemory,
    };
    match judge(alloc, base, plan, faults, items.as_slice()) {
        Ok(verdict) => Answer::Judged(verdict),
        Err(NoMemory) => Answer::NoMemory,
    }
}

/// The verdict on the lines of a run.
pub fn judge(
    alloc: Global,
    base: BlockList,
    plan: Plan,
    faults: Faults,
    items: &[Item],
) -> Result<Verdict, NoMemory>
    requires { IsStart base plan }
    ensures { IfOk result (IsVerdict base plan faults items.now) }
{
    let mut state = MState::start(alloc, base, plan, faults)?;
    let mut line = 0;
    for item in items {
        line += 1;
        match accept_item(&mut state, item) {
            Ok(()) => {}
            Err(Refuse::Rule(rule)) => return Ok(Verdict::Rejected { line, rule }),
            Err(Refuse::NoMemory) => return Err(NoMemory),
        }
    }
    if ends(items) {
        Ok(Verdict::Accepted)
    } else {
        Ok(Verdict::Front)
    }
}

// Whether the last line ends the run.
fn ends(items: &[Item]) -> bool
    ensures { result ≡ ends items.now }
{
    matches!(items.last(), Some(Item::Off { .. }))
}
