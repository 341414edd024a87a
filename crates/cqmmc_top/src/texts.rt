// The texts of a command, read from their sources.
ghost use Rattle.std.specs.Prelude.{◌≡◌, ◌+◌, IfOk, IfErr, Ok};
ghost use Rattle.storage_model.specs.Count.{Later, Rose};
ghost use Rattle.storage_model.specs.Plan.{IsValidPlan};
ghost use Rattle.cqmmc_top.specs.Texts.{AreFaultsOf, IsPlanOf, RequestsRefused, FaultsRefused, IsScriptOf, ScriptRefused, WasRead, IsTakenRefused};

use crate::refusal::Refusal;
use fault_text::read_faults;
use io_edge::{Source, TakeEnd, take_all};
use raw_text::{RawList, read_raw};
use request_text::read_requests;
use std::alloc::Global;
use storage_model::{Bytes, Faults, Plan, TextEnd};

const MAX_TEXT: u32 = 16_777_216;

/// The plan of a request text.
pub fn take_plan<S: Source>(alloc: Global, source: &mut S) -> Result<Plan, Refusal>
    ensures ok { IfOk result (IsPlanOf (S.left source.old)) }
    ensures err { IfErr result (RequestsRefused (S.left source.old) (S.faults source.old) (S.faults source.new)) }
    ensures faults { Later (S.faults source.old) (S.faults source.new) }
{
    let text = take_text(alloc, source)?;
    match read_requests(alloc, text.as_slice()) {
        Ok(plan) => Ok(plan),
        Err(TextEnd::Bad { line }) => Err(Refusal::BadRequests { line }),
        Err(TextEnd::NoMemory) => Err(Refusal::NoMemory),
    }
}

/// The faults of a fault text.
pub fn take_faults<S: Source>(alloc: Global, source: &mut S) -> Result<Faults, Refusal>
    ensures ok { IfOk result (AreFaultsOf (S.left source.old)) }
    ensures err { IfErr result (FaultsRefused (S.left source.old) (S.faults source.old) (S.faults source.new)) }
    ensures faults { Later (S.faults source.old) (S.faults source.new) }
{
    let text = take_text(alloc, source)?;
    match read_faults(alloc, text.as_slice()) {
        Ok(faults) => Ok(faults),
        Err(TextEnd::Bad { line }) => Err(Refusal::BadFaults { line }),
        Err(TextEnd::NoMemory) => Err(Refusal::NoMemory),
    }
}

/// The operations of a raw script.
pub fn take_script<S: Source>(alloc: Global, source: &mut S) -> Result<RawList, Refusal>
    ensures ok { IfOk result (IsScriptOf (S.left source.old)) }
    ensures err { IfErr result (ScriptRefused (S.left source.old) (S.faults source.old) (S.faults source.new)) }
    ensures faults { Later (S.faults source.old) (S.faults source.new) }
{
    let text = take_text(alloc, source)?;
    match read_raw(alloc, text.as_slice()) {
        Ok(ops) => Ok(ops),
        Err(TextEnd::Bad { line }) => Err(Refusal::BadScript { line }),
        Err(TextEnd::NoMemory) => Err(Refusal::NoMemory),
    }
}

// A text up to its end, or one byte past the limit.
fn take_text<S: Source>(alloc: Global, source: &mut S) -> Result<Bytes, Refusal>
    ensures ok { IfOk result (WasRead (S.left source.old)) }
    ensures err { IfErr result (IsTakenRefused (S.faults source.old) (S.faults source.new)) }
    ensures faults { Later (S.faults source.old) (S.faults source.new) }
{
    match take_all(alloc, source, MAX_TEXT) {
        Ok(text) => Ok(text),
        Err(TakeEnd::Failed) => Err(Refusal::ReadFault),
        Err(TakeEnd::NoMemory) => Err(Refusal::NoMemory),
    }
}
