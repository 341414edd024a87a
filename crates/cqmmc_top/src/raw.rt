// A raw script, from its text to its last line.
ghost use Rattle.std.specs.Prelude.{◌≡◌, All, IfErr, IfOk, List, Option, ℕ};
ghost use Rattle.storage_model.specs.Count.{Count};
ghost use Rattle.intent_store.specs.Intent.{ShowsImage};
ghost use Rattle.raw_machine.specs.Machine.{Stands, moment, switched_off};
ghost use Rattle.raw_text.specs.Raw.{IsOp};
ghost use Rattle.cqmmc_top.specs.Print.{HasCause, run_status};
ghost use Rattle.cqmmc_top.specs.Raw.{Plays, RawAnswers};
ghost use Rattle.cqmmc_top.specs.Texts.{IsScriptOf, ScriptRefused};

use crate::command::refuse;
use crate::refusal::Refusal;
use crate::texts::take_script;
use array_edge::Array;
use io_edge::{Sink, Source};
use raw_face::Raw;
use raw_text::RawList;
use std::alloc::Global;
use storage_model::Halt;

/// A script before its first line.
#[derive(Drop)]
struct Script {
    ops: RawList,
    /// The machine, which is off.
    raw: Raw,
}

/// Runs a script on an image, and answers the status. A bad script touches no page.
pub fn run_script<A: Array, S: Source, K: Sink>(
    alloc: Global,
    first: &mut S,
    array: &mut A,
    out: &mut K,
) -> u8
    ensures { RawAnswers K.took K.faults (S.left first.old) (S.faults first.old) (S.faults first.new) (A.state array.old) (A.state array.new) out.old result out.new }
{
    match take_machine(alloc, first) {
        Err(refusal) => refuse(refusal, out),
        Ok(mut script) => begin(&mut script, array, out),
    }
}

// The operations of a script, and a machine for them.
fn take_machine<S: Source>(alloc: Global, first: &mut S) -> Result<Script, Refusal>
    ensures ops { IfOk result (λ script. IsScriptOf (S.left first.old) script.ops) }
    ensures off { IfOk result (λ script. script.raw ≡ switched_off script.raw.card.store) }
    ensures refused { IfErr result (ScriptRefused (S.left first.old) (S.faults first.old) (S.faults first.new)) }
{
    let ops = take_script(alloc, first)?;
    match Raw::start(alloc) {
        Ok(raw) => Ok(Script { ops, raw }),
        Err(_) => Err(Refusal::NoMemory),
    }
}

// Switches the machine on, and carries the script out.
fn begin<A: Array, K: Sink>(script: &mut Script, array: &mut A, out: &mut K) -> u8
    requires ops { All IsOp script.old.ops }
    requires off { script.old.raw ≡ switched_off script.old.raw.card.store }
    ensures { (text : Option (List ℕ)) (before after : Count) → IsScriptOf text script.old.ops → RawAnswers K.took K.faults text before after (A.state array.old) (A.state array.new) out.old result out.new }
{
    match script.raw.boot(array, out) {
        Ok(()) => status_of(play(&script.ops, &mut script.raw, array, out)),
        Err(Halt::SinkFailed) => 5,
        Err(Halt::BadImage) => refuse(Refusal::BadImage, out),
        Err(Halt::OpenFault) => refuse(Refusal::ArrayFault, out),
        Err(Halt::PowerGone) => refuse(Refusal::NoPower, out),
    }
}

// Carries the operations out one after the other, and flushes the card.
fn play<A: Array, K: Sink>(
    ops: &RawList,
    raw: &mut Raw,
    array: &mut A,
    out: &mut K,
) -> Result<(), Halt>
    requires ops { All IsOp ops.now }
    requires stands { Stands raw.old (A.state array.old) }
    ensures plays { Plays K.took ops.now (moment raw.old (A.state array.old)) out.old result (moment raw.new (A.state array.new)) out.new }
    ensures image { ShowsImage (A.state array.new) }
    ensures cause { HasCause (K.faults out.old) (K.faults out.new) (A.state array.old) (A.state array.new) result }
{
    for op in ops.as_slice() {
        raw.op(op, array, out)?;
    }
    raw.finish(array, out)
}

// The status by how the lines ended.
fn status_of(ended: Result<(), Halt>) -> u8
    ensures { result ≡ run_status ended }
{
    match ended {
        Ok(()) => 0,
        Err(Halt::SinkFailed) => 5,
        Err(Halt::BadImage) => 6,
        Err(Halt::OpenFault) => 7,
        Err(Halt::PowerGone) => 8,
    }
}
