// The lines of an interrupt: the tasks that are collected, and the answer of each.
ghost use Rattle.std.specs.Prelude.{◌≡◌, ◌==◌, ◌<◌, ◌≤◌, ◌∷◌, [], true, IfErr, OnErr, flat_map, length, map};
ghost use Rattle.std.specs.Int.{bit_at};
ghost use Rattle.std.specs.List.{range_with_len};
ghost use Rattle.drv_recover.specs.declared.recovery.RecoveryState.TheVariants.{Calm};
ghost use Rattle.drv_ring.specs.Asks.{HasBlocks};
ghost use Rattle.drv_ring.specs.Layout.{HasLayout, IsTagOf};
ghost use Rattle.drv_ring.specs.Pieces.{tag_pieces};
ghost use Rattle.drv_ring.specs.declared.places.TheConstants.{MOST_BLOCKS};
ghost use Rattle.piece_data.specs.Data.{block_of};
ghost use Rattle.storage_model.specs.Count.{Later, Rose};
ghost use Rattle.storage_model.specs.declared.ends.Halt.TheVariants.{SinkFailed};
ghost use Rattle.storage_model.specs.declared.trace.Item.TheVariants.{Sector};
ghost use Rattle.trace_print.specs.Prints.{Takes};
ghost use Rattle.world_state.specs.Host.{answer_at, answer_of_holder, answer_of_job, collect_lines};
ghost use Rattle.world_state.specs.Path.{holder, job, layout, plan_of};
ghost use Rattle.world_state.specs.Reading.{is_done};
ghost use Rattle.world_state.specs.Ties.{AreTied};

use cq_regs::Register;
use io_edge::Sink;
use storage_model::{Block, Halt, Item, Job};
use trace_print::print;
use world_state::Path;

// How many tags there are.
const TAGS: u8 = 32;

/// Prints the interrupt and the answers of its tasks, in order of tags.
///
/// # Errors
///
/// `SinkFailed` where the sink failed.
pub fn collect<K: Sink>(path: &Path, out: &mut K) -> Result<(), Halt>
    requires tied { AreTied path.now }
    requires calm { path.now.driver.recovery ≡ Calm }
    ensures takes { Takes K.took out.old (collect_lines path.now path.now.regs.completed) result out.new }
    ensures halt { IfErr result (λ halt. halt ≡ SinkFailed) }
    ensures faults { Later (K.faults out.old) (K.faults out.new) }
    ensures failed { OnErr result (Rose (K.faults out.old) (K.faults out.new)) }
{
    let mask = path.regs.value(Register::CompletionNotification);
    print(&Item::Irq { mask }, out)?;
    answer_all(path, out)
}

// The answers of all tags.
fn answer_all<K: Sink>(path: &Path, out: &mut K) -> Result<(), Halt>
    requires tied { AreTied path.now }
    requires calm { path.now.driver.recovery ≡ Calm }
    ensures takes { Takes K.took out.old (flat_map (answer_at path.now path.now.regs.completed) (range_with_len 0 32)) result out.new }
    ensures halt { IfErr result (λ halt. halt ≡ SinkFailed) }
    ensures faults { Later (K.faults out.old) (K.faults out.new) }
    ensures failed { OnErr result (Rose (K.faults out.old) (K.faults out.new)) }
{
    for tag in 0..TAGS {
        answer_tag(path, tag, out)?;
    }
    Ok(())
}

// The answer of a tag, where it is notified as complete.
fn answer_tag<K: Sink>(path: &Path, tag: u8, out: &mut K) -> Result<(), Halt>
    requires tied { AreTied path.now }
    requires calm { path.now.driver.recovery ≡ Calm }
    requires low { tag < 32 }
    ensures takes { Takes K.took out.old (answer_at path.now path.now.regs.completed tag) result out.new }
    ensures halt { IfErr result (λ halt. halt ≡ SinkFailed) }
    ensures faults { Later (K.faults out.old) (K.faults out.new) }
    ensures failed { OnErr result (Rose (K.faults out.old) (K.faults out.new)) }
{
    if is_set(path.regs.value(Register::CompletionNotification), tag) {
        answer(path, tag, out)
    } else {
        Ok(())
    }
}

fn is_set(word: u32, bit: u8) -> bool
    requires { bit < 32 }
    ensures { result ≡ (bit_at word bit == 1) }
{
    word >> bit & 1 == 1
}

// The answer of a done tag's request.
fn answer<K: Sink>(path: &Path, tag: u8, out: &mut K) -> Result<(), Halt>
    requires tied { AreTied path.now }
    requires calm { path.now.driver.recovery ≡ Calm }
    requires low { tag < 32 }
    requires done { is_done path.now tag ≡ true }
    ensures takes { Takes K.took out.old (answer_of_holder path.now tag (holder path.now tag)) result out.new }
    ensures halt { IfErr result (λ halt. halt ≡ SinkFailed) }
    ensures faults { Later (K.faults out.old) (K.faults out.new) }
    ensures failed { OnErr result (Rose (K.faults out.old) (K.faults out.new)) }
{
    match path.driver.holder(tag) {
        Some(id) => answer_job(path, tag, id, out),
        None => Ok(()),
    }
}

// The answer of a request.
fn answer_job<K: Sink>(path: &Path, tag: u8, id: u32, out: &mut K) -> Result<(), Halt>
    requires above { 1 ≤ id }
    requires below { id ≤ length (plan_of path.now).jobs }
    requires layout { HasLayout path.now.memory (layout path.now) }
    requires tag { IsTagOf (layout path.now) tag (job path.now id) }
    requires blocks { HasBlocks (job path.now id) }
    ensures takes { Takes K.took out.old (answer_of_job path.now tag id (job path.now id)) result out.new }
    ensures halt { IfErr result (λ halt. halt ≡ SinkFailed) }
    ensures faults { Later (K.faults out.old) (K.faults out.new) }
    ensures failed { OnErr result (Rose (K.faults out.old) (K.faults out.new)) }
{
    match *path.driver.plan().jobs.at(id as usize - 1) {
        Job::Read { blocks, .. } => {
            print(&Item::Read { id }, out)?;
            print_blocks(path, tag, blocks, out)
        }
        Job::Status => {
            let word = path.regs.value(Register::DirectCommandResponse);
            print(&Item::Status { id, word }, out)
        }
        Job::Write { .. } | Job::Flush | Job::Barrier => print(&Item::Done { id }, out),
    }
}

// The sectors of a read.
fn print_blocks<K: Sink>(path: &Path, tag: u8, blocks: u16, out: &mut K) -> Result<(), Halt>
    requires layout { HasLayout path.now.memory (layout path.now) }
    requires tag { tag < (layout path.now).depth }
    requires few { blocks ≤ MOST_BLOCKS }
    ensures takes { Takes K.took out.old (map Sector (map (block_of path.now.memory (tag_pieces (layout path.now) tag blocks)) (range_with_len 0 blocks))) result out.new }
    ensures halt { IfErr result (λ halt. halt ≡ SinkFailed) }
    ensures faults { Later (K.faults out.old) (K.faults out.new) }
    ensures failed { OnErr result (Rose (K.faults out.old) (K.faults out.new)) }
{
    let layout = path.driver.layout();
    let mut value = Block([0; 512]);
    for k in 0..blocks {
        layout.read_block(&path.mem, tag, k, &mut value);
        print(&Item::Sector { value }, out)?;
    }
    Ok(())
}
