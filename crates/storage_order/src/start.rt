// The state before the first line of a trace.
ghost use Rattle.std.specs.Prelude.{◌≡◌, [], List, length, replicate, IfOk};
ghost use Rattle.storage_order.specs.Accept.{started};

use std::alloc::Global;
use storage_machine::slots::no_tasks;
use storage_machine::{
    EpochList, Event, Flags, Marks, Owed, Recovery, Script, State, Stop, UsedLines,
};
use storage_model::{BlockList, Bytes, Faults, MarkList, NoMemory, Plan, Sequence};

fn zeros(alloc: Global, count: usize) -> Result<Bytes, NoMemory>
    ensures { IfOk result (λ zeros. zeros ≡ replicate count 0) }
{
    Ok(Bytes::from_vec(vec![in alloc; 0; count]?))
}

fn no_data(alloc: Global) -> Result<Sequence<BlockList>, NoMemory>
    ensures { IfOk result (λ sectors. sectors ≡ replicate 32 []) }
{
    let mut sectors = Sequence::new(alloc);
    for _ in 0..32u8 {
        sectors.push(BlockList::new(alloc))?;
    }
    Ok(sectors)
}

#[tactic(auto, unfolding(crate::specs::Accept::started))]
pub fn start_state(
    alloc: Global,
    base: BlockList,
    plan: Plan,
    faults: Faults,
) -> Result<State, NoMemory>
    ensures { IfOk result (λ state. state ≡ started base plan faults) }
{
    let waiting = Flags::all_up(alloc, plan.jobs.len())?;
    let named = zeros(alloc, plan.jobs.len())?;
    let cuts = UsedLines::none_used(alloc, faults.cuts.len())?;
    let data = no_data(alloc)?;
    Ok(State {
        plan,
        faults: Script::of(faults),
        base,
        pend: Marks::new(alloc),
        waiting,
        named,
        slots: no_tasks(),
        order: Bytes::new(alloc),
        data,
        n: 0,
        bars: 0,
        words: 0,
        letters: 0,
        cuts,
        busy: false,
        spent: 0,
        stop: Stop::Running,
        recovery: Recovery::Calm,
        notice: false,
        count: 0,
        staged: false,
        kept: false,
        event: Event::Untold,
        owed: Owed::Card,
        worked: false,
        deferred: false,
        lefts: MarkList::new(alloc),
        epochs: EpochList::new(alloc),
    })
}
