// A data phase, or a direct command: what its line may say.
ghost use Rattle.std.specs.Prelude.{◌≡◌};
ghost use Rattle.trace_rules.specs.Phases.{is_phase_of, is_whole, most_blocks, moves, owed_by, phase_holds, tag_due};

use storage_machine::commands::{DueCommand, due, hit, id_on, is_gone, is_lost, next_number};
use storage_machine::jobs::{is_in_range, job_of, may_keep, may_move, must_keep, phase_blocks};
use storage_machine::{Owed, State};
use storage_model::{BusKind, Job};

fn most_blocks(kind: Option<BusKind>, blocks: u16) -> u16
    ensures { result ≡ most_blocks kind blocks }
{
    match kind {
        Some(BusKind::Bad(block)) => block.saturating_sub(1).min(blocks),
        _ => blocks,
    }
}

fn moves(s: &State, tag: u8, id: u32, count: u16, kept: bool) -> bool
    ensures { result ≡ moves s.now tag id count kept }
{
    let job = job_of(&s.plan.jobs, id);
    id_on(s, tag) == id
        && may_move(&job, most_blocks(hit(s), phase_blocks(&job)), count)
        && may_keep(s.plan.through, &job, count, kept)
        && is_in_range(&job, s.base.len())
}

fn is_phase_of(s: &State, id: u32, count: u16, kept: bool, command: DueCommand) -> bool
    ensures { result ≡ is_phase_of s.now id count kept command }
{
    match command {
        DueCommand::Execute(tag) => !is_gone(hit(s)) && moves(s, tag, id, count, kept),
        DueCommand::Direct(tag) => !is_lost(hit(s)) && moves(s, tag, id, count, kept),
        _ => false,
    }
}

#[tactic(auto, unfolding(crate::specs::Phases::phase_holds))]
pub fn phase_holds(s: &State, n: u32, id: u32, count: u16, kept: bool) -> bool
    ensures { result ≡ phase_holds s.now n id count kept }
{
    n == next_number(s) && is_phase_of(s, id, count, kept, due(s))
}

/// Whether all blocks moved, and what must be kept is kept.
pub fn is_whole(through: bool, job: &Job, count: u16, kept: bool) -> bool
    ensures { result ≡ is_whole through job.now count kept }
{
    count == phase_blocks(job) && (kept || !must_keep(through, job))
}

/// What the phase line owes.
pub fn owed_by(kind: Option<BusKind>, whole: bool, n: u32, id: u32, count: u16) -> Owed
    ensures { result ≡ owed_by kind whole n id count }
{
    match kind {
        None => {
            if whole {
                Owed::Closed
            } else {
                Owed::Flash { id }
            }
        }
        Some(BusKind::Bad(block)) => {
            if u32::from(count) + 1 == u32::from(block) {
                Owed::Bus {
                    n,
                    id,
                    kind: BusKind::Bad(block),
                }
            } else {
                Owed::Flash { id }
            }
        }
        Some(kind) => Owed::Bus { n, id, kind },
    }
}

/// The tag of a command with a phase.
pub fn tag_due(command: DueCommand) -> u8
    ensures { result ≡ tag_due command }
{
    match command {
        DueCommand::Execute(tag) | DueCommand::Direct(tag) => tag,
        _ => 0,
    }
}
