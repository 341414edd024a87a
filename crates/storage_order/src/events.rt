// How an event ends without a further line, and the engine's events that print nothing.
ghost use Rattle.std.specs.Prelude.{◌≡◌, ◌<◌, ◌^◌, ◌&&◌, true, nat_lt, if◌then◌else◌};
ghost use Rattle.storage_machine.specs.Commands.{is_idle};
ghost use Rattle.storage_machine.specs.declared.commands.DueCommand.TheVariants.{Execute};
ghost use Rattle.storage_order.specs.Events.{end_rule, ended, ended_by, engine_may_pass, engine_step, may_pass, passed, rule_of_end};

use storage_machine::commands::{DueCommand, due, hit, is_gone, is_idle, job_on};
use storage_machine::host::to_do;
use storage_machine::jobs::phase_blocks;
use storage_machine::{Event, State};
use storage_model::Letter;
use trace_rules::steps::unless;

fn may_pass(s: &State, command: DueCommand) -> bool
    ensures { result ≡ may_pass s.now command }
{
    match command {
        DueCommand::Idle => true,
        DueCommand::Execute(tag) => {
            !is_gone(hit(s)) && s.spent <= u32::from(phase_blocks(&job_on(s, tag)))
        }
        _ => false,
    }
}

#[tactic(auto, unfolding(crate::specs::Events::engine_may_pass))]
pub fn engine_may_pass(s: &State) -> bool
    ensures { result ≡ engine_may_pass s.now }
{
    may_pass(s, due(s))
}

fn go_on(s: &mut State, spent: u32)
    requires { spent < 2 ^ 32 }
    ensures { s.new ≡ record s.old { busy = true; spent = spent } }
{
    s.busy = true;
    s.spent = spent;
}

fn pass_phase(s: &mut State, tag: u8)
    ensures { s.new ≡ passed s.old (Execute tag) }
{
    if may_pass(s, DueCommand::Execute(tag)) {
        let blocks = u32::from(phase_blocks(&job_on(s, tag)));
        if s.spent <= blocks {
            let spent = s.spent + 1;
            go_on(s, spent);
        }
    }
}

fn tick(s: &mut State)
    ensures { s.new ≡ (if is_idle s.old && nat_lt 0 s.old.count then record s.old { notice = true; count = 0 } else s.old) }
{
    if is_idle(s) && 0 < s.count {
        s.notice = true;
        s.count = 0;
    }
}

/// An engine's event that prints nothing.
#[tactic(auto, unfolding(crate::specs::Events::engine_step))]
pub fn engine_step(s: &mut State)
    ensures { s.new ≡ engine_step s.old }
{
    match due(s) {
        DueCommand::Execute(tag) => pass_phase(s, tag),
        _ => tick(s),
    }
}

/// The rule that an event breaks which ends without a line.
#[tactic(auto, unfolding(crate::specs::Events::end_rule))]
pub fn end_rule(s: &State) -> Option<u8>
    ensures { result ≡ end_rule s.now }
{
    match s.event {
        Event::Untold | Event::Told(Letter::Card) => None,
        Event::Due => Some(15),
        Event::Told(Letter::Cut) => unless(!to_do(s), 12),
        Event::Told(Letter::Host) => Some(13),
        Event::Told(Letter::Engine) => unless(engine_may_pass(s), 14),
    }
}

/// The event ends.
#[tactic(auto, unfolding(crate::specs::Events::ended))]
pub fn end(s: &mut State)
    ensures { s.new ≡ ended s.old }
{
    let engine = matches!(s.event, Event::Told(Letter::Engine));
    s.event = Event::Untold;
    if engine {
        engine_step(s);
    }
}
