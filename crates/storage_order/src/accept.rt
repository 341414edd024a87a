// The acceptance of traces, line by line.
ghost use Rattle.std.specs.Prelude.{◌≡◌, ◌++◌, List, None, IfOk, IfErr, OnOk, OnErr};
ghost use Rattle.storage_model.specs.declared.trace.Item.{Item};
ghost use Rattle.storage_order.specs.Accept.{IsCause, IsRefused, accept_from, accepted, broken_rule, started};
ghost use Rattle.storage_order.specs.Start.{IsStart};
ghost use Rattle.trace_rules.specs.Lines.{line_rule};
ghost use Rattle.storage_machine.specs.Sound.{IsSound};
ghost use Rattle.trace_rules.specs.Steps.{earlier, event_rule, lower};

use crate::order::{restore, settle, silent_of};
use crate::start::start_state;
use std::alloc::Global;
use std::marker::Model;
use storage_machine::State;
use storage_model::{BlockList, Faults, Item, NoMemory, Plan};
use trace_effects::apply::apply;
use trace_rules::steps::{event_rule, line_rule, lower};

/// Why a line isn't accepted: the lowest rule that it breaks, from 1 to 16, or want of memory.
#[derive(Clone, Copy, Debug, PartialEq, Eq)]
pub enum Refuse {
    Rule(u8),
    NoMemory,
}

/// The storage machine between two lines of a trace.
#[derive(Drop)]
pub struct MState {
    state: State,
    alloc: Global,
}

impl Model for MState {
    ghost use Rattle.storage_machine.specs.declared.state.State.{State};
    ghost use Rattle.storage_machine.specs.Sound.{IsSound};

    ghost Value = { State };

    ghost view = { λ m. m.state };

    ghost invariant = { λ m. IsSound m.state };
}

impl MState {
    /// The state before the first line of a trace.
    pub fn start(
        alloc: Global,
        base: BlockList,
        plan: Plan,
        faults: Faults,
    ) -> Result<MState, NoMemory>
        requires { IsStart base plan }
        ensures { IfOk result (λ state. state ≡ started base plan faults) }
    {
        let state = start_state(alloc, base, plan, faults)?;
        Ok(MState { state, alloc })
    }
}

fn accept_line(s: &mut State, alloc: Global, item: &Item) -> Result<(), Refuse>
    requires { IsSound s.old }
    ensures accepted { OnOk result ((broken_rule s.old item.now ≡ None) × (s.new ≡ accepted s.old item.now)) }
    ensures cause { IfErr result (IsCause (broken_rule s.old item.now)) }
    ensures same { OnErr result (s.new ≡ s.old) }
    ensures sound { IsSound s.new }
{
    let before = silent_of(s);
    let order = settle(s, item);
    match rule_of(s, order, item) {
        Some(rule) => {
            restore(s, &before);
            Err(Refuse::Rule(rule))
        }
        None => match apply(s, alloc, item) {
            Ok(()) => Ok(()),
            Err(_) => {
                restore(s, &before);
                Err(Refuse::NoMemory)
            }
        },
    }
}

fn rule_of(s: &State, order: Option<u8>, item: &Item) -> Option<u8>
    ensures { result ≡ earlier (line_rule s.now item.now) (lower order (event_rule s.now item.now)) }
{
    match line_rule(s, item) {
        None => lower(order, event_rule(s, item)),
        Some(rule) => Some(rule),
    }
}

/// Takes the machine over a line. A line that breaks a rule is refused with the lowest one, and without memory none is
/// taken; then the state stays.
pub fn accept_item(state: &mut MState, item: &Item) -> Result<(), Refuse>
    ensures accepted { OnOk result ((broken_rule state.old item.now ≡ None) × (state.new ≡ accepted state.old item.now)) }
    ensures cause { IfErr result (IsCause (broken_rule state.old item.now)) }
    ensures same { OnErr result (state.new ≡ state.old) }
{
    accept_line(&mut state.state, state.alloc, item)
}

/// Takes the machine over lines, up to the first that is refused. Where all are accepted, lines that follow are judged
/// from there; where one isn't, no lines that follow change the answer. So the start of an accepted trace is accepted.
pub fn accept_items(state: &mut MState, items: &[Item]) -> Result<(), Refuse>
    ensures accepted { OnOk result ((more : List Item) → accept_from (items.now ++ more) state.old ≡ accept_from more state.new) }
    ensures refused { IfErr result (IsRefused state.old items.now) }
{
    for item in items {
        accept_item(state, item)?;
    }
    Ok(())
}
