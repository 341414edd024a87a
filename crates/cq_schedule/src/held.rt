ghost use Rattle.std.specs.Prelude.{◌≡◌, ◌↔◌, ◌<◌, None, Some, IfOk, IsTrue, length, slice_set};
ghost use Rattle.std.specs.Option.{option_copied, option_map, IsSomeAnd};
ghost use Rattle.cq_regs.specs.Slots.{progress_of};
ghost use Rattle.cq_schedule.specs.Holding.{HasTasks, HoldsTasks};
ghost use Rattle.cq_schedule.specs.Held.{held_at, kept, left_at, newly_held, none_held, noted, remembered, same, with_block, EachBecomes, HasBlockLeft};

use cq_regs::{Progress, Regs};
use cq_task::{DataTask, SLOTS};
use std::alloc::Global;
use std::marker::Model;
use storage_model::NoMemory;

/// A task that the engine holds: what was read when its slot was served.
#[derive(Debug, Drop)]
pub struct HeldTask {
    pub task: DataTask,
    /// How far the slot was when the engine left it.
    pub progress: Progress,
    /// How many blocks of the data phase moved.
    pub moved: u16,
}

/// The tasks that the engine holds: a place for each slot.
#[derive(Debug, Drop)]
pub struct HeldTasks {
    places: Vec<Option<HeldTask>>,
}

impl Model for HeldTasks {
    ghost use Rattle.std.specs.Prelude.{◌≡◌, length, List, Option};
    ghost use Rattle.cq_schedule.specs.declared.held.HeldTask.{HeldTask};

    ghost Value = { List (Option HeldTask) };

    ghost view = { λ it. it.places.items };

    ghost invariant = { λ it. length it.places.items ≡ 32 };
}

impl HeldTasks {
    /// No task is held. Takes all the memory that holding tasks needs.
    ///
    /// # Errors
    ///
    /// `NoMemory` where the allocator has none.
    pub fn start(alloc: Global) -> Result<HeldTasks, NoMemory>
        ensures { IfOk result (λ held. held ≡ none_held) }
    {
        let mut places = Vec::new(alloc);
        for _ in 0..SLOTS {
            places.push(None)?;
        }
        Ok(HeldTasks { places })
    }

    /// Forgets all tasks.
    pub fn reset(&mut self)
        ensures { self.new ≡ none_held }
    {
        clear(self.places.as_mut_slice());
    }

    /// Forgets the tasks of the slots that are not as far as the engine left them.
    pub fn forget(&mut self, regs: &Regs)
        ensures all { self.new ≡ remembered self.old regs.now }
        ensures each { EachBecomes self.old self.new regs.now kept }
        ensures holds { HoldsTasks self.old regs.now → HoldsTasks self.new regs.now }
    {
        forget(self.places.as_mut_slice(), regs);
    }

    /// What is held of a slot.
    pub fn get(&self, slot: u8) -> Option<&HeldTask>
        requires { slot < 32 }
        ensures { option_copied result ≡ held_at self.now slot }
    {
        self.places[usize::from(slot)].as_ref()
    }

    /// Holds the task that was read of a slot. No block of it moved.
    pub fn hold(&mut self, slot: u8, task: DataTask)
        requires { slot < 32 }
        ensures { self.new ≡ slice_set self.old slot (Some (newly_held task)) }
    {
        self.places[usize::from(slot)] = Some(HeldTask {
            task,
            progress: Progress::Rung,
            moved: 0,
        });
    }

    /// Counts a block of the data phase of a slot.
    pub fn count_block(&mut self, slot: u8)
        requires below { slot < 32 }
        requires left { IsSomeAnd (held_at self.old slot) HasBlockLeft }
        ensures { self.new ≡ slice_set self.old slot (option_map with_block (held_at self.old slot)) }
    {
        if let Some(held) = &mut self.places[usize::from(slot)] {
            prove!(held.moved < held.task.desc.blocks);
            held.moved += 1;
        }
    }

    /// Forgets the task of a slot.
    pub fn release(&mut self, slot: u8)
        requires { slot < 32 }
        ensures { self.new ≡ slice_set self.old slot None }
    {
        self.places[usize::from(slot)] = None;
    }

    /// Notes how far the slots of the tasks that are held have come: so far the engine leaves them.
    pub fn note(&mut self, regs: &Regs)
        ensures all { self.new ≡ noted self.old regs.now }
        ensures each { EachBecomes self.old self.new regs.now left_at }
        ensures holds { HasTasks self.old regs.now → HoldsTasks self.new regs.now }
    {
        note(self.places.as_mut_slice(), regs);
    }
}

fn clear(places: &mut [Option<HeldTask>])
    requires { length places.old ≡ 32 }
    ensures { places.new ≡ none_held }
{
    for slot in 0..SLOTS {
        places[usize::from(slot)] = None;
    }
}

fn forget(places: &mut [Option<HeldTask>], regs: &Regs)
    requires { length places.old ≡ 32 }
    ensures all { places.new ≡ remembered places.old regs.now }
    ensures each { EachBecomes places.old places.new regs.now kept }
    ensures holds { HoldsTasks places.old regs.now → HoldsTasks places.new regs.now }
{
    for slot in 0..SLOTS {
        keep_at(&mut places[usize::from(slot)], regs, slot);
    }
}

fn note(places: &mut [Option<HeldTask>], regs: &Regs)
    requires { length places.old ≡ 32 }
    ensures all { places.new ≡ noted places.old regs.now }
    ensures each { EachBecomes places.old places.new regs.now left_at }
    ensures holds { HasTasks places.old regs.now → HoldsTasks places.new regs.now }
{
    for slot in 0..SLOTS {
        leave_at(&mut places[usize::from(slot)], regs, slot);
    }
}

// Forgets a task, unless its slot is as far as the engine left it.
fn keep_at(place: &mut Option<HeldTask>, regs: &Regs, slot: u8)
    requires { slot < 32 }
    ensures { place.new ≡ kept (progress_of regs.now.ring slot) place.old }
{
    let moved_on = match place {
        Some(held) => !same(held.progress, regs.progress(slot)),
        None => false,
    };
    if moved_on {
        *place = None;
    }
}

// Notes how far the slot of a task is.
fn leave_at(place: &mut Option<HeldTask>, regs: &Regs, slot: u8)
    requires { slot < 32 }
    ensures { place.new ≡ left_at (progress_of regs.now.ring slot) place.old }
{
    if let Some(held) = place {
        held.progress = regs.progress(slot);
    }
}

// Whether two slots have come equally far.
pub(crate) fn same(a: Progress, b: Progress) -> bool
    ensures value { result ≡ same a b }
    ensures equal { IsTrue result ↔ (a ≡ b) }
{
    a == b
}
