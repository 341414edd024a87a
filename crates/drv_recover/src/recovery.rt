ghost use Rattle.std.specs.Prelude.{◌≡◌, ◌↔◌, IsTrue};
ghost use Rattle.cq_regs.specs.Effects.{controlled};
ghost use Rattle.drv_recover.specs.Ends.{Uses};
ghost use Rattle.drv_recover.specs.Recovery.{cleaned, Discards, IsQuiet};

use bus_link::{Link, LinkEnd};
use cmd_words::Command;
use cq_regs::Regs;
use std::marker::Model;
use storage_model::BusKind;

/// The offset of the control register (CQHCI_CTL).
const CONTROL: u8 = 0x0c;

/// The offset of the interrupt status (CQHCI_IS).
const INTERRUPT_STATUS: u8 = 0x10;

/// The offset of the completion notification (CQHCI_TCN).
const COMPLETION_NOTIFICATION: u8 = 0x2c;

/// Halts (CQHCI_HALT).
const HALT: u32 = 0x1;

/// Clears all tasks, and stays halted (CQHCI_CLEAR_ALL_TASKS with CQHCI_HALT).
const CLEAR_ALL_TASKS: u32 = 0x101;

/// Ends the halt.
const RESUME: u32 = 0;

/// Each bit of the interrupt status.
const ALL_INTERRUPTS: u32 = 0xf;

/// Where a recovery is.
#[derive(Clone, Copy, Debug, PartialEq, Eq)]
pub enum RecoveryState {
    /// None is under way.
    Calm,
    /// The host interface is halted.
    Halted,
    /// All tasks are cleared, and the engine's stop is over.
    Cleared,
    /// CMD48 for the whole queue was answered.
    Discarded,
    /// Interrupt status and completion notification are cleared.
    Cleaned,
    /// The host interface has resumed.
    Resumed,
}

/// What an event of a recovery did.
#[derive(Clone, Copy, Debug, PartialEq, Eq)]
pub enum Step {
    /// It wrote registers.
    Moved,
    /// CMD48 was answered: the queue of the card is discarded.
    Discard,
    /// CMD48 met a fault of the bus, and is to be sent again.
    Again(BusKind),
    /// The card lost its power, or had none.
    Dark,
    /// The recovery is over.
    Over,
}

/// The recovery of the host interface after a stop of the engine (cqhci_recovery_start and cqhci_recovery_finish of the
/// Linux driver).
#[derive(Debug, Drop)]
pub struct Recovery {
    state: RecoveryState,
}

impl Model for Recovery {
    ghost use Rattle.drv_recover.specs.declared.recovery.RecoveryState.{RecoveryState};

    ghost Value = { RecoveryState };

    ghost view = { λ it. it.state };
}

impl Recovery {
    ghost use Rattle.drv_recover.specs.declared.recovery.RecoveryState.TheVariants.{Calm, Discarded};
    ghost use Rattle.drv_recover.specs.declared.recovery.Step.TheVariants.{Over};
    ghost use Rattle.drv_recover.specs.Recovery.{Event, IsAt, IsOver};

    /// No recovery is under way.
    pub fn new() -> Recovery
        ensures { result ≡ Calm }
    {
        Recovery {
            state: RecoveryState::Calm,
        }
    }

    /// Where the recovery is.
    pub fn state(&self) -> RecoveryState
        ensures { result ≡ self.now }
    {
        self.state
    }

    /// Whether no recovery is under way.
    pub fn is_calm(&self) -> bool
        ensures { IsTrue result ↔ (self.now ≡ Calm) }
    {
        matches!(self.state, RecoveryState::Calm)
    }

    /// One event: the first begins a recovery, and the one that answers `Over` ends it.
    ///
    /// - `Calm`: halts.
    /// - `Halted`: clears all tasks, and with them the stop.
    /// - `Cleared`: sends CMD48 for the whole queue. A status word is an answer, also where it tells of an error. After a
    ///   fault of the bus, or without power, the next event sends it again.
    /// - `Discarded`: clears the interrupt status and the completion notification.
    /// - `Cleaned`: resumes.
    /// - `Resumed`: is over.
    ///
    /// Where between its events nothing else rings a slot, sets a bit of the completion notification, stops the engine or
    /// writes the control, it leaves no task rung, sent or notified, and the engine neither halted nor stopped.
    pub fn event<L: Link>(&mut self, regs: &mut Regs, link: &mut L) -> Step
        requires { L.fits link.old }
        ensures event { Event L.made link.old link.new self.old self.new regs.old regs.new result }
        ensures uses { Uses L.keeps L.fits L.state link.old link.new result }
        ensures quiet { self.old ≡ Discarded → IsQuiet regs.new }
        ensures at { IsAt self.old regs.old → IsAt self.new regs.new }
        ensures over { IsAt self.old regs.old → result ≡ Over → IsOver regs.new }
    {
        match self.state {
            RecoveryState::Calm => {
                write_control(regs, HALT);
                self.state = RecoveryState::Halted;
                Step::Moved
            }
            RecoveryState::Halted => {
                write_control(regs, CLEAR_ALL_TASKS);
                self.state = RecoveryState::Cleared;
                Step::Moved
            }
            RecoveryState::Cleared => {
                let step = discard_queue(link);
                if let Step::Discard = step {
                    self.state = RecoveryState::Discarded;
                }
                step
            }
            RecoveryState::Discarded => {
                clean(regs);
                self.state = RecoveryState::Cleaned;
                Step::Moved
            }
            RecoveryState::Cleaned => {
                write_control(regs, RESUME);
                self.state = RecoveryState::Resumed;
                Step::Moved
            }
            RecoveryState::Resumed => {
                self.state = RecoveryState::Calm;
                Step::Over
            }
        }
    }
}

// Writes the control register.
fn write_control(regs: &mut Regs, value: u32)
    ensures { regs.new ≡ controlled regs.old value }
{
    let _ = regs.write(CONTROL, value);
}

// Clears the interrupt status and the completion notification.
fn clean(regs: &mut Regs)
    ensures after { regs.new ≡ cleaned regs.old }
    ensures quiet { IsQuiet regs.new }
{
    let _ = regs.write(INTERRUPT_STATUS, ALL_INTERRUPTS);
    let _ = regs.write(COMPLETION_NOTIFICATION, u32::MAX);
}

// Sends CMD48 for the whole queue.
fn discard_queue<L: Link>(link: &mut L) -> Step
    requires { L.fits link.old }
    ensures discards { Discards L.made link.old link.new result }
    ensures uses { Uses L.keeps L.fits L.state link.old link.new result }
{
    let discard = Command::Manage {
        whole: true,
        task: 0,
    };
    match link.exchange(&discard) {
        Ok(_) | Err(LinkEnd::Status(_)) => Step::Discard,
        Err(LinkEnd::Bus(kind)) => Step::Again(kind),
        Err(LinkEnd::Dark) => Step::Dark,
    }
}
