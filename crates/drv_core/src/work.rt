// What is to do.
ghost use Rattle.std.specs.Prelude.{◌≡◌};
ghost use Rattle.drv_recover.specs.declared.recovery.RecoveryState.TheVariants.{Calm};
ghost use Rattle.drv_core.specs.State.{is_recovering};
ghost use Rattle.drv_core.specs.Work.{is_noticed, work_of};

use cq_regs::{Register, Regs};
use drv_recover::RecoveryState;

/// What the driver has to do.
#[derive(Clone, Copy, Debug, PartialEq, Eq)]
pub enum Work {
    /// The next step of a recovery.
    Recover,
    /// To collect completed requests.
    Collect,
    /// To answer for a stop of the engine, and to begin a recovery.
    Fail,
    /// To issue the next request, if there is one.
    Issue,
}

// The first that applies.
pub(crate) fn work_of(state: RecoveryState, regs: &Regs) -> Work
    ensures { result ≡ work_of state regs.now }
{
    match state {
        RecoveryState::Calm => calm_work(regs),
        _ => Work::Recover,
    }
}

// The first that applies where no recovery is under way.
fn calm_work(regs: &Regs) -> Work
    ensures { result ≡ work_of Calm regs.now }
{
    if is_noticed(regs) {
        Work::Collect
    } else if regs.is_stopped() {
        Work::Fail
    } else {
        Work::Issue
    }
}

// Whether completed tasks are to be collected.
fn is_noticed(regs: &Regs) -> bool
    ensures { result ≡ is_noticed regs.now }
{
    regs.value(Register::CompletionNotification) != 0 && (regs.signal() || regs.is_stopped())
}

// Whether a recovery is under way.
pub(crate) fn is_recovering(state: RecoveryState) -> bool
    ensures { result ≡ is_recovering state }
{
    match state {
        RecoveryState::Calm => false,
        _ => true,
    }
}
