// The registers that are written before a run.
ghost use Rattle.std.specs.Prelude.{◌≡◌, ◌≤◌};
ghost use Rattle.cq_regs.specs.Coalesce.{ic_written};
ghost use Rattle.drv_core.specs.SetUp.{coalescing_word, configuration_word, set_up};
ghost use Rattle.drv_core.specs.State.{upper_base};

use cq_regs::Regs;
use storage_model::Plan;

/// The lower half of the address where the driver's lists and buffers stand in a run. Where descriptors are of 128 bits they
/// stand 4 GiB higher.
pub const LIST_BASE: u32 = 0x2000_0000;

/// The offset of the configuration (CQHCI_CFG).
const CONFIGURATION: u8 = 0x08;

/// The offset of the interrupt status enable (CQHCI_ISTE).
const STATUS_ENABLE: u8 = 0x14;

/// The offset of the interrupt signal enable (CQHCI_ISGE).
const SIGNAL_ENABLE: u8 = 0x18;

/// The offset of the interrupt coalescing (CQHCI_IC).
const COALESCING: u8 = 0x1c;

/// The offset of the lower half of the list's base (CQHCI_TDLBA).
const BASE: u8 = 0x20;

/// The offset of the upper half of the list's base (CQHCI_TDLBAU).
const BASE_UPPER: u8 = 0x24;

/// The offset of the card's address (CQHCI_SSC2).
const SEND_STATUS_2: u8 = 0x44;

/// The task notice of the interrupt status (CQHCI_IS_TCC).
const NOTICE: u32 = 0x2;

/// The card's relative address.
const CARD: u32 = 1;

/// Coalescing enabled, its threshold and timeout written, and a timeout of 1 (CQHCI_IC_ENABLE, CQHCI_IC_ICCTHWEN,
/// CQHCI_IC_ICTOVALWEN).
const COALESCED: u32 = 0x8000_8081;

/// Enabled, with direct commands (CQHCI_ENABLE, CQHCI_DCMD).
const ENABLED: u32 = 0x1001;

/// Enabled, with direct commands and descriptors of 128 bits (CQHCI_TASK_DESC_SZ).
const ENABLED_WIDE: u32 = 0x1101;

// The upper half of the list's base.
pub(crate) fn upper_base(wide: bool) -> u32
    ensures { result ≡ upper_base wide }
{
    if wide { 1 } else { 0 }
}

// The word of the interrupt coalescing.
fn coalescing_word(threshold: u8) -> u32
    requires { threshold ≤ 31 }
    ensures { result ≡ coalescing_word threshold }
{
    if threshold == 0 {
        0
    } else {
        COALESCED + 0x100 * u32::from(threshold)
    }
}

// Writes the registers of a plan.
pub(crate) fn set_up(plan: &Plan, regs: &mut Regs)
    requires { plan.now.coalesce ≤ 31 }
    ensures { regs.new ≡ set_up plan.now regs.old }
{
    enable_notice(regs);
    write_base(regs, plan.wide);
    let _ = regs.write(COALESCING, coalescing_word(plan.coalesce));
    enable(regs, plan.wide);
}

// The task notice is enabled and signalled, and the card's address is told.
fn enable_notice(regs: &mut Regs)
    ensures { regs.new ≡ record regs.old { status_enable = 2; signal_enable = 2; send_status_2 = 1 } }
{
    let _ = regs.write(STATUS_ENABLE, NOTICE);
    let _ = regs.write(SIGNAL_ENABLE, NOTICE);
    let _ = regs.write(SEND_STATUS_2, CARD);
}

// Where the task descriptor list stands.
fn write_base(regs: &mut Regs, wide: bool)
    ensures { regs.new ≡ record regs.old { list_base = LIST_BASE; list_base_upper = upper_base wide } }
{
    let _ = regs.write(BASE, LIST_BASE);
    if wide {
        let _ = regs.write(BASE_UPPER, 1);
    } else {
        let _ = regs.write(BASE_UPPER, 0);
    }
}

// The host interface is enabled.
fn enable(regs: &mut Regs, wide: bool)
    ensures { regs.new ≡ record regs.old { configuration = configuration_word wide } }
{
    if wide {
        let _ = regs.write(CONFIGURATION, ENABLED_WIDE);
    } else {
        let _ = regs.write(CONFIGURATION, ENABLED);
    }
}
