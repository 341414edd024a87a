ghost use Rattle.std.specs.Prelude.{◌≡◌, ◌↔◌, ◌+◌, ◌*◌, ◌<◌, ◌≤◌, ◌^◌, IfSome, IsNone};
ghost use Rattle.cq_task.specs.Place.{are_direct, are_wide, is_direct, place_of};

use cq_words::BitField;

/// The number of slots.
pub const SLOTS: u8 = 32;

/// `DCMD_SLOT`: the slot that holds a direct command where these are enabled.
pub const DIRECT_SLOT: u8 = 31;

/// `CQHCI_TASK_DESC_SZ` of the register CQCFG: descriptors of 128 bits.
pub const WIDE_DESCRIPTORS: BitField = BitField { low: 8, width: 1 };

/// `CQHCI_DCMD` of the register CQCFG: slot 31 holds a direct command.
pub const DIRECT_COMMANDS: BitField = BitField { low: 12, width: 1 };

/// Where the task descriptor list stands, and how it reads (JESD84-B51, annex B).
#[derive(Clone, Copy, Debug, PartialEq, Eq)]
pub struct TaskList {
    /// The address of slot 0.
    pub base: u64,
    /// Descriptors are of 16 bytes; else of 8.
    pub wide: bool,
    /// Slot 31 holds a direct command.
    pub direct: bool,
}

impl TaskList {
    /// The list that the registers CQTDLBA, CQTDLBAU and CQCFG name.
    pub fn of_registers(tdlba: u32, tdlbau: u32, cfg: u32) -> TaskList
        ensures base { result.base ≡ tdlbau * 2 ^ 32 + tdlba }
        ensures wide { result.wide ≡ are_wide cfg }
        ensures direct { result.direct ≡ are_direct cfg }
    {
        TaskList {
            base: (u64::from(tdlbau) << 32) + u64::from(tdlba),
            wide: WIDE_DESCRIPTORS.is_set(u64::from(cfg)),
            direct: DIRECT_COMMANDS.is_set(u64::from(cfg)),
        }
    }

    /// Whether the slot holds a direct command.
    pub fn is_direct(self, slot: u8) -> bool
        ensures { result ≡ is_direct self slot }
    {
        self.direct && slot == DIRECT_SLOT
    }

    /// The address of a slot: none where it is at 2^64 or above.
    pub fn place_of(self, slot: u8) -> Option<u64>
        requires { slot < SLOTS }
        ensures value { IfSome result (λ place. place ≡ place_of self slot) }
        ensures none { IsNone result ↔ (2 ^ 64 ≤ place_of self slot) }
    {
        let size = if self.wide { 32 } else { 16 };
        self.base.checked_add(u64::from(slot) * size)
    }
}
