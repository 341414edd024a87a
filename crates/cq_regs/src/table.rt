ghost use Rattle.std.specs.Prelude.{◌≡◌, ◌==◌};
ghost use Rattle.std.specs.List.{find};
ghost use Rattle.cq_regs.specs.Table.{rows};

/// The registers of the host interface, under the names of the host interface annex of JESD84-B51.
#[derive(Clone, Copy, Debug, PartialEq, Eq)]
pub enum Register {
    /// CQHCI_VER
    Version,
    /// CQHCI_CAP
    Capabilities,
    /// CQHCI_CFG
    Configuration,
    /// CQHCI_CTL
    Control,
    /// CQHCI_IS
    InterruptStatus,
    /// CQHCI_ISTE
    InterruptStatusEnable,
    /// CQHCI_ISGE
    InterruptSignalEnable,
    /// CQHCI_IC
    InterruptCoalescing,
    /// CQHCI_TDLBA
    ListBase,
    /// CQHCI_TDLBAU
    ListBaseUpper,
    /// CQHCI_TDBR
    Doorbell,
    /// CQHCI_TCN
    CompletionNotification,
    /// CQHCI_DQS
    DeviceQueueStatus,
    /// CQHCI_DPT
    DevicePendingTasks,
    /// CQHCI_TCLR
    TaskClear,
    /// CQHCI_SSC1
    SendStatusConfiguration1,
    /// CQHCI_SSC2
    SendStatusConfiguration2,
    /// CQHCI_CRDCT
    DirectCommandResponse,
    /// CQHCI_RMEM
    ResponseErrorMask,
    /// CQHCI_TERRI
    TaskErrorInformation,
    /// CQHCI_CRI
    CommandResponseIndex,
    /// CQHCI_CRA
    CommandResponseArgument,
}

impl Register {
    ghost use Rattle.cq_regs.specs.Table.{offset_of};

    /// Where the register stands.
    pub fn offset(self) -> u8
        ensures { result ≡ offset_of self }
    {
        match self {
            Register::Version => 0x00,
            Register::Capabilities => 0x04,
            Register::Configuration => 0x08,
            Register::Control => 0x0c,
            Register::InterruptStatus => 0x10,
            Register::InterruptStatusEnable => 0x14,
            Register::InterruptSignalEnable => 0x18,
            Register::InterruptCoalescing => 0x1c,
            Register::ListBase => 0x20,
            Register::ListBaseUpper => 0x24,
            Register::Doorbell => 0x28,
            Register::CompletionNotification => 0x2c,
            Register::DeviceQueueStatus => 0x30,
            Register::DevicePendingTasks => 0x34,
            Register::TaskClear => 0x38,
            Register::SendStatusConfiguration1 => 0x40,
            Register::SendStatusConfiguration2 => 0x44,
            Register::DirectCommandResponse => 0x48,
            Register::ResponseErrorMask => 0x50,
            Register::TaskErrorInformation => 0x54,
            Register::CommandResponseIndex => 0x58,
            Register::CommandResponseArgument => 0x5c,
        }
    }
}

/// What a write of a register does.
#[derive(Clone, Copy, Debug, PartialEq, Eq)]
pub enum Access {
    /// Nothing.
    ReadOnly,
    /// The bits of the mask are stored, and the others read 0.
    Stored { mask: u32 },
    /// A 1 clears its bit.
    OneClears,
    /// An effect of the register's own.
    Acts,
}

/// A line of the table of registers: where a register stands, what it reads at reset, and what a write of it does.
#[derive(Clone, Copy, Debug, PartialEq, Eq)]
pub struct Row {
    pub offset: u8,
    pub register: Register,
    pub reset: u32,
    pub access: Access,
}

/// The table of registers, by offset. The offsets 3c and 4c are reserved.
pub const TABLE: [Row; 22] = [
    Row {
        offset: 0x00,
        register: Register::Version,
        reset: 0x510,
        access: Access::ReadOnly,
    },
    Row {
        offset: 0x04,
        register: Register::Capabilities,
        reset: 0,
        access: Access::ReadOnly,
    },
    Row {
        offset: 0x08,
        register: Register::Configuration,
        reset: 0,
        access: Access::Stored { mask: 0x1101 },
    },
    Row {
        offset: 0x0c,
        register: Register::Control,
        reset: 0,
        access: Access::Acts,
    },
    Row {
        offset: 0x10,
        register: Register::InterruptStatus,
        reset: 0,
        access: Access::OneClears,
    },
    Row {
        offset: 0x14,
        register: Register::InterruptStatusEnable,
        reset: 0,
        access: Access::Stored { mask: 0xf },
    },
    Row {
        offset: 0x18,
        register: Register::InterruptSignalEnable,
        reset: 0,
        access: Access::Stored { mask: 0xf },
    },
    Row {
        offset: 0x1c,
        register: Register::InterruptCoalescing,
        reset: 0,
        access: Access::Acts,
    },
    Row {
        offset: 0x20,
        register: Register::ListBase,
        reset: 0,
        access: Access::Stored { mask: 0xffff_ffff },
    },
    Row {
        offset: 0x24,
        register: Register::ListBaseUpper,
        reset: 0,
        access: Access::Stored { mask: 0xffff_ffff },
    },
    Row {
        offset: 0x28,
        register: Register::Doorbell,
        reset: 0,
        access: Access::Acts,
    },
    Row {
        offset: 0x2c,
        register: Register::CompletionNotification,
        reset: 0,
        access: Access::OneClears,
    },
    Row {
        offset: 0x30,
        register: Register::DeviceQueueStatus,
        reset: 0,
        access: Access::ReadOnly,
    },
    Row {
        offset: 0x34,
        register: Register::DevicePendingTasks,
        reset: 0,
        access: Access::ReadOnly,
    },
    Row {
        offset: 0x38,
        register: Register::TaskClear,
        reset: 0,
        access: Access::Acts,
    },
    Row {
        offset: 0x40,
        register: Register::SendStatusConfiguration1,
        reset: 0,
        access: Access::Stored { mask: 0xf_ffff },
    },
    Row {
        offset: 0x44,
        register: Register::SendStatusConfiguration2,
        reset: 0,
        access: Access::Stored { mask: 0xffff },
    },
    Row {
        offset: 0x48,
        register: Register::DirectCommandResponse,
        reset: 0,
        access: Access::ReadOnly,
    },
    Row {
        offset: 0x50,
        register: Register::ResponseErrorMask,
        reset: 0xc068_0080,
        access: Access::Stored { mask: 0xffff_ffff },
    },
    Row {
        offset: 0x54,
        register: Register::TaskErrorInformation,
        reset: 0,
        access: Access::ReadOnly,
    },
    Row {
        offset: 0x58,
        register: Register::CommandResponseIndex,
        reset: 0,
        access: Access::ReadOnly,
    },
    Row {
        offset: 0x5c,
        register: Register::CommandResponseArgument,
        reset: 0,
        access: Access::ReadOnly,
    },
];

/// The line of an offset; None where no register stands there.
pub fn row_at(offset: u8) -> Option<Row>
    ensures { result ≡ find (λ row. row.offset == offset) rows }
{
    TABLE.iter().copied().find(|row| row.offset == offset)
}
