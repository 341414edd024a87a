// The descriptors of jobs.
ghost use Rattle.std.specs.Prelude.{◌≡◌};
ghost use Rattle.drv_ring.specs.Task.{read_desc, status_desc, switch_desc, write_desc};

use cmd_words::index::{SEND_STATUS, SWITCH};
use cq_desc::{DirectDesc, TaskDesc};

/// The response type of R1.
pub const RESPONSE_R1: u8 = 2;

/// The response type of R1b: the card is busy until the command is carried out.
pub const RESPONSE_R1B: u8 = 3;

/// The argument of a SWITCH that writes the byte 1 to FLUSH_CACHE, index 32 of the extended CSD, in the command set 1:
/// what the cache holds is on flash when it completes.
pub const FLUSH_CACHE: u32 = 0x0320_0101;

/// The argument of a SWITCH that writes the byte 2 to FLUSH_CACHE: a barrier in the cache.
pub const SET_BARRIER: u32 = 0x0320_0201;

/// The argument of a SEND_STATUS for the device status: the card's relative address, which is 1, in its upper half.
pub const CARD: u32 = 0x0001_0000;

/// The task descriptor of a read.
pub(crate) fn read_desc(sector: u32, blocks: u16, high: bool, int: bool) -> TaskDesc
    ensures { result ≡ read_desc sector blocks high int }
{
    TaskDesc {
        int,
        forced: false,
        context: 0,
        tag: false,
        read: true,
        high,
        barrier: false,
        reliable: false,
        blocks,
        start: sector,
    }
}

/// The task descriptor of a write.
pub(crate) fn write_desc(
    sector: u32,
    blocks: u16,
    forced: bool,
    reliable: bool,
    high: bool,
    int: bool,
) -> TaskDesc
    ensures { result ≡ write_desc sector blocks forced reliable high int }
{
    TaskDesc {
        int,
        forced,
        context: 0,
        tag: false,
        read: false,
        high,
        barrier: false,
        reliable,
        blocks,
        start: sector,
    }
}

/// The direct command of a SWITCH.
pub(crate) fn switch_desc(arg: u32, int: bool) -> DirectDesc
    ensures { result ≡ switch_desc arg int }
{
    DirectDesc {
        int,
        barrier: true,
        index: SWITCH,
        timing: false,
        resp: RESPONSE_R1B,
        arg,
    }
}

/// The direct command that asks for the device status.
pub(crate) fn status_desc(int: bool) -> DirectDesc
    ensures { result ≡ status_desc int }
{
    DirectDesc {
        int,
        barrier: true,
        index: SEND_STATUS,
        timing: true,
        resp: RESPONSE_R1,
        arg: CARD,
    }
}
