// The argument of a SWITCH, and what it writes.
ghost use Rattle.std.specs.Prelude.{◌≡◌, ◌<◌, ◌≤◌, ◌^◌, IsTrue};
ghost use Rattle.cq_words.specs.Table.{is_in_word, number_in};
ghost use Rattle.ext_csd.specs.Switch.{writable_at, written};

use crate::Field;
use cq_words::BitField;

/// What a SWITCH that is not refused has the card do besides.
#[derive(Clone, Copy, Debug, PartialEq, Eq)]
pub enum Change {
    Plain,
    /// Keep all that is in the cache.
    Flush,
    /// Begin an epoch.
    Barrier,
    /// CACHE_CTRL goes from 1 to 0: keep all that is in the cache first.
    CacheOff,
}

/// A SWITCH is refused.
#[derive(Clone, Copy, Debug, PartialEq, Eq)]
pub struct SwitchError;

/// How the new value is made of the old one.
pub const ACCESS: BitField = BitField { low: 24, width: 2 };

/// The index of the field.
pub const INDEX: BitField = BitField { low: 16, width: 8 };

/// The value that is written, set or cleared.
pub const VALUE: BitField = BitField { low: 8, width: 8 };

/// The accesses; in Linux MMC_SWITCH_MODE_SET_BITS, MMC_SWITCH_MODE_CLEAR_BITS and MMC_SWITCH_MODE_WRITE_BYTE.
pub const SET_BITS: u32 = 1;

pub const CLEAR_BITS: u32 = 2;

pub const WRITE_BYTE: u32 = 3;

// What the argument has in one of these fields.
pub(crate) fn part_of(arg: u32, field: BitField) -> u32
    requires inside { IsTrue (is_in_word field) }
    requires byte { field.width ≤ 8 }
    ensures value { result ≡ number_in arg field }
    ensures fits { result < 2 ^ field.width }
{
    field.get(u64::from(arg)) as u32
}

// The field that may be written and stands at an index.
#[tactic(auto, unfolding(crate::specs::Switch::writable_at))]
pub(crate) fn writable_at(index: u32) -> Option<Field>
    ensures { result ≡ writable_at index }
{
    let at = |field: &Field| field.row().writable && u32::from(field.row().index) == index;
    Field::ALL.iter().copied().find(at)
}

// The new value of a field by the access. The access 0 has none.
pub(crate) fn written(access: u32, old: u32, value: u32) -> Option<u32>
    requires { value < 256 }
    ensures { result ≡ written access old value }
{
    match access {
        SET_BITS => Some(old | value),
        CLEAR_BITS => Some(old & (255 - value)),
        WRITE_BYTE => Some(value),
        _ => None,
    }
}
