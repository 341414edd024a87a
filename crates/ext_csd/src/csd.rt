ghost use Rattle.std.specs.Prelude.{◌≡◌, ◌≤◌, ◌↔◌, true, false, Some, None, IsErr, IfOk, OnOk, OnErr};
ghost use Rattle.ext_csd.specs.Values.{value_of, fresh, powered_off};
ghost use Rattle.ext_csd.specs.Switch.{switched, accepted, ReadsNew, KeepsOthers};

use crate::switch::{ACCESS, INDEX, VALUE, part_of, writable_at, written};
use crate::{Change, Field, Reading, SwitchError};

/// The extended CSD of a card, by what can differ: what the card was made with, and what a SWITCH has turned on.
#[derive(Clone, Copy, Debug, PartialEq, Eq)]
pub struct ExtCsd {
    /// The sectors of the card.
    pub sectors: u32,
    /// The last task that its queue holds, which is the depth of the queue less one.
    pub last_task: u8,
    /// The lines of its cache, of a sector each.
    pub lines: u16,
    /// Whether command queueing is on (CMDQ_MODE_EN).
    pub command_queue: bool,
    /// Whether barriers are on (BARRIER_CTRL).
    pub barrier: bool,
    /// Whether the cache is on (CACHE_CTRL).
    pub cache: bool,
}

impl ExtCsd {
    /// The extended CSD after power-on, with all that a SWITCH can turn on being off.
    pub fn new(sectors: u32, depth: u8, lines: u16) -> ExtCsd
        requires tasks { (1 ≤ depth) × (depth ≤ 31) }
        requires room { (1 ≤ lines) × (lines ≤ 1024) }
        ensures { result ≡ fresh sectors depth lines }
    {
        ExtCsd {
            sectors,
            last_task: depth - 1,
            lines,
            command_queue: false,
            barrier: false,
            cache: false,
        }
    }

    /// What a field reads as.
    pub fn get(&self, field: Field) -> u32
        ensures { result ≡ value_of self.now field }
    {
        match field.row().reads {
            Reading::Fixed(value) => value,
            Reading::CommandQueue => u32::from(self.command_queue),
            Reading::Barrier => u32::from(self.barrier),
            Reading::Cache => u32::from(self.cache),
            Reading::Sectors => self.sectors,
            Reading::CacheSize => 4 * u32::from(self.lines),
            Reading::QueueDepth => u32::from(self.last_task),
        }
    }

    /// At a loss of power all that a SWITCH has turned on is off again.
    pub fn power_off(&mut self)
        ensures { self.new ≡ powered_off self.old }
    {
        self.command_queue = false;
        self.barrier = false;
        self.cache = false;
    }

    /// Carries out a SWITCH (CMD6) with this argument, and answers what the card has to do besides. It is refused where no
    /// field that may be written stands at its index, where its access is 0, or where the new value is not allowed; then
    /// nothing has changed.
    ///
    /// With `Change::CacheOff` the cache is off in `self` already. As the cache is flushed first and stays on where that
    /// fails, the card switches a copy of its extended CSD, flushes, and takes the copy over once the flush has succeeded.
    pub fn switch(&mut self, arg: u32) -> Result<Change, SwitchError>
        ensures ok { IfOk result (λ change. switched self.old arg ≡ Some (record { csd = self.new; change = change })) }
        ensures refused { IsErr result ↔ (switched self.old arg ≡ None) }
        ensures err { OnErr result (self.new ≡ self.old) }
        ensures cache_off { (result ≡ Ok Change.CacheOff) ↔ ((self.old.cache ≡ true) × (self.new.cache ≡ false)) }
        ensures reads { OnOk result (ReadsNew self.old arg self.new) }
        ensures others { KeepsOthers self.old arg self.new }
    {
        self.carry_out(arg)
    }

    // Carries out a SWITCH, by its definition.
    #[tactic(auto, unfolding(crate::specs::Switch::switched))]
    fn carry_out(&mut self, arg: u32) -> Result<Change, SwitchError>
        ensures ok { IfOk result (λ change. switched self.old arg ≡ Some (record { csd = self.new; change = change })) }
        ensures refused { IsErr result ↔ (switched self.old arg ≡ None) }
        ensures err { OnErr result (self.new ≡ self.old) }
        ensures cache_off { (result ≡ Ok Change.CacheOff) ↔ ((self.old.cache ≡ true) × (self.new.cache ≡ false)) }
    {
        let Some(field) = writable_at(part_of(arg, INDEX)) else {
            return Err(SwitchError);
        };
        let Some(value) = written(part_of(arg, ACCESS), self.get(field), part_of(arg, VALUE)) else {
            return Err(SwitchError);
        };
        self.write(field, value)
    }

    // Writes a new value into a field.
    fn write(&mut self, field: Field, value: u32) -> Result<Change, SwitchError>
        ensures ok { IfOk result (λ change. accepted self.old field value ≡ Some (record { csd = self.new; change = change })) }
        ensures refused { OnErr result (accepted self.old field value ≡ None) }
        ensures err { OnErr result (self.new ≡ self.old) }
    {
        let was_on = self.cache;
        match (field, value) {
            (Field::CmdqModeEn, 0 | 1) => self.command_queue = value == 1,
            (Field::BarrierCtrl, 0 | 1) => self.barrier = value == 1,
            (Field::CacheCtrl, 0 | 1) => self.cache = value == 1,
            (Field::FlushCache, 1) => return Ok(Change::Flush),
            (Field::FlushCache, 2) if self.barrier => return Ok(Change::Barrier),
            _ => return Err(SwitchError),
        }
        Ok(if was_on && !self.cache {
            Change::CacheOff
        } else {
            Change::Plain
        })
    }
}
