ghost use Rattle.std.specs.Prelude.{◌≡◌, ◌==◌, ◌<◌, ◌≤◌, true, not, map, length, IfSome, IsTrue, if◌then◌else◌, slice_get};
ghost use Rattle.std.specs.Int.{bit_at, from_bool};
ghost use Rattle.std.specs.Int.RustNames.{bit_and, bit_or};
ghost use Rattle.std.specs.Option.{ok_or, option_map, option_map_or};
ghost use Rattle.cq_regs.specs.declared.table.Access.TheVariants.{Acts, OneClears};
ghost use Rattle.cq_regs.specs.declared.table.Register.TheVariants.{Doorbell};
ghost use Rattle.cq_regs.specs.declared.slots.Progress.TheVariants.{Idle};
ghost use Rattle.cq_regs.specs.Slots.{has_bit, is_rung, made_ready, next, progress_of, readied, waits, without, IsRing, Moves};
ghost use Rattle.cq_regs.specs.Table.{offset_of, row_at, rows};

use crate::coalesce::Coalescing;
use crate::slots::{Progress, Ring, is_set, slot_bit};
use crate::table::{Access, Register, Row, row_at};
use std::marker::Model;

/// No register stands at the offset.
#[derive(Clone, Copy, Debug, PartialEq, Eq)]
pub struct NoRegister;

/// `CQHCI_IS_HAC`, a bit of the interrupt status, of its enable and of its signal enable: the engine is halted.
pub const HALT_COMPLETE: u32 = 0x1;

/// `CQHCI_IS_TCC`: tasks completed, the notice.
pub const TASK_COMPLETE: u32 = 0x2;

/// `CQHCI_IS_RED`: the engine stopped for a response, or for the lack of one.
pub const RESPONSE_ERROR: u32 = 0x4;

/// `CQHCI_IS_TCL`: tasks were cleared.
pub const TASKS_CLEARED: u32 = 0x8;

/// The version that the host interface reports, 5.10 (CQHCI_VER).
const VERSION: u32 = 0x0510;

/// The registers of the host interface, with the stop of the engine and the slots that are rung.
#[derive(Debug, Drop)]
pub struct Regs {
    configuration: u32,
    halted: bool,
    stopped: bool,
    interrupts: u32,
    status_enable: u32,
    signal_enable: u32,
    coalescing: Coalescing,
    list_base: u32,
    list_base_upper: u32,
    ring: Ring,
    completed: u32,
    queue_status: u32,
    send_status_1: u32,
    send_status_2: u32,
    direct_response: u32,
    error_mask: u32,
    error_information: u32,
    response_index: u32,
    response_argument: u32,
}

impl Model for Regs {
    ghost use Rattle.cq_regs.specs.State.{Registers};

    ghost Value = { Registers };

    ghost view = { λ r. record {
      configuration = r.configuration;
      halted = r.halted;
      stopped = r.stopped;
      interrupts = r.interrupts;
      status_enable = r.status_enable;
      signal_enable = r.signal_enable;
      coalescing = r.coalescing;
      list_base = r.list_base;
      list_base_upper = r.list_base_upper;
      ring = r.ring;
      completed = r.completed;
      queue_status = r.queue_status;
      send_status_1 = r.send_status_1;
      send_status_2 = r.send_status_2;
      direct_response = r.direct_response;
      error_mask = r.error_mask;
      error_information = r.error_information;
      response_index = r.response_index;
      response_argument = r.response_argument;
    } };
}

impl Regs {
    ghost use Rattle.cq_regs.specs.Calm.{IsCalm};
    ghost use Rattle.cq_regs.specs.Effects.{acted, at_reset, belled, cleared, completed, controlled, counted_in, moved_on, noticed_if, notified, raised, response_error, stored, task_cleared, ticked_in, value_of, written, ClearsOnes, RingsSlots, ShowsSlots};

    /// The registers at reset.
    pub fn new() -> Regs
        ensures value { result ≡ at_reset }
        ensures reset { map (λ row. value_of result row.register) rows ≡ map (λ row. row.reset) rows }
    {
        Regs {
            configuration: 0,
            halted: false,
            stopped: false,
            interrupts: 0,
            status_enable: 0,
            signal_enable: 0,
            coalescing: Coalescing {
                enabled: false,
                threshold: 0,
                timeout: 0,
                counter: 0,
                timer: 0,
            },
            list_base: 0,
            list_base_upper: 0,
            ring: Ring::new(),
            completed: 0,
            queue_status: 0,
            send_status_1: 0,
            send_status_2: 0,
            direct_response: 0,
            error_mask: 0xc068_0080,
            error_information: 0,
            response_index: 0,
            response_argument: 0,
        }
    }

    /// What the register at an offset reads.
    ///
    /// # Errors
    ///
    /// `NoRegister` where the table has no register at the offset.
    pub fn read(&self, offset: u8) -> Result<u32, NoRegister>
        ensures answer { result ≡ ok_or (option_map (λ row. value_of self.now row.register) (row_at offset)) (record {}) }
        ensures slots { IfSome (row_at offset) (λ row. ShowsSlots self.now row.register (value_of self.now row.register)) }
    {
        match row_at(offset) {
            Some(row) => Ok(self.value(row.register)),
            None => Err(NoRegister),
        }
    }

    /// Writes the register at an offset.
    ///
    /// # Errors
    ///
    /// `NoRegister` where the table has no register at the offset. Nothing has changed then.
    pub fn write(&mut self, offset: u8, value: u32) -> Result<(), NoRegister>
        ensures answer { result ≡ ok_or (option_map (λ _. tt) (row_at offset)) (record {}) }
        ensures after { self.new ≡ option_map_or (λ row. written self.old row value) (row_at offset) self.old }
        ensures rings { IfSome (row_at offset) (λ row. row.access ≡ Acts → RingsSlots self.old row.register value self.new) }
        ensures ones { IfSome (row_at offset) (λ row. row.access ≡ OneClears → ClearsOnes self.old row.register value self.new) }
        // the tasks that are under way stay as they are, and no stop begins
        ensures calm { IsCalm self.old self.new }
    {
        match row_at(offset) {
            Some(row) => {
                self.put(row, value);
                Ok(())
            }
            None => Err(NoRegister),
        }
    }

    /// Writes a register by its name.
    pub fn set(&mut self, register: Register, value: u32)
        ensures { self.new ≡ option_map_or (λ row. written self.old row value) (row_at (offset_of register)) self.old }
    {
        let _ = self.write(register.offset(), value);
    }

    /// What a register reads. The bits of the doorbell are those of the rung slots, and the bits of the device pending tasks
    /// those of the sent ones.
    pub fn value(&self, register: Register) -> u32
        ensures value { result ≡ value_of self.now register }
        ensures slots { ShowsSlots self.now register result }
    {
        match register {
            Register::Version => VERSION,
            Register::Capabilities | Register::TaskClear => 0,
            Register::Configuration => self.configuration,
            Register::Control => u32::from(self.halted),
            Register::InterruptStatus => self.interrupts,
            Register::InterruptStatusEnable => self.status_enable,
            Register::InterruptSignalEnable => self.signal_enable,
            Register::InterruptCoalescing => self.coalescing.word(),
            Register::ListBase => self.list_base,
            Register::ListBaseUpper => self.list_base_upper,
            Register::Doorbell => self.ring.word(),
            Register::CompletionNotification => self.completed,
            Register::DeviceQueueStatus => self.queue_status,
            Register::DevicePendingTasks => self.ring.sent_word(),
            Register::SendStatusConfiguration1 => self.send_status_1,
            Register::SendStatusConfiguration2 => self.send_status_2,
            Register::DirectCommandResponse => self.direct_response,
            Register::ResponseErrorMask => self.error_mask,
            Register::TaskErrorInformation => self.error_information,
            Register::CommandResponseIndex => self.response_index,
            Register::CommandResponseArgument => self.response_argument,
        }
    }

    /// How far the task of a slot has come.
    pub fn progress(&self, slot: u8) -> Progress
        requires { slot < 32 }
        ensures { result ≡ progress_of self.now.ring slot }
    {
        self.ring.progress(slot)
    }

    /// The k-th slot that is rung, in order of ringing, 0 the first. None where k or fewer are rung.
    pub fn rung(&self, k: u8) -> Option<u8>
        ensures value { result ≡ option_map (λ r. r.slot) (slice_get self.now.ring k) }
        ensures below { IfSome result (λ slot. slot < 32) }
        ensures started { IfSome result (λ slot. is_rung (progress_of self.now.ring slot) ≡ true) }
        ensures ring { IsRing self.now.ring }
        ensures most { length self.now.ring ≤ 32 }
    {
        self.ring.nth(k)
    }

    /// Tells what the registers keep of the slots that are rung: each is below 32, none of them is idle, and none is twice
    /// among them, so that there are 32 at most. It does nothing.
    pub fn keeps_ring(&self)
        ensures ring { IsRing self.now.ring }
        ensures most { length self.now.ring ≤ 32 }
    {
        let _ = self.ring.nth(0);
    }

    /// Moves a slot on after its command was answered: a rung one is named, a named one is sent, a ready one is active, and
    /// its bit of the device queue status falls.
    pub fn advance(&mut self, slot: u8)
        requires below { slot < 32 }
        requires waits { IsTrue (waits (progress_of self.old.ring slot)) }
        ensures after { self.new ≡ moved_on self.old slot }
        ensures slots { Moves self.old.ring self.new.ring (λ other progress. if other == slot then next progress else progress) }
    {
        if self.ring.progress(slot) == Progress::Ready {
            self.queue_status &= !slot_bit(slot);
        }
        self.ring.advance(slot);
    }

    /// Takes the queue status word of a poll, and makes the sent slots of the word ready.
    pub fn polled(&mut self, word: u32)
        ensures after { self.new ≡ record self.old { queue_status = word; ring = made_ready self.old.ring word } }
        ensures slots { Moves self.old.ring self.new.ring (λ other progress. if has_bit word other then readied progress else progress) }
    {
        self.queue_status = word;
        self.ring.make_ready(word);
    }

    /// Drops the task of a slot, which is then idle.
    pub fn dropped(&mut self, slot: u8)
        requires { slot < 32 }
        ensures after { self.new ≡ record self.old { ring = without self.old.ring slot } }
        ensures slots { Moves self.old.ring self.new.ring (λ other progress. if other == slot then Idle else progress) }
    {
        self.ring.remove(slot);
    }

    /// Takes the response of a direct command.
    pub fn direct(&mut self, word: u32)
        ensures { self.new ≡ record self.old { direct_response = word } }
    {
        self.direct_response = word;
    }

    /// Completes the task of a slot, which is then idle. The task notice is set at once where `int` says so, else by the
    /// counter of the interrupt coalescing.
    pub fn complete(&mut self, slot: u8, int: bool)
        requires { slot < 32 }
        ensures after { self.new ≡ completed self.old slot int }
        ensures slots { Moves self.old.ring self.new.ring (λ other progress. if other == slot then Idle else progress) }
    {
        self.ring.remove(slot);
        self.completed |= slot_bit(slot);
        self.notify(int);
    }

    /// Stops the engine, with the task error information.
    pub fn stopped(&mut self, terri: u32)
        ensures { self.new ≡ raised (record self.old { stopped = true; error_information = terri }) response_error }
    {
        self.stopped = true;
        self.error_information = terri;
        self.raise(RESPONSE_ERROR);
    }

    /// Whether the engine has stopped, and all tasks were not cleared since.
    pub fn is_stopped(&self) -> bool
        ensures { result ≡ self.now.stopped }
    {
        self.stopped
    }

    /// Takes the index of a command of the engine, and the word that it was answered with.
    pub fn response(&mut self, index: u8, word: u32)
        ensures { self.new ≡ record self.old { response_index = index; response_argument = word } }
    {
        self.response_index = u32::from(index);
        self.response_argument = word;
    }

    /// A tick of the timer of the interrupt coalescing.
    pub fn tick(&mut self)
        ensures { self.new ≡ ticked_in self.old }
    {
        if self.coalescing.counter != 0 {
            self.coalescing = self.coalescing.ticked();
            self.notice_if(self.coalescing.is_timer_due());
        }
    }

    /// Whether the interrupt is signalled.
    pub fn signal(&self) -> bool
        ensures { result ≡ not (bit_and self.now.interrupts self.now.signal_enable == 0) }
    {
        self.interrupts & self.signal_enable != 0
    }

    // A write by the table.
    fn put(&mut self, row: Row, value: u32)
        ensures after { self.new ≡ written self.old row value }
        ensures rings { row.access ≡ Acts → RingsSlots self.old row.register value self.new }
        ensures ones { row.access ≡ OneClears → ClearsOnes self.old row.register value self.new }
    {
        match row.access {
            Access::ReadOnly => {}
            Access::Stored { mask } => self.store(row.register, value & mask),
            Access::OneClears => {
                let left = self.value(row.register) & !value;
                self.store(row.register, left);
            }
            Access::Acts => self.act(row.register, value),
        }
    }

    fn store(&mut self, register: Register, word: u32)
        ensures { self.new ≡ stored self.old register word }
    {
        match register {
            Register::Configuration => self.configuration = word,
            Register::InterruptStatus => self.interrupts = word,
            Register::InterruptStatusEnable => self.status_enable = word,
            Register::InterruptSignalEnable => self.signal_enable = word,
            Register::ListBase => self.list_base = word,
            Register::ListBaseUpper => self.list_base_upper = word,
            Register::CompletionNotification => self.completed = word,
            Register::SendStatusConfiguration1 => self.send_status_1 = word,
            Register::SendStatusConfiguration2 => self.send_status_2 = word,
            Register::ResponseErrorMask => self.error_mask = word,
            _ => {}
        }
    }

    fn act(&mut self, register: Register, value: u32)
        ensures after { self.new ≡ acted self.old register value }
        ensures rings { RingsSlots self.old register value self.new }
    {
        match register {
            Register::Control => self.control(value),
            Register::InterruptCoalescing => self.coalescing = self.coalescing.written(value),
            Register::Doorbell => self.ring_doorbell(value),
            Register::TaskClear => self.clear_tasks(value),
            _ => {}
        }
    }

    fn control(&mut self, value: u32)
        ensures { self.new ≡ controlled self.old value }
    {
        if !is_set(value, 0) {
            self.halted = false;
        } else if !self.halted {
            self.halted = true;
            self.raise(HALT_COMPLETE);
        } else if is_set(value, 8) {
            self.clear_all();
        }
    }

    fn clear_all(&mut self)
        ensures { self.new ≡ cleared self.old }
    {
        self.ring = Ring::new();
        self.stopped = false;
        self.raise(TASKS_CLEARED);
    }

    fn ring_doorbell(&mut self, value: u32)
        ensures after { self.new ≡ belled self.old value }
        ensures rings { RingsSlots self.old Doorbell value self.new }
    {
        if is_set(self.configuration, 0) {
            self.ring.ring(value);
        }
    }

    fn clear_tasks(&mut self, value: u32)
        ensures { self.new ≡ task_cleared self.old value }
    {
        if self.halted && value != 0 {
            self.ring.remove_all(value);
            self.raise(TASKS_CLEARED);
        }
    }

    // Sets a bit of the interrupt status, where its status is enabled.
    fn raise(&mut self, bit: u32)
        ensures { self.new ≡ raised self.old bit }
    {
        self.interrupts |= bit & self.status_enable;
    }

    fn notify(&mut self, int: bool)
        ensures { self.new ≡ notified self.old int }
    {
        if int {
            self.raise(TASK_COMPLETE);
        } else if self.coalescing.enabled {
            self.coalescing = self.coalescing.counted();
            self.notice_if(self.coalescing.is_counter_due());
        }
    }

    // Sets the task notice where counter or timer is due and the notice is enabled. They then begin anew.
    fn notice_if(&mut self, due: bool)
        ensures { self.new ≡ noticed_if self.old due }
    {
        if due && is_set(self.status_enable, 1) {
            self.raise(TASK_COMPLETE);
            self.coalescing = self.coalescing.restarted();
        }
    }
}
