ghost use Rattle.std.specs.Prelude.{◌≡◌, ◌≤◌, ◌<◌, ◌+◌, ◌↔◌, true, false, [], Some, None, Ok, IfOk, IfSome, OnOk, OnErr, IsErrOf, IsSome, is_ok};
ghost use Rattle.storage_model.specs.Keep.{every_sector};
ghost use Rattle.array_edge.specs.Array.{ArrayState};
ghost use Rattle.intent_store.specs.Calls.{Opens};
ghost use Rattle.intent_store.specs.Intent.{IsNoImage, ShowsImage, StartEnds, StoreEnds, shown_by};
ghost use Rattle.intent_store.specs.declared.ends.StartEnd.TheVariants.{BadImage};
ghost use Rattle.card_store.specs.declared.ends.StageEnd.TheVariants.{Empty};
ghost use Rattle.card_store.specs.Staging.{StageEnds, only_settled};
ghost use Rattle.card_store.specs.Store.{HasSector, HasSectors, IsOpen, IsSameStore, Reads, Stands, Turns, kept, same};
ghost use Rattle.task_queue.specs.Queue.{addressed};
ghost use Rattle.card_core.specs.Card.{HasPlace, HasStagedOne, HoldsNothing, blocks_of, idle_card, moved_blocks, sectors, set_up};
ghost use Rattle.card_core.specs.Moving.{Finishes, FindsRoom, GivesOut, TakesIn, finished, moved_on, phase_moving, write_to_keep};
ghost use Rattle.card_core.specs.Response.{FlushCache, IsBarred, IsFlush, Responds, Tell, accepted, address_response, execute_response, if_queueing, is_poll, manage_response, params_response, poll_response, response_to, switch_response, with_direct};
ghost use Rattle.card_core.specs.Serving.{IsKeptBy, block_end, word_end};

use crate::ends::{block_after, idle_word, word_after};
use crate::{BlockEnd, DIRECT_TASK, Dark, DataPhase, Phase};
use array_edge::Array;
use card_store::{CardStore, StageEnd};
use cmd_words::{Command, Status, Task};
use ext_csd::{Change, ExtCsd, SwitchError};
use intent_store::{StartEnd, StoreEnd};
use std::alloc::Global;
use std::marker::Model;
use storage_model::{Block, NoMemory, Put};
use task_queue::TaskQueue;

/// A card: the queue of its tasks, its extended CSD, the store of its sectors and the data phase that is open.
#[derive(Debug, Drop)]
pub struct Card {
    queue: TaskQueue,
    csd: ExtCsd,
    store: CardStore,
    phase: Option<DataPhase>,
    begun: Option<Phase>,
    depth: u8,
    lines: u16,
    through: bool,
}

impl Model for Card {
    ghost use Rattle.card_core.specs.Card.{CardState, IsCard};

    ghost Value = { CardState };

    ghost view = { λ c. record { queue = c.queue; csd = c.csd; store = c.store; phase = c.phase; begun = c.begun; depth = c.depth; lines = c.lines; through = c.through } };

    ghost invariant = { λ c. IsCard (record { queue = c.queue; csd = c.csd; store = c.store; phase = c.phase; begun = c.begun; depth = c.depth; lines = c.lines; through = c.through }) };
}

impl Card {
    /// A card without an open image, with a queue of this depth and a cache of so many lines, which is used unless the card
    /// writes through. The only error is want of memory.
    pub fn start(alloc: Global, depth: u8, lines: u16, through: bool) -> Result<Card, NoMemory>
        requires depth { (1 ≤ depth) × (depth ≤ 31) }
        requires lines { (1 ≤ lines) × (lines ≤ 1024) }
        ensures closed { IfOk result (λ card. card.store.known ≡ None) }
        ensures card { IfOk result (λ card. card ≡ idle_card depth lines through card.store) }
        ensures empty { IfOk result (λ card. card.store.cache ≡ record { lines = []; last = 0; room = lines }) }
    {
        Ok(Card {
            queue: TaskQueue::new(depth),
            csd: ExtCsd::new(0, depth, lines),
            store: CardStore::start(alloc, lines)?,
            phase: None,
            begun: None,
            depth,
            lines,
            through,
        })
    }

    /// Switches the card on: it opens the image on the array, and is set up as the driver does (JESD84-B51, section 7.4;
    /// mmc_init_card and mmc_cmdq_enable in Linux). Queue, phases and cached lines are forgotten, also where it is refused; then
    /// no image is open.
    pub fn boot<A: Array>(&mut self, array: &mut A) -> Result<(), StartEnd>
        ensures open { OnOk result (IsOpen self.new.store (A.state array.new)) }
        ensures ok { OnOk result (self.new ≡ record (idle_card self.old.depth self.old.lines self.old.through self.new.store) { csd = set_up self.old (sectors self.new) }) }
        ensures err { OnErr result (self.new ≡ idle_card self.old.depth self.old.lines self.old.through self.new.store) }
        ensures stands { OnOk result (IfSome (shown_by (A.state array.new)) (λ shown. Stands (record { base = shown; pend = [] }) self.new.store (A.state array.new))) }
        ensures closed { OnErr result (self.new.store.known ≡ None) }
        ensures room { self.new.store.cache ≡ record self.old.store.cache { lines = []; last = 0 } }
        ensures shown { shown_by (A.state array.new) ≡ shown_by (A.state array.old) }
        ensures image { ShowsImage (A.state array.old) → ShowsImage (A.state array.new) }
        ensures was_image { ShowsImage (A.state array.new) → ShowsImage (A.state array.old) }
        ensures bad { IsErrOf result BadImage → IsNoImage (A.state array.old) }
        ensures opened { OnOk result (ShowsImage (A.state array.old)) }
        ensures calls { Opens (record (A.state array.old) { powered = true }) (A.state array.new) (is_ok result) }
        ensures few { (A.state array.old).count < 2 → IsErrOf result BadImage × (A.state array.new ≡ record (A.state array.old) { powered = true }) }
        ensures ends { StartEnds (A.state array.old) (A.state array.new) result }
    {
        self.queue = TaskQueue::new(self.depth);
        self.csd = ExtCsd::new(0, self.depth, self.lines);
        self.phase = None;
        self.begun = None;
        self.store.boot(array)?;
        self.csd = ExtCsd {
            command_queue: true,
            barrier: true,
            cache: !self.through,
            ..ExtCsd::new(self.store.sectors(), self.depth, self.lines)
        };
        Ok(())
    }

    /// Carries out a command, and answers its status word, or the queue status word where it asks for that. `choice` has a
    /// bit for each task that is ready then.
    #[tactic(auto, unfolding(crate::specs::Response::response_to))]
    pub fn exchange<A: Array>(
        &mut self,
        command: &Command,
        choice: u32,
        array: &mut A,
    ) -> Result<u32, Dark>
        requires open { IsOpen self.old.store (A.state array.old) }
        ensures open { IsOpen self.new.store (A.state array.new) }
        ensures response { Responds (response_to self.old command.now choice) self.old (A.state array.old) self.new (A.state array.new) result }
        ensures settled { IsFlush (response_to self.old command.now choice) → IsKeptBy (A.state array.new) result }
        ensures ends { StoreEnds (A.state array.old) (A.state array.new) (word_end (is_poll command.now) result) }
    {
        match *command {
            Command::Switch { arg } => self.switch(arg, array),
            Command::Status { queue: false, .. } => Ok(self.status()),
            Command::Status { queue: true, .. } => Ok(self.poll(choice)),
            Command::Params(task) => Ok(self.params(task)),
            Command::Address(start) => Ok(self.address(start)),
            Command::Execute { read, task } => Ok(self.execute(read, task)),
            Command::Manage { whole, task } => Ok(self.manage(whole, task)),
            Command::Other { .. } => Ok(Status::ILLEGAL_COMMAND.word()),
        }
    }

    // CMD13 for the device status, a phase of its own.
    fn status(&mut self) -> u32
        ensures { accepted (with_direct self.old 1 false) ≡ Tell result self.new }
    {
        self.begin_direct(1, false);
        idle_word()
    }

    // CMD13 for the queue status word.
    fn poll(&mut self, choice: u32) -> u32
        ensures { if_queueing self.old (poll_response self.old choice) ≡ Tell result self.new }
    {
        if !self.csd.command_queue {
            return Status::ILLEGAL_COMMAND.word();
        }
        self.queue.make_ready(choice);
        self.queue.status_word()
    }

    // CMD44.
    fn params(&mut self, task: Task) -> u32
        ensures { if_queueing self.old (params_response self.old task) ≡ Tell result self.new }
    {
        if !self.csd.command_queue {
            return Status::ILLEGAL_COMMAND.word();
        }
        match self.queue.params(task) {
            Ok(()) => idle_word(),
            Err(_) => Status::ILLEGAL_COMMAND.word(),
        }
    }

    // CMD45.
    fn address(&mut self, start: u32) -> u32
        requires { IsSome self.old.store.known }
        ensures { if_queueing self.old (address_response self.old start) ≡ Tell result self.new }
    {
        if !self.csd.command_queue {
            return Status::ILLEGAL_COMMAND.word();
        }
        let Some(task) = address_task(&mut self.queue, start) else {
            return Status::ILLEGAL_COMMAND.word();
        };
        if u64::from(start) + u64::from(task.blocks) > u64::from(self.store.sectors()) {
            self.queue.discard(Some(task.task));
            return Status::ADDRESS_OUT_OF_RANGE.word();
        }
        idle_word()
    }

    // CMD46 and CMD47.
    fn execute(&mut self, read: bool, task: u8) -> u32
        ensures { if_queueing self.old (execute_response self.old read task) ≡ Tell result self.new }
    {
        if !self.csd.command_queue {
            return Status::ILLEGAL_COMMAND.word();
        }
        match self.queue.queued(task) {
            Some(queued) if queued.task.read == read => {}
            _ => return Status::ILLEGAL_COMMAND.word(),
        }
        let Ok(queued) = self.queue.take(task) else {
            return Status::ILLEGAL_COMMAND.word();
        };
        self.phase = Some(DataPhase {
            task: queued.task,
            start: queued.start,
            moved: 0,
        });
        self.begun = Some(Phase {
            task,
            count: 0,
            kept: false,
        });
        idle_word()
    }

    // CMD48.
    fn manage(&mut self, whole: bool, task: u8) -> u32
        ensures { if_queueing self.old (manage_response self.old whole task) ≡ Tell result self.new }
    {
        if !self.csd.command_queue {
            return Status::ILLEGAL_COMMAND.word();
        }
        self.queue.discard(if whole { None } else { Some(task) });
        self.phase = None;
        idle_word()
    }

    // CMD6.
    fn switch<A: Array>(&mut self, arg: u32, array: &mut A) -> Result<u32, Dark>
        requires open { IsOpen self.old.store (A.state array.old) }
        ensures open { IsOpen self.new.store (A.state array.new) }
        ensures response { Responds (switch_response self.old arg) self.old (A.state array.old) self.new (A.state array.new) result }
        ensures settled { IsFlush (switch_response self.old arg) → IsKeptBy (A.state array.new) result }
    {
        let mut csd = self.csd;
        match csd.switch(arg) {
            Err(SwitchError) => Ok(Status::SWITCH_ERROR.word()),
            Ok(Change::Plain) => Ok(self.set_csd(csd)),
            Ok(Change::Barrier) => Ok(self.set_barrier()),
            Ok(Change::Flush) => self.flush_cache(array),
            Ok(Change::CacheOff) => self.turn_cache_off(csd, array),
        }
    }

    // A SWITCH with nothing to do besides.
    fn set_csd(&mut self, csd: ExtCsd) -> u32
        ensures { accepted (record self.old { csd = csd }) ≡ Tell result self.new }
    {
        self.csd = csd;
        idle_word()
    }

    // The SWITCH that sets a barrier.
    fn set_barrier(&mut self) -> u32
        ensures known { self.new.store.known ≡ self.old.store.known }
        ensures barred { (array : ArrayState) → IsBarred (with_direct self.old 1 false) self.old array self.new array (Ok result) }
    {
        self.store.bar();
        self.begin_direct(1, false);
        idle_word()
    }

    // The SWITCH that flushes the cache.
    fn flush_cache<A: Array>(&mut self, array: &mut A) -> Result<u32, Dark>
        requires open { IsOpen self.old.store (A.state array.old) }
        ensures open { IsOpen self.new.store (A.state array.new) }
        ensures flushed { Responds (FlushCache (with_direct self.old 1 true) (with_direct self.old 0 false)) self.old (A.state array.old) self.new (A.state array.new) result }
        ensures settled { IsKeptBy (A.state array.new) result }
    {
        let end = self.store.flush(array);
        self.begin_direct(u16::from(end.is_ok()), end.is_ok());
        word_after(end)
    }

    // The SWITCH that turns the cache off, which stays on where the flush fails.
    fn turn_cache_off<A: Array>(&mut self, csd: ExtCsd, array: &mut A) -> Result<u32, Dark>
        requires open { IsOpen self.old.store (A.state array.old) }
        ensures open { IsOpen self.new.store (A.state array.new) }
        ensures flushed { Responds (FlushCache (record self.old { csd = csd }) self.old) self.old (A.state array.old) self.new (A.state array.new) result }
        ensures settled { IsKeptBy (A.state array.new) result }
    {
        let end = self.store.flush(array);
        if end.is_ok() {
            self.csd = csd;
        }
        word_after(end)
    }

    // A direct command is a phase of its own.
    fn begin_direct(&mut self, count: u16, kept: bool)
        ensures { self.new ≡ with_direct self.old count kept }
    {
        self.begun = Some(Phase {
            task: DIRECT_TASK,
            count,
            kept,
        });
    }

    /// Takes a block in. Where no write is open, or all its blocks moved, the block is dropped.
    pub fn block_in<A: Array>(&mut self, block: &Block, array: &mut A) -> Result<(), BlockEnd>
        requires open { IsOpen self.old.store (A.state array.old) }
        ensures open { IsOpen self.new.store (A.state array.new) }
        ensures block { TakesIn block.now self.old (A.state array.old) self.new (A.state array.new) result }
        ensures deferred { FindsRoom block.now self.old → (result ≡ Ok tt) × (A.state array.new ≡ A.state array.old) }
        ensures ends { StoreEnds (A.state array.old) (A.state array.new) (block_end result) }
    {
        let Some(phase) = self.phase_moving(false) else {
            return Ok(());
        };
        let put = Put {
            sector: phase.start + u32::from(phase.moved),
            value: *block,
            reliable: phase.task.reliable,
        };
        let end = self.store.put(&put, array);
        if end.is_ok() {
            self.count_block(phase);
        }
        block_after(Status::ERROR, end)
    }

    /// Gives a block out. Where no read is open, or all its blocks moved, it is zeros. After an error it is anything.
    pub fn block_out<A: Array>(&mut self, block: &mut Block, array: &mut A) -> Result<(), BlockEnd>
        requires open { IsOpen self.old.store (A.state array.old) }
        ensures open { IsOpen self.new.store (A.state array.new) }
        ensures block { GivesOut block.new self.old (A.state array.old) self.new (A.state array.new) result }
        ensures ends { StoreEnds (A.state array.old) (A.state array.new) (block_end result) }
    {
        let Some(phase) = self.phase_moving(true) else {
            *block = Block([0; 512]);
            return Ok(());
        };
        let sector = phase.start + u32::from(phase.moved);
        let end = self.store.read(sector, block, array);
        if end.is_ok() {
            self.count_block(phase);
        }
        block_after(Status::DEVICE_ECC_FAILED, end)
    }

    // The open data phase of this direction that has a block to come.
    fn phase_moving(&self, read: bool) -> Option<DataPhase>
        ensures value { result ≡ phase_moving self.now read }
        ensures inside { IfSome result (λ phase. HasSector self.now.store (phase.start + phase.moved)) }
        ensures open { IfSome result (λ phase. self.now.phase ≡ Some phase) }
        ensures small { IfSome result (λ phase. phase.start + phase.moved < 65536) }
    {
        let phase = self.phase?;
        prove!(self.store.sectors() <= 65536);
        if phase.task.read == read && phase.moved < phase.task.blocks {
            Some(phase)
        } else {
            None
        }
    }

    // A block of the open data phase has moved.
    fn count_block(&mut self, phase: DataPhase)
        requires open { self.old.phase ≡ Some phase }
        requires more { phase.moved < phase.task.blocks }
        ensures { self.new ≡ moved_on self.old phase }
    {
        let moved = phase.moved + 1;
        self.phase = Some(DataPhase { moved, ..phase });
        if let Some(begun) = &mut self.begun {
            if begun.task == phase.task.task {
                begun.count = moved;
            }
        }
    }

    /// Ends the open data phase.
    pub fn finish<A: Array>(&mut self, array: &mut A) -> Result<u32, Dark>
        requires open { IsOpen self.old.store (A.state array.old) }
        ensures open { IsOpen self.new.store (A.state array.new) }
        ensures kept { Finishes self.old (A.state array.old) self.new (A.state array.new) result }
        ensures settled { IsSome (write_to_keep self.old) → IsKeptBy (A.state array.new) result }
        ensures ends { StoreEnds (A.state array.old) (A.state array.new) (word_end false result) }
    {
        let Some(phase) = self.write_to_keep() else {
            self.phase = None;
            return Ok(idle_word());
        };
        let end = self.store.keep(phase.start, phase.task.blocks, array);
        self.close(phase, end);
        word_after(end)
    }

    // The write that is kept when the open data phase ends.
    fn write_to_keep(&self) -> Option<DataPhase>
        ensures value { result ≡ write_to_keep self.now }
        ensures inside { IfSome result (λ phase. HasSectors self.now.store phase.start phase.task.blocks) }
    {
        let phase = self.phase?;
        let must_keep = phase.task.forced || phase.task.reliable || !self.csd.cache;
        if !phase.task.read && must_keep && phase.moved == phase.task.blocks {
            Some(phase)
        } else {
            None
        }
    }

    // Closes the data phase, whose write was kept or not.
    fn close(&mut self, phase: DataPhase, end: Result<(), StoreEnd>)
        ensures { self.new ≡ finished self.old phase end }
    {
        match end {
            Err(StoreEnd::PowerLost) => {}
            Err(StoreEnd::Flash) => self.phase = None,
            Ok(()) => {
                self.phase = None;
                if let Some(begun) = &mut self.begun {
                    if begun.task == phase.task.task {
                        begun.kept = true;
                    }
                }
            }
        }
    }

    /// Uses an idle moment of the card: its store stages the oldest line.
    pub fn idle<A: Array>(&mut self, array: &mut A) -> Result<(), StageEnd>
        requires open { IsOpen self.old.store (A.state array.old) }
        ensures open { IsOpen self.new.store (A.state array.new) }
        ensures card { self.new ≡ record self.old { store = self.new.store } }
        ensures store { IsSameStore self.old.store self.new.store }
        ensures ok { OnOk result (HasStagedOne self.old self.new) }
        ensures empty { IsErrOf result Empty ↔ HoldsNothing self.old }
        ensures none { IsErrOf result Empty → A.state array.new ≡ A.state array.old }
        ensures turns { Turns same self.old.store (A.state array.old) self.new.store (A.state array.new) }
        ensures ends { StageEnds (A.state array.old) (A.state array.new) result }
    {
        self.store.stage_one(array)
    }

    /// The phase that was begun last, once.
    pub fn take_phase(&mut self) -> Option<Phase>
        ensures value { result ≡ self.old.begun }
        ensures taken { self.new ≡ record self.old { begun = None } }
    {
        self.begun.take()
    }

    /// The store.
    pub fn store(&self) -> &CardStore
        ensures { result.now ≡ self.now.store }
    {
        &self.store
    }

    /// Reads a sector, as its store does.
    pub fn read<A: Array>(
        &mut self,
        sector: u32,
        block: &mut Block,
        array: &mut A,
    ) -> Result<(), StoreEnd>
        requires open { IsOpen self.old.store (A.state array.old) }
        requires sector { HasSector self.old.store sector }
        ensures open { IsOpen self.new.store (A.state array.new) }
        ensures card { self.new ≡ record self.old { store = self.new.store } }
        ensures store { IsSameStore self.old.store self.new.store }
        ensures ok { OnOk result (Reads self.old.store (A.state array.old) sector block.new) }
        ensures turns { Turns same self.old.store (A.state array.old) self.new.store (A.state array.new) }
        ensures cache { self.new.store.cache ≡ self.old.store.cache }
        ensures same { A.state array.new ≡ record (A.state array.old) { faults = (A.state array.new).faults; fetches = (A.state array.new).fetches } }
        ensures ends { StoreEnds (A.state array.old) (A.state array.new) result }
    {
        self.store.read(sector, block, array)
    }

    /// Flushes the store.
    pub fn flush<A: Array>(&mut self, array: &mut A) -> Result<(), StoreEnd>
        requires open { IsOpen self.old.store (A.state array.old) }
        ensures open { IsOpen self.new.store (A.state array.new) }
        ensures card { self.new ≡ record self.old { store = self.new.store } }
        ensures store { IsSameStore self.old.store self.new.store }
        ensures ok { OnOk result (Turns (kept every_sector) self.old.store (A.state array.old) self.new.store (A.state array.new)) }
        ensures empty { OnOk result (HoldsNothing self.new) }
        ensures settled { OnOk result ((A.state array.new).settled ≡ true) }
        ensures bare { HoldsNothing self.old → A.state array.new ≡ only_settled (A.state array.old) (A.state array.new) }
        ensures err { OnErr result (Turns same self.old.store (A.state array.old) self.new.store (A.state array.new)) }
        ensures ends { StoreEnds (A.state array.old) (A.state array.new) result }
    {
        self.store.flush(array)
    }

    /// The blocks of the queued task that CMD46 or CMD47 names; 0 where none is queued, and for every other command.
    pub fn blocks_of(&self, command: &Command) -> u16
        ensures { result ≡ blocks_of self.now command.now }
    {
        match *command {
            Command::Execute { task, .. } => {
                self.queue
                    .queued(task)
                    .map_or(0, |queued| queued.task.blocks)
            }
            _ => 0,
        }
    }

    /// The data phase that is open.
    pub fn phase(&self) -> Option<DataPhase>
        ensures { result ≡ self.now.phase }
    {
        self.phase
    }

    /// How many blocks of the open data phase moved; 0 where none is open.
    pub fn moved(&self) -> u16
        ensures { result ≡ moved_blocks self.now }
    {
        self.phase.map_or(0, |phase| phase.moved)
    }
}

// Queues the task that waits, from this start sector on, and answers it.
fn address_task(queue: &mut TaskQueue, start: u32) -> Option<Task>
    requires { HasPlace queue.old }
    ensures task { result ≡ queue.old.waiting }
    ensures queued { queue.new ≡ addressed queue.old start }
{
    let task = queue.address(start).ok()?;
    queue.queued(task).map(|queued| queued.task)
}
