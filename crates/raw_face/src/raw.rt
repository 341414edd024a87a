ghost use Rattle.std.specs.Prelude.{◌≡◌, ◌⊎◌, ◌≤◌, ◌<◌, ◌+◌, ◌-◌, ◌^◌, ℕ, [], None, IfOk, IfSome, OnOk, OnErr, IsErrOf, true};
ghost use Rattle.array_edge.specs.Array.{ArrayState};
ghost use Rattle.card_core.specs.Card.{idle_card, sectors, set_up};
ghost use Rattle.card_link.specs.Behind.{behind, link_state};
ghost use Rattle.card_store.specs.Store.{IsOpen, Stands as StoreStands};
ghost use Rattle.cq_engine.specs.Ends.{EventEnds};
ghost use Rattle.cq_engine.specs.Outcome.{stop_of};
ghost use Rattle.host_mem.specs.Memory.{Memory};
ghost use Rattle.intent_store.specs.Intent.{IsNoImage, ShowsImage, shown_by};
ghost use Rattle.raw_text.specs.Raw.{IsOp};
ghost use Rattle.raw_text.specs.declared.op.RawOp.TheVariants.{Discard, Fill, Peek, Poke, Read, Show, Write};
ghost use Rattle.raw_face.specs.Booting.{BootEnds};
ghost use Rattle.raw_machine.specs.Machine.{zeros};
ghost use Rattle.storage_model.specs.declared.ends.Halt.TheVariants.{SinkFailed};

use crate::access::{fill, peek, poke, read, write};
use crate::going::go;
use crate::print::{print, print_reply};
use crate::reply::Reply;
use crate::sector::{discard, flush, show};
use array_edge::Array;
use bus_link::ScriptLink;
use card_core::Card;
use card_events::engine_event;
use cq_engine::{Did, Engine};
use cq_regs::Regs;
use host_mem::HostMem;
use intent_store::StartEnd;
use io_edge::Sink;
use raw_machine::goes_on;
use raw_text::RawOp;
use std::alloc::Global;
use std::marker::Model;
use storage_model::{Halt, HitList, Item, NoMemory, WordList};

/// The depth of the card's queue.
const DEPTH: u8 = 31;

/// The lines of the card's cache.
const LINES: u16 = 64;

/// The first address of the memory, and how many bytes it has.
const MEMORY_BASE: u64 = 0x2000_0000;

const MEMORY_BYTES: u32 = 1_048_576;

/// A card, the engine that drives it, its registers and the host's memory. Contracts see it as a `Machine`.
#[derive(Drop)]
pub struct Raw {
    card: Card,
    engine: Engine,
    regs: Regs,
    mem: HostMem,
    script: ScriptLink,
}

impl Model for Raw {
    ghost use Rattle.raw_machine.specs.Machine.{Machine};

    ghost Value = { Machine };

    ghost view = { λ it. record { memory = it.mem; regs = it.regs; engine = it.engine; card = it.card; script = it.script } };
}

impl Raw {
    ghost use Rattle.raw_face.specs.Booting.{BootEnds, Boots, IsOn, switched_on};
    ghost use Rattle.raw_machine.specs.Machine.{Stands, moment, switched_off};
    ghost use Rattle.raw_face.specs.Operation.{Does, Finishes};
    ghost use Rattle.raw_face.specs.Output.{IsSinkCause};
    ghost use Rattle.raw_machine.specs.Running.{Happens, IsBelow, end_after, goes_on};

    /// A card of depth 31 with 64 cache lines, which is not switched on, registers at their reset values, an engine without
    /// a task, and 1,048,576 bytes of 0 from 0x20000000 on. No fault befalls the bus, and all queued tasks are ready at
    /// each poll.
    ///
    /// # Errors
    ///
    /// `NoMemory` where the allocator has none.
    pub fn start(alloc: Global) -> Result<Raw, NoMemory>
        ensures off { IfOk result (λ raw. raw ≡ switched_off raw.card.store) }
        ensures closed { IfOk result (λ raw. raw.card.store.known ≡ None) }
        ensures empty { IfOk result (λ raw. raw.card.store.cache ≡ record { lines = []; last = 0; room = 64 }) }
    {
        Ok(Raw {
            card: Card::start(alloc, DEPTH, LINES, false)?,
            engine: Engine::start(alloc)?,
            regs: Regs::new(),
            mem: memory(alloc, MEMORY_BASE, MEMORY_BYTES)?,
            script: ScriptLink::start(alloc, HitList::new(alloc), WordList::new(alloc))?,
        })
    }

    /// Switches the machine on: registers at their reset values, no task, and the card set up on the image of the array.
    /// Prints the line of the card. An opening that is cut begins again, at most 8 openings in a row. Where the card stays
    /// off nothing is printed, and no image is open. Where the sink fails the machine is on.
    ///
    /// # Errors
    ///
    /// `OpenFault` where the array failed, `PowerGone` where 8 openings in a row were cut, `BadImage` where the pages are no
    /// image, and `SinkFailed` where the sink failed.
    pub fn boot<A: Array, K: Sink>(&mut self, array: &mut A, out: &mut K) -> Result<(), Halt>
        ensures on { IsOn result → self.new ≡ switched_on self.old self.new }
        ensures stands { IsOn result → Stands self.new (A.state array.new) }
        ensures empty { IsOn result → self.new.card.store.cache ≡ record self.old.card.store.cache { lines = []; last = 0 } }
        ensures contents { IsOn result → IfSome (shown_by (A.state array.new)) (λ shown. StoreStands (record { base = shown; pend = [] }) self.new.card.store (A.state array.new)) }
        ensures closed { IsOn result ⊎ (self.new.card.store.known ≡ None) }
        ensures printed { Boots K.took out.old self.new.card result out.new }
        ensures shown { shown_by (A.state array.new) ≡ shown_by (A.state array.old) }
        ensures image { ShowsImage (A.state array.old) → ShowsImage (A.state array.new) }
        ensures was_image { ShowsImage (A.state array.new) → ShowsImage (A.state array.old) }
        ensures ends { BootEnds (A.state array.old) (A.state array.new) result }
        ensures sink { IsSinkCause (K.faults out.old) (K.faults out.new) result }
    {
        self.regs = Regs::new();
        self.engine.reset();
        open(&mut self.card, array)?;
        let card = Item::Card {
            sectors: self.card.store().sectors(),
            depth: DEPTH,
            lines: Some(LINES),
        };
        print(&card, out)
    }

    /// Carries out an operation, and prints its lines. Where the power is cut, `off dead` follows them and the script ends.
    ///
    /// # Errors
    ///
    /// `PowerGone` where the power was cut, and `SinkFailed` where the sink failed.
    #[tactic(auto, using(crate::proofs::Standing::open_image))]
    pub fn op<A: Array, K: Sink>(
        &mut self,
        op: &RawOp,
        array: &mut A,
        out: &mut K,
    ) -> Result<(), Halt>
        requires op { IsOp op.now }
        requires stands { Stands self.old (A.state array.old) }
        ensures does { Does K.took op.now (moment self.old (A.state array.old)) out.old result (moment self.new (A.state array.new)) out.new }
        ensures stands { OnOk result (Stands self.new (A.state array.new)) }
        ensures image { ShowsImage (A.state array.new) }
        ensures sink { IsSinkCause (K.faults out.old) (K.faults out.new) result }
    {
        match op {
            RawOp::Poke { at, bytes } => self.poke(*at, bytes.as_slice(), out),
            RawOp::Fill { at, len, value } => self.fill(*at, *len, *value, out),
            RawOp::Peek { at, len } => self.peek(*at, *len, out),
            RawOp::Write { reg, value } => self.write(*reg, *value, out),
            RawOp::Read { reg } => self.read(*reg, out),
            RawOp::Go => go(self, array, out),
            RawOp::Show { sector } => self.show(*sector, array, out),
            RawOp::Discard => self.discard(array, out),
        }
    }

    // Writes bytes to the memory.
    fn poke<K: Sink>(&mut self, at: u64, bytes: &[u8], out: &mut K) -> Result<(), Halt>
        ensures does { (array : ArrayState) → Does K.took (Poke at bytes.now) (moment self.old array) out.old result (moment self.new array) out.new }
        ensures stands { (array : ArrayState) → Stands self.old array → Stands self.new array }
        ensures sink { IsSinkCause (K.faults out.old) (K.faults out.new) result }
    {
        print_reply(&poke(&mut self.mem, at, bytes), out)
    }

    // Writes a byte `len` times to the memory.
    fn fill<K: Sink>(&mut self, at: u64, len: u32, value: u8, out: &mut K) -> Result<(), Halt>
        requires { 1 ≤ len }
        ensures does { (array : ArrayState) → Does K.took (Fill at len value) (moment self.old array) out.old result (moment self.new array) out.new }
        ensures stands { (array : ArrayState) → Stands self.old array → Stands self.new array }
        ensures sink { IsSinkCause (K.faults out.old) (K.faults out.new) result }
    {
        print_reply(&fill(&mut self.mem, at, len, value), out)
    }

    // Shows bytes of the memory.
    fn peek<K: Sink>(&mut self, at: u64, len: u32, out: &mut K) -> Result<(), Halt>
        requires { len ≤ 512 }
        ensures same { self.new ≡ self.old }
        ensures does { (array : ArrayState) → Does K.took (Peek at len) (moment self.old array) out.old result (moment self.new array) out.new }
        ensures sink { IsSinkCause (K.faults out.old) (K.faults out.new) result }
    {
        print_reply(&peek(&self.mem, at, len), out)
    }

    // Writes a register.
    fn write<K: Sink>(&mut self, reg: u8, value: u32, out: &mut K) -> Result<(), Halt>
        ensures does { (array : ArrayState) → Does K.took (Write reg value) (moment self.old array) out.old result (moment self.new array) out.new }
        ensures stands { (array : ArrayState) → Stands self.old array → Stands self.new array }
        ensures sink { IsSinkCause (K.faults out.old) (K.faults out.new) result }
    {
        print_reply(&write(&mut self.regs, reg, value), out)
    }

    // Shows a register.
    fn read<K: Sink>(&mut self, reg: u8, out: &mut K) -> Result<(), Halt>
        ensures same { self.new ≡ self.old }
        ensures does { (array : ArrayState) → Does K.took (Read reg) (moment self.old array) out.old result (moment self.new array) out.new }
        ensures sink { IsSinkCause (K.faults out.old) (K.faults out.new) result }
    {
        print_reply(&read(&self.regs, reg), out)
    }

    // Shows a sector of the card.
    #[tactic(auto, using(crate::proofs::Standing::open_image))]
    fn show<A: Array, K: Sink>(
        &mut self,
        sector: u32,
        array: &mut A,
        out: &mut K,
    ) -> Result<(), Halt>
        requires stands { Stands self.old (A.state array.old) }
        ensures does { Does K.took (Show sector) (moment self.old (A.state array.old)) out.old result (moment self.new (A.state array.new)) out.new }
        ensures stands { OnOk result (Stands self.new (A.state array.new)) }
        ensures image { ShowsImage (A.state array.new) }
        ensures sink { IsSinkCause (K.faults out.old) (K.faults out.new) result }
    {
        print_reply(&show(&mut self.card, sector, array), out)
    }

    // Discards the queue of the card.
    #[tactic(auto, using(crate::proofs::Standing::open_image))]
    fn discard<A: Array, K: Sink>(&mut self, array: &mut A, out: &mut K) -> Result<(), Halt>
        requires stands { Stands self.old (A.state array.old) }
        ensures does { Does K.took Discard (moment self.old (A.state array.old)) out.old result (moment self.new (A.state array.new)) out.new }
        ensures stands { OnOk result (Stands self.new (A.state array.new)) }
        ensures image { ShowsImage (A.state array.new) }
        ensures sink { IsSinkCause (K.faults out.old) (K.faults out.new) result }
    {
        print_reply(&discard(&mut self.card, array), out)
    }

    /// Flushes the card's cache, and prints how the script ends: `off ok`, `off fault` where the array failed, or
    /// `off dead` where the power was cut.
    ///
    /// # Errors
    ///
    /// `OpenFault` where the array failed, `PowerGone` where the power was cut, and `SinkFailed` where the sink failed.
    #[tactic(auto, using(crate::proofs::Standing::open_image))]
    pub fn finish<A: Array, K: Sink>(&mut self, array: &mut A, out: &mut K) -> Result<(), Halt>
        requires stands { Stands self.old (A.state array.old) }
        ensures finishes { Finishes K.took (moment self.old (A.state array.old)) out.old result (moment self.new (A.state array.new)) out.new }
        ensures stands { OnOk result (Stands self.new (A.state array.new)) }
        ensures image { ShowsImage (A.state array.new) }
        ensures sink { IsSinkCause (K.faults out.old) (K.faults out.new) result }
    {
        print_reply(&flush(&mut self.card, array), out)
    }

    // One event of the engine.
    #[tactic(auto, using(crate::proofs::Standing::open_image))]
    pub(crate) fn event<A: Array>(&mut self, array: &mut A) -> Did
        requires stands { Stands self.old (A.state array.old) }
        ensures happens { Happens (moment self.old (A.state array.old)) result (moment self.new (A.state array.new)) }
        ensures stands { end_after result ≡ None → Stands self.new (A.state array.new) }
        ensures image { ShowsImage (A.state array.new) }
        ensures ends { EventEnds (link_state (behind self.old.card (A.state array.old) self.old.script)) (link_state (behind self.new.card (A.state array.new) self.new.script)) (stop_of result) }
    {
        engine_event(
            &mut self.engine,
            &mut self.regs,
            &mut self.mem,
            &mut self.card,
            &mut self.script,
            array,
        )
    }

    // Whether the engine goes on after an event.
    pub(crate) fn goes_on(&self, did: &Did) -> bool
        ensures value { result ≡ goes_on did.now self.now.regs }
        ensures below { IsBelow did.now self.now.regs }
    {
        goes_on(did, &self.regs)
    }
}

// So many bytes of 0 from an address on.
fn memory(alloc: Global, base: u64, count: u32) -> Result<HostMem, NoMemory>
    requires { base + count ≤ 2 ^ 64 - 1 }
    ensures { IfOk result (λ memory. memory ≡ zeros base count) }
{
    HostMem::start(alloc, base, count)
}

// Opens the card, at most 8 times.
fn open<A: Array>(card: &mut Card, array: &mut A) -> Result<(), Halt>
    ensures open { OnOk result (IsOpen card.new.store (A.state array.new)) }
    ensures powered { OnOk result ((A.state array.new).powered ≡ true) }
    ensures ok { OnOk result (card.new ≡ record (idle_card card.old.depth card.old.lines card.old.through card.new.store) { csd = set_up card.old (sectors card.new) }) }
    ensures empty { OnOk result (card.new.store.cache ≡ record card.old.store.cache { lines = []; last = 0 }) }
    ensures contents { OnOk result (IfSome (shown_by (A.state array.new)) (λ shown. StoreStands (record { base = shown; pend = [] }) card.new.store (A.state array.new))) }
    ensures closed { OnErr result (card.new.store.known ≡ None) }
    ensures shown { shown_by (A.state array.new) ≡ shown_by (A.state array.old) }
    ensures image { ShowsImage (A.state array.old) → ShowsImage (A.state array.new) }
    ensures was_image { ShowsImage (A.state array.new) → ShowsImage (A.state array.old) }
    ensures ends { BootEnds (A.state array.old) (A.state array.new) result }
    ensures sink { IsErrOf result SinkFailed → ⊥ }
{
    for opening in 0..8u32 {
        match card.boot(array) {
            Ok(()) => return Ok(()),
            Err(StartEnd::Flash) => return Err(Halt::OpenFault),
            Err(StartEnd::BadImage) => return Err(Halt::BadImage),
            Err(StartEnd::PowerLost) => {}
        }
    }
    Err(Halt::PowerGone)
}
