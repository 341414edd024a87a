ghost use Rattle.std.specs.Prelude.{◌≡◌, IfOk, IsSome, if◌then◌else◌};
ghost use Rattle.storage_model.specs.Faults.{IsValidHits};
ghost use Rattle.bus_link.specs.Hits.{befalls, hit_of, raised};

use crate::hits::{befalls, meet_hit};
use circular_buffer::HeapCircularBuffer;
use cmd_words::Command;
use std::alloc::Global;
use std::marker::Model;
use storage_model::{BusKind, HitList, NoMemory, WordList};

/// How many commands are remembered.
const REMEMBERED: usize = 32;

/// A bus with the faults and the words of polls that a script tells. It counts the commands and remembers the last 32.
#[derive(Drop)]
pub struct ScriptLink {
    hits: HitList,
    place: usize,
    ready: WordList,
    used: usize,
    sent: u32,
    faults: u64,
    hit: Option<BusKind>,
    recent: HeapCircularBuffer<(u8, u32)>,
}

impl Model for ScriptLink {
    ghost use Rattle.bus_link.specs.Script.{Script, IsKept};

    ghost Value = { Script };

    ghost view = { λ s. record { hits = s.hits; ready = s.ready; used = s.used; sent = s.sent; faults = s.faults; hit = s.hit; recent = s.recent.items } };

    ghost invariant = { λ s. IsKept s.hits s.place s.ready s.used s.sent s.recent.capacity };
}

impl ScriptLink {
    ghost use Rattle.storage_model.specs.Count.{Later, Rose};
    ghost use Rattle.bus_link.specs.Script.{armed, at_start, bus_count, newest, next_word, struck, word_used};

    /// A bus before its first command. The numbers of the faults count the commands from 1, and rise.
    ///
    /// # Errors
    ///
    /// `NoMemory` where there is none for the last commands.
    pub fn start(alloc: Global, hits: HitList, ready: WordList) -> Result<ScriptLink, NoMemory>
        requires { IsValidHits hits }
        ensures { IfOk result (λ link. link ≡ at_start hits ready) }
    {
        let recent = HeapCircularBuffer::with_capacity(alloc, REMEMBERED)?;
        Ok(ScriptLink {
            hits,
            place: 0,
            ready,
            used: 0,
            sent: 0,
            faults: 0,
            hit: None,
            recent,
        })
    }

    /// Counts and remembers a command, and answers its fault. `blocks` is how many blocks its data phase has. A fault that
    /// is not of its kind is passed over.
    pub fn arm(&mut self, command: &Command, blocks: u16) -> Option<BusKind>
        ensures answer { result ≡ hit_of self.old.hits (raised self.old.sent) command.now blocks }
        ensures after { self.new ≡ armed self.old command.now blocks }
    {
        self.sent = self.sent.saturating_add(1);
        self.recent.push_back(command.encode());
        self.hit = match meet_hit(self.hits.as_slice(), &mut self.place, self.sent) {
            Some(hit) => of_kind(hit.kind, command, blocks),
            None => None,
        };
        self.hit
    }

    /// The fault that `arm` answered last; None before.
    pub fn hit(&self) -> Option<BusKind>
        ensures { result ≡ self.now.hit }
    {
        self.hit
    }

    /// Counts the fault of the last command.
    pub fn strike(&mut self)
        requires { IsSome self.old.hit }
        ensures struck { self.new ≡ struck self.old }
        ensures rose { Rose (bus_count self.old) (bus_count self.new) }
        ensures later { Later (bus_count self.old) (bus_count self.new) }
    {
        self.faults = self.faults.saturating_add(1);
    }

    /// The tasks that the card makes ready at a poll: the next word of the script, and all ones where none is left.
    pub fn choice(&mut self) -> u32
        ensures word { result ≡ next_word self.old }
        ensures after { self.new ≡ word_used self.old }
    {
        match self.ready.as_slice().get(self.used) {
            Some(word) => {
                self.used += 1;
                *word
            }
            None => u32::MAX,
        }
    }

    /// The number of the last command, 0 before the first. A number that has come to the last of 32 bits stays.
    pub fn sent(&self) -> u32
        ensures { result ≡ self.now.sent }
    {
        self.sent
    }

    /// The index and the argument of the k-th newest of the last 32 commands, 0 the newest. None where there is none.
    pub fn recent(&self, k: u8) -> Option<(u8, u32)>
        ensures { result ≡ newest self.now.recent k }
    {
        self.recent.nth_back(usize::from(k)).copied()
    }
}

// The fault, where it is of the kind of the command.
fn of_kind(kind: BusKind, command: &Command, blocks: u16) -> Option<BusKind>
    ensures { result ≡ (if befalls kind command.now blocks then Some kind else None) }
{
    if befalls(kind, command, blocks) {
        Some(kind)
    } else {
        None
    }
}
