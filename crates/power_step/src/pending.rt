// The sectors that had a put pending when power was lost.
ghost use Rattle.std.specs.Prelude.{◌≡◌, ◌≤◌, ◌<◌, All, Err, IfSome, IsSome, OnOk, length, true, vec_capacity};
ghost use Rattle.storage_model.specs.Count.{Later, Rose};
ghost use Rattle.storage_model.specs.declared.ends.Halt.TheVariants.{SinkFailed};
ghost use Rattle.array_edge.specs.Array.{ArrayState};
ghost use Rattle.card_store.specs.Store.{Contents, IsFirstFrom, IsOpen, IsStore, Stands, has_put as has_put_there};
ghost use Rattle.left_laws.specs.Lines.{put_sectors};
ghost use Rattle.power_step.specs.Cut.{LeftWritten};

use crate::left::print_left;
use array_edge::Array;
use card_core::Card;
use card_store::CardStore;
use io_edge::Sink;
use std::alloc::Global;
use std::marker::Model;
use storage_model::{Halt, NoMemory};

/// The sectors of the largest image.
const MOST_SECTORS: usize = 65_536;

/// The sectors that had a put pending when power was lost, by number.
#[derive(Drop)]
pub struct Pending {
    sectors: Vec<u32>,
}

impl Model for Pending {
    ghost use Rattle.std.specs.Prelude.{ℕ, List, ◌≤◌, vec_capacity};

    ghost Value = { List ℕ };

    ghost view = { λ pending. pending.sectors.items };

    ghost invariant = { λ pending. 65536 ≤ vec_capacity pending.sectors };
}

impl Pending {
    /// None, with room for each sector of the largest image. No memory is taken later.
    ///
    /// # Errors
    ///
    /// `NoMemory` where the allocator has none.
    pub fn start(alloc: Global) -> Result<Pending, NoMemory> {
        Ok(Pending {
            sectors: Vec::with_capacity(alloc, MOST_SECTORS)?,
        })
    }

    /// Notes which sectors of a store have a put pending.
    pub fn note(&mut self, store: &CardStore)
        requires open { IsSome store.now.known }
        ensures noted { (c : Contents) → (array : ArrayState) → Stands c store.now array → self.new ≡ put_sectors c.pend (length c.base) }
        ensures below { All (λ sector. sector < 65536) self.new }
    {
        note_pending(store, &mut self.sectors);
    }

    /// Prints what the card shows of them.
    ///
    /// # Errors
    ///
    /// `OpenFault` where the array failed, and `SinkFailed` where the sink failed.
    pub fn print<A: Array, K: Sink>(
        &self,
        card: &mut Card,
        array: &mut A,
        out: &mut K,
    ) -> Result<(), Halt>
        requires open { IsOpen card.old.store (A.state array.old) }
        requires powered { (A.state array.old).powered ≡ true }
        ensures left { LeftWritten K.took self.now out.old card.old (A.state array.old) result out.new card.new (A.state array.new) }
        ensures store { OnOk result (IsStore card.new.store) }
        ensures faults { Later (K.faults out.old) (K.faults out.new) }
        ensures failed { result ≡ Err SinkFailed → Rose (K.faults out.old) (K.faults out.new) }
    {
        print_left(self.sectors.as_slice(), card, array, out)
    }
}

// The pending sectors of a store, by number, in a list that has room for them.
fn note_pending(store: &CardStore, sectors: &mut Vec<u32>)
    requires open { IsSome store.now.known }
    requires room { 65536 ≤ vec_capacity sectors.old }
    ensures room { 65536 ≤ vec_capacity sectors.new }
    ensures noted { (c : Contents) → (array : ArrayState) → Stands c store.now array → sectors.new.items ≡ put_sectors c.pend (length c.base) }
    ensures below { All (λ sector. sector < 65536) sectors.new.items }
{
    sectors.clear();
    let mut from = 0;
    while let Some(sector) = pending_from(store, from) {
        sectors.push(sector).unwrap();
        from = sector + 1;
    }
}

// The first pending sector from `from` on, in front of the largest image's end.
fn pending_from(store: &CardStore, from: u32) -> Option<u32>
    requires open { IsSome store.now.known }
    ensures next { (c : Contents) → (array : ArrayState) → Stands c store.now array → IsFirstFrom (λ s. has_put_there s c.pend) from (length c.base) result }
    ensures from { IfSome result (λ sector. from ≤ sector) }
    ensures below { IfSome result (λ sector. sector < 65536) }
{
    prove!(store.sectors() <= 65536);
    match store.next_pending(from) {
        Some(sector) if from <= sector => Some(sector),
        _ => None,
    }
}
