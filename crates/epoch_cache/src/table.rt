// Lines in order, each of which stays where it is in memory.
ghost use Rattle.std.specs.Prelude.{◌≡◌, ◌<◌, [], ◌∷◌, ◌++◌, IfOk, length, remove, slice_index, slice_index_or, slice_set};
ghost use Rattle.std.specs.List.{range_with_len};
ghost use Rattle.std.specs.VecDeque.{deque_len};
ghost use Rattle.epoch_cache.specs.Table.{Table};

use crate::Line;
use std::alloc::Global;
use std::collections::VecDeque;
use std::marker::Model;
use storage_model::{Block, NoMemory};

/// Lines in order. All memory is taken at the start. A line stays in its slot: what moves is its place in the order.
#[derive(Debug, Drop)]
pub struct LineTable {
    slots: Vec<Line>,
    // The slots of the lines held, in order, and after them the free ones.
    order: VecDeque<u16>,
    held: u16,
}

impl Model for LineTable {
    ghost use Rattle.epoch_cache.specs.Table.{Table, IsTable, table_of};

    ghost Value = { Table };

    ghost view = { λ t. table_of t.slots.items t.order.items t.held };

    ghost invariant = { λ t. IsTable t.slots.items t.order.items t.held };
}

impl LineTable {
    /// No lines, and room for so many.
    pub fn start(alloc: Global, room: u16) -> Result<LineTable, NoMemory>
        ensures { IfOk result (λ table. table ≡ record { lines = []; room = room }) }
    {
        let blank = Line {
            sector: 0,
            value: Block([0; 512]),
            whole: false,
            epoch: 0,
        };
        let slots = vec![in alloc; blank; usize::from(room)]?;
        let order = first_numbers(alloc, room)?;
        Ok(LineTable {
            slots,
            order,
            held: 0,
        })
    }

    /// How many lines are held.
    pub fn len(&self) -> u16
        ensures { result ≡ length self.now.lines }
    {
        self.held
    }

    /// How many lines fit.
    pub fn room(&self) -> u16
        ensures { result ≡ self.now.room }
    {
        self.slots.len() as u16
    }

    /// Line `k` in order.
    pub fn at(&self, k: u16) -> &Line
        requires { k < length self.now.lines }
        ensures { result.now ≡ slice_index_or self.now.lines k result.now }
    {
        &self.slots[usize::from(self.order[usize::from(k)])]
    }

    /// Puts a line in the place of line `k`.
    pub fn set(&mut self, k: u16, line: Line)
        requires { k < length self.old.lines }
        ensures { self.new ≡ record self.old { lines = slice_set self.old.lines k line } }
    {
        let slot = usize::from(self.order[usize::from(k)]);
        self.slots[slot] = line;
    }

    /// Adds a line at the end.
    pub fn push(&mut self, line: Line)
        requires { length self.old.lines < self.old.room }
        ensures { self.new ≡ record self.old { lines = self.old.lines ++ line ∷ [] } }
    {
        let slot = usize::from(self.order[usize::from(self.held)]);
        self.slots[slot] = line;
        self.held += 1;
    }

    /// Takes line `k` out. It moves no other line's bytes.
    pub fn remove(&mut self, k: u16)
        requires { k < length self.old.lines }
        ensures { self.new ≡ record self.old { lines = remove self.old.lines k } }
    {
        move_to_end(&mut self.order, usize::from(k));
        self.held -= 1;
    }

    /// Takes all lines out.
    pub fn clear(&mut self)
        ensures { self.new ≡ record self.old { lines = [] } }
    {
        self.held = 0;
    }
}

// Moves element `k` behind all others.
fn move_to_end(order: &mut VecDeque<u16>, k: usize)
    requires { k < deque_len order.old }
    ensures { order.new.items ≡ remove order.old.items k ++ slice_index order.old.items k ∷ [] }
{
    if let Some(slot) = order.remove(k) {
        order.push_back(slot).unwrap();
    }
}

// The numbers below `count`, in order.
fn first_numbers(alloc: Global, count: u16) -> Result<VecDeque<u16>, NoMemory>
    ensures { IfOk result (λ numbers. numbers.items ≡ range_with_len 0 count) }
{
    let mut numbers = VecDeque::with_capacity(alloc, usize::from(count))?;
    for number in 0..count {
        numbers.push_back(number)?;
    }
    Ok(numbers)
}
