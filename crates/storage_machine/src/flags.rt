// Flags, of which the first that is up is at hand.
ghost use Rattle.std.specs.Prelude.{◌≡◌, ◌+◌, ◌<◌, ◌≤◌, ◌^◌, ℕ, false, true, IfOk, IfSome, get_or, length, position, replicate, slice_set};
ghost use Rattle.std.specs.List.{list_any, position_or_len};

use std::alloc::Global;
use std::marker::Model;
use storage_model::NoMemory;

/// Flags by place. The first that is up is found without a search.
#[derive(Drop)]
pub struct Flags {
    flags: Vec<bool>,
    /// The first place whose flag is up, or the number of places.
    first: usize,
}

impl Model for Flags {
    ghost use Rattle.std.specs.Prelude.{◌≡◌, Bool, List};
    ghost use Rattle.std.specs.List.{position_or_len};

    ghost Value = { List Bool };

    ghost view = { λ it. it.flags.items };

    ghost invariant = { λ it. it.first ≡ position_or_len (λ flag. flag) it.flags.items };
}

impl Flags {
    /// So many flags are up.
    pub fn all_up(alloc: Global, count: usize) -> Result<Self, NoMemory>
        ensures { IfOk result (λ flags. flags ≡ replicate count true) }
    {
        let flags = vec![in alloc; true; count]?;
        let first = first_from(flags.as_slice(), 0);
        Ok(Flags { flags, first })
    }

    /// Whether one is up.
    #[tactic(auto, using(crate::proofs::FirstFlags::first_any))]
    pub fn has_any(&self) -> bool
        ensures { result ≡ list_any (λ flag. flag) self.now }
    {
        self.first < self.flags.len()
    }

    /// The first place whose flag is up.
    pub fn first(&self) -> Option<usize>
        ensures place { result ≡ position (λ flag. flag) self.now }
        ensures fits { IfSome result (λ place. place < 2 ^ 63) }
    {
        if self.first < self.flags.len() {
            Some(self.first)
        } else {
            None
        }
    }

    /// The first place whose flag is up, or the number of places.
    pub fn start(&self) -> usize
        ensures { result ≡ position_or_len (λ flag. flag) self.now }
    {
        self.first
    }

    pub fn as_slice(&self) -> &[bool]
        ensures { result.now ≡ self.now }
    {
        self.flags.as_slice()
    }

    /// A flag goes up; a place outside changes nothing.
    pub fn raise(&mut self, place: usize)
        ensures { self.new ≡ slice_set self.old place true }
    {
        raise(self.flags.as_mut_slice(), &mut self.first, place);
    }

    /// A flag goes down.
    pub fn lower(&mut self, place: usize)
        ensures { self.new ≡ slice_set self.old place false }
    {
        lower(self.flags.as_mut_slice(), &mut self.first, place);
    }
}

// The first place from `from` on whose flag is up, or the number of places.
fn first_from(flags: &[bool], from: usize) -> usize
    requires within { from ≤ length flags.now }
    requires before { (place : ℕ) → place < from → get_or flags.now place false ≡ false }
    ensures { result ≡ position_or_len (λ flag. flag) flags.now }
{
    let mut place = from;
    while place < flags.len() && !flags[place] {
        place += 1;
    }
    place
}

fn raise(flags: &mut [bool], first: &mut usize, place: usize)
    requires { first.old ≡ position_or_len (λ flag. flag) flags.old }
    ensures flags { flags.new ≡ slice_set flags.old place true }
    ensures first { first.new ≡ position_or_len (λ flag. flag) flags.new }
{
    if place < flags.len() {
        flags[place] = true;
        *first = place.min(*first);
    }
}

fn lower(flags: &mut [bool], first: &mut usize, place: usize)
    requires { first.old ≡ position_or_len (λ flag. flag) flags.old }
    ensures flags { flags.new ≡ slice_set flags.old place false }
    ensures first { first.new ≡ position_or_len (λ flag. flag) flags.new }
{
    if place < flags.len() {
        flags[place] = false;
        if place == *first {
            *first = first_from(flags, place + 1);
        }
    }
}
