// Faults, and what is known of the order of their numbers.
ghost use Rattle.std.specs.Prelude.{◌≡◌, IsTrue};
ghost use Rattle.storage_model.specs.Faults.{AreRising};

use std::marker::Model;
use storage_model::Faults;

/// Faults, of which it is noted whether the numbers of the `cut` lines rise.
#[derive(Drop)]
pub struct Script {
    faults: Faults,
    rising: bool,
}

impl Model for Script {
    ghost use Rattle.std.specs.Prelude.{◌≡◌, true};
    ghost use Rattle.storage_model.specs.Faults.{AreRising};
    ghost use Rattle.storage_model.specs.declared.faults.Faults.{Faults};

    ghost Value = { Faults };

    ghost view = { λ it. it.faults };

    ghost invariant = { λ it. it.rising ≡ true → AreRising it.faults.cuts };
}

impl Script {
    /// It takes no memory.
    pub fn of(faults: Faults) -> Self
        ensures { result ≡ faults }
    {
        let rising = are_rising(faults.cuts.as_slice());
        Script { faults, rising }
    }

    pub fn faults(&self) -> &Faults
        ensures { result.now ≡ self.now }
    {
        &self.faults
    }

    /// Whether the numbers of the `cut` lines are known to rise.
    pub fn is_rising(&self) -> bool
        ensures { IsTrue result → AreRising self.now.cuts }
    {
        self.rising
    }
}

fn are_rising(numbers: &[u32]) -> bool
    ensures { IsTrue result → AreRising numbers.now }
{
    let mut place = 1;
    while place < numbers.len() {
        if numbers[place] <= numbers[place - 1] {
            return false;
        }
        place += 1;
    }
    true
}
