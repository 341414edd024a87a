// Numbers that look random.
ghost use Rattle.std.specs.Prelude.{◌≡◌, ◌/◌};
ghost use Rattle.load_generator.specs.Draws.{moved};

/// A linear congruential generator of 32 bits.
#[derive(Drop)]
pub struct Draws {
    pub x: u32,
}

impl Draws {
    /// Moves on, and gives the upper half of the new number.
    pub fn next(&mut self) -> u16
        ensures moved { self.new.x ≡ moved self.old.x }
        ensures drawn { result ≡ moved self.old.x / 65536 }
    {
        let x = (1_664_525 * u64::from(self.x) + 1_013_904_223) % 4_294_967_296;
        self.x = x as u32;
        (self.x / 65_536) as u16
    }
}
