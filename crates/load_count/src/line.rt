// What is kept of a line under way.
ghost use Rattle.std.specs.Prelude.{◌≡◌};
ghost use Rattle.load_count.specs.Lines.{at_start, begun, seen};

/// How many words of the line began, the first letters of the first two, and whether a word goes on.
#[derive(Clone, Copy, Debug, Drop)]
pub struct Line {
    pub words: u8,
    pub first: u8,
    pub second: u8,
    pub within: bool,
}

impl Line {
    /// A line that hasn't begun.
    pub fn new() -> Self
        ensures { result ≡ at_start }
    {
        Line {
            words: 0,
            first: 0,
            second: 0,
            within: false,
        }
    }

    /// A byte that isn't the line feed.
    #[tactic(auto, unfolding(crate::specs::Lines::seen))]
    pub fn see(&mut self, byte: u8)
        ensures { self.new ≡ seen self.old byte }
    {
        if byte == b' ' {
            self.within = false;
        } else if !self.within {
            self.begin(byte);
        }
    }

    // A word begins.
    #[tactic(auto, unfolding(crate::specs::Lines::begun))]
    fn begin(&mut self, letter: u8)
        ensures { self.new ≡ begun self.old letter }
    {
        if self.words == 0 {
            self.first = letter;
        }
        if self.words == 1 {
            self.second = letter;
        }
        self.words = self.words.saturating_add(1);
        self.within = true;
    }
}
