ghost use Rattle.std.specs.Prelude.{◌≡◌, false, IfOk};
ghost use Rattle.bus_link.specs.Link.{Call, LinkEnds, LinkState, TellsFlash, is_poll};
ghost use Rattle.bus_link.specs.Link.Call.{Closed, Exchanged, Gave, Took};

use cmd_words::Command;
use storage_model::{Block, BusKind};

/// Why a call of a link has no answer, or a data phase no further block.
#[derive(Clone, Copy, Debug, PartialEq, Eq)]
pub enum LinkEnd {
    /// A fault of the bus.
    Bus(BusKind),
    /// The card broke the data phase off, with this status word.
    Status(u32),
    /// The card lost its power, or had none.
    Dark,
}

/// Why the engine stopped.
#[derive(Clone, Copy, Debug, PartialEq, Eq)]
pub enum Cause {
    /// A fault of the bus in the command or the data phase of a slot; of none in a poll.
    Bus { kind: BusKind, slot: Option<u8> },
    /// A response, or the status word of a data phase, with an error bit that the response error mask names.
    Response { word: u32, slot: u8 },
    /// The card lost its power.
    Dark,
}

/// The bus from the host interface to a card (JESD84-B51, section 6.6.39). Its meaning is a relation: what each call makes of
/// the link. Beside it stand how often bus and flash failed and the power was cut, and whether the card has power.
pub trait Link {
    ghost made: { Self → Call → Self → Type 0 };

    /// The link after is that before, but for what it makes: what it borrows is the same.
    ghost keeps: { Self → Self → Type 0 };

    /// The card is set up, and fits what is behind it.
    ghost fits: { Self → Type 0 };

    ghost state: { Self → LinkState };

    /// Sends a command, and answers its response: a status word, or for a poll the queue status word.
    fn exchange(&mut self, command: &Command) -> Result<u32, LinkEnd>
        requires { fits self.old }
        ensures made { made self.old (Exchanged command.now result) self.new }
        ensures keeps { keeps self.old self.new }
        ensures fits { fits self.new }
        ensures ends { LinkEnds (state self.old) (state self.new) result }
        ensures flash { is_poll command.now ≡ false → IfOk result (TellsFlash (state self.old) (state self.new)) };

    /// Moves a block to the card.
    fn give(&mut self, block: &Block) -> Result<(), LinkEnd>
        requires { fits self.old }
        ensures made { made self.old (Gave block.now result) self.new }
        ensures keeps { keeps self.old self.new }
        ensures fits { fits self.new }
        ensures ends { LinkEnds (state self.old) (state self.new) result };

    /// Moves a block from the card. After an error the block has any contents.
    fn take(&mut self, block: &mut Block) -> Result<(), LinkEnd>
        requires { fits self.old }
        ensures made { made self.old (Took block.new result) self.new }
        ensures keeps { keeps self.old self.new }
        ensures fits { fits self.new }
        ensures ends { LinkEnds (state self.old) (state self.new) result };

    /// Ends the data phase, and answers the status word of its task.
    fn close(&mut self) -> Result<u32, LinkEnd>
        requires { fits self.old }
        ensures made { made self.old (Closed result) self.new }
        ensures keeps { keeps self.old self.new }
        ensures fits { fits self.new }
        ensures ends { LinkEnds (state self.old) (state self.new) result }
        ensures flash { IfOk result (TellsFlash (state self.old) (state self.new)) };

    /// A link that was not used is kept.
    ghost kept: { (link : Self) → keeps link link };

    /// Uses one after the other keep it.
    ghost kept_on: { (first second third : Self) → keeps first second → keeps second third → keeps first third };
}
