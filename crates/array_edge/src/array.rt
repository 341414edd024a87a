ghost use Rattle.std.specs.Prelude.{◌≡◌, ◌||◌, ◌<◌, true, is_ok, length, IfSome, OnOk, OnErr};
ghost use Rattle.storage_model.specs.Count.{RaisedByOne};
ghost use Rattle.array_edge.specs.Array.{ArrayState, Ends, HasPage, IsTorn, IsUnsettled, with_page};

use storage_model::Block;

/// Why a call of an array did nothing whole: it failed, or the power is off.
#[derive(Clone, Copy, Debug, PartialEq, Eq)]
pub enum ArrayEnd {
    Failed,
    PowerLost,
}

/// An array of flash pages. Its meaning is one record: the pages where it tells them, their number, whether the power is
/// on, how often it failed and was cut, how many calls of `program` and of `fetch` came while the power was on, and whether
/// what was programmed is settled.
pub trait Array {
    ghost state: { Self → ArrayState };

    /// The number of pages, which never changes.
    fn pages(&self) -> u32
        ensures { result ≡ (state self.now).count };

    /// Reads a page. After an error the block has any contents.
    fn fetch(&mut self, page: u32, block: &mut Block) -> Result<(), ArrayEnd>
        requires { page < (state self.old).count }
        ensures read { OnOk result (HasPage (state self.old).told page block.new) }
        ensures same { state self.new ≡ record (state self.old) { faults = (state self.new).faults; fetches = (state self.new).fetches } }
        ensures number { (state self.old).powered ≡ true → RaisedByOne (state self.old).fetches (state self.new).fetches }
        ensures ends { Ends (state self.old) (state self.new) result };

    /// Writes a page. After an error each granule of it is old or new.
    fn program(&mut self, page: u32, block: &Block) -> Result<(), ArrayEnd>
        requires { page < (state self.old).count }
        ensures written { OnOk result ((state self.new).told ≡ with_page (state self.old).told page block.now) }
        ensures torn { OnErr result (IsTorn (state self.old).told page block.now (state self.new).told) }
        ensures same { state self.new ≡ record (state self.new) { count = (state self.old).count; fetches = (state self.old).fetches } }
        ensures unsettled { IsUnsettled (state self.old) (state self.new) result }
        ensures number { (state self.old).powered ≡ true → RaisedByOne (state self.old).programs (state self.new).programs }
        ensures ends { Ends (state self.old) (state self.new) result };

    /// Makes what was written durable: with `Ok` the array is settled. It changes no page.
    fn settle(&mut self) -> Result<(), ArrayEnd>
        ensures same { state self.new ≡ record (state self.old) { faults = (state self.new).faults; settled = is_ok result || (state self.old).settled } }
        ensures ends { Ends (state self.old) (state self.new) result };

    /// Switches the power on.
    fn power_on(&mut self)
        ensures { state self.new ≡ record (state self.old) { powered = true } };

    /// The pages that are told are as many as the array has.
    ghost told_count: { (array : Self) → IfSome (state array).told (λ pages. length pages ≡ (state array).count) };
}
