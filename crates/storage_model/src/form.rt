// The form of an image.
ghost use Rattle.std.specs.Prelude.{◌≡◌, false};

/// The form of an image: the sectors of a unit, 1 or 8, which are programmed together; and whether each unit that is written
/// is an epoch of its own, so that the cache is flushed in the order of writing (JESD84-B51, CACHE_FLUSH_POLICY).
#[derive(Clone, Copy, Debug, PartialEq, Eq)]
pub struct Form {
    pub unit: u8,
    pub fifo: bool,
}

impl Form {
    /// Sectors by themselves, and no order among those of an epoch.
    pub fn first() -> Self
        ensures { result ≡ record { unit = 1; fifo = false } }
    {
        Form {
            unit: 1,
            fifo: false,
        }
    }
}
