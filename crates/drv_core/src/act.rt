use drv_recover::Step;

/// Why a stop of the engine ended a request, if it did.
#[derive(Clone, Copy, Debug, PartialEq, Eq)]
pub enum Stop {
    /// No request is ended: all are issued again.
    Retry,
    /// The last fault of the bus that is borne named it.
    Bus,
    /// The flash failed.
    Flash,
    /// It ends past the last sector.
    Range,
}

/// What the driver did in an event. Requests are counted from 1.
#[derive(Clone, Copy, Debug, PartialEq, Eq)]
pub enum Act {
    /// There was nothing to do.
    Nothing,
    /// A request was issued with a tag.
    Issued { id: u32, tag: u8 },
    /// The requests of these tags were answered.
    Collected { mask: u32 },
    /// The engine has stopped: the request that it ends is answered, and a recovery begins.
    Failed { id: Option<u32>, why: Stop },
    /// A recovery took a step.
    Step(Step),
}
