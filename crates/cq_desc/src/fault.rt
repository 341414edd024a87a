/// Why a descriptor is refused. The reasons are tried in this order.
#[derive(Clone, Copy, Debug, PartialEq, Eq)]
pub enum DescFault {
    /// The valid bit is 0.
    NotValid,
    /// The act isn't one that such a descriptor may have, or a direct command's response type is the reserved one.
    BadAct,
}
