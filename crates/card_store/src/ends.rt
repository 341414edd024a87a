/// Why no line was staged: none is held, the array failed, or the power was cut or off.
#[derive(Clone, Copy, Debug, PartialEq, Eq)]
pub enum StageEnd {
    Empty,
    Flash,
    PowerLost,
}
