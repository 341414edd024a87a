//! The host driver: it issues requests, collects completed ones, and after a stop of the engine recovers and issues them anew
//! (drivers/mmc/host/cqhci-core.c). It knows registers, host memory and bus, and nothing of the card.
#![tactic(auto)]

mod act;
mod driver;
mod judge;
mod set_up;
mod work;

pub use act::{Act, Stop};
pub use driver::Driver;
pub use drv_jobs::Hold;
pub use set_up::LIST_BASE;
pub use work::Work;
