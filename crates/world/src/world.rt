// A run between two events.
ghost use Rattle.std.specs.Prelude.{◌≡◌, ◌≤◌, IfOk};
ghost use Rattle.storage_model.specs.Faults.{AreRising, IsValidHits};
ghost use Rattle.storage_model.specs.Plan.{IsValidPlan};
ghost use Rattle.drv_core.specs.State.{layout_of};
ghost use Rattle.drv_ring.specs.Layout.{HasLayout};
ghost use Rattle.end_laws.specs.Ends.{IsFresh, lines_made};

use bus_link::ScriptLink;
use card_core::Card;
use cq_engine::Engine;
use cq_regs::Regs;
use cut_order::Order;
use drv_core::Driver;
use host_mem::HostMem;
use power_step::Pending;
use std::alloc::Global;
use std::marker::Model;
use storage_model::{Faults, NoMemory, Plan};
use world_state::Path;

/// The lines of a card that writes through: a write holds its blocks in them until it is kept.
const WORKING_LINES: u16 = 1024;

/// The path from the driver to the card, and the letters and `cut` lines of a fault text.
#[derive(Drop)]
pub struct World {
    pub(crate) path: Path,
    pub(crate) order: Order,
    pub(crate) pending: Pending,
}

impl Model for World {
    ghost use Rattle.world_steps.specs.World.{WorldState};

    ghost Value = { WorldState };

    ghost view = { λ it. record { path = it.path; order = it.order } };
}

impl World {
    /// A run before its first line, with the card off. It takes all its memory here. The faults of the array are no matter of it.
    ///
    /// # Errors
    ///
    /// `NoMemory` where the allocator has none.
    pub fn start(alloc: Global, plan: Plan, faults: Faults) -> Result<World, NoMemory>
        requires valid { IsValidPlan plan }
        requires hits { IsValidHits faults.bus }
        requires cuts { AreRising faults.cuts }
        ensures fresh { IfOk result (λ world. IsFresh plan faults world) }
    {
        let Faults {
            ready,
            bus,
            cuts,
            turns,
            ..
        } = faults;
        let card = Card::start(alloc, plan.depth, lines_of(&plan), plan.through)?;
        let driver = Driver::start(alloc, plan)?;
        let path = Path {
            mem: shared_memory(alloc, &driver)?,
            driver,
            regs: Regs::new(),
            engine: Engine::start(alloc)?,
            card,
            script: ScriptLink::start(alloc, bus, ready)?,
        };
        Ok(World {
            path,
            order: Order::start(cuts, turns),
            pending: Pending::start(alloc)?,
        })
    }

    /// The memory that driver and engine share.
    pub fn mem(&self) -> &HostMem
        ensures { result.now ≡ self.now.path.memory }
    {
        &self.path.mem
    }

    /// The registers of the host interface.
    pub fn regs(&self) -> &Regs
        ensures { result.now ≡ self.now.path.regs }
    {
        &self.path.regs
    }
}

// The memory of a driver's lists and buffers.
fn shared_memory(alloc: Global, driver: &Driver) -> Result<HostMem, NoMemory>
    requires valid { IsValidPlan driver.now.requests.plan }
    ensures fits { IfOk result (λ memory. HasLayout memory (layout_of driver.now.requests.plan)) }
{
    let layout = driver.layout();
    HostMem::start(alloc, layout.base, layout.size())
}

// The cache lines of a plan's card.
fn lines_of(plan: &Plan) -> u16
    requires { (1 ≤ plan.now.lines) × (plan.now.lines ≤ 1024) }
    ensures made { result ≡ lines_made plan.now }
    ensures some { 1 ≤ result }
    ensures most { result ≤ 1024 }
{
    if plan.through {
        WORKING_LINES
    } else {
        plan.lines
    }
}
