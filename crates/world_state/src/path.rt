// The way of a request from the driver to the card.
use bus_link::ScriptLink;
use card_core::Card;
use cq_engine::Engine;
use cq_regs::Regs;
use drv_core::Driver;
use host_mem::HostMem;
use std::marker::Model;

/// The host driver, the registers and the memory that it shares with the engine, the engine, and the card behind its bus.
#[derive(Drop)]
pub struct Path {
    pub driver: Driver,
    pub regs: Regs,
    pub mem: HostMem,
    pub engine: Engine,
    pub card: Card,
    pub script: ScriptLink,
}

impl Model for Path {
    ghost use Rattle.world_state.specs.Path.{PathState};

    ghost Value = { PathState };

    ghost view = { λ p. record { driver = p.driver; regs = p.regs; memory = p.mem; engine = p.engine; card = p.card; script = p.script } };
}
