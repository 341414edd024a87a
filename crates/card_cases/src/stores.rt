ghost use Rattle.std.specs.Prelude.{◌≡◌};
ghost use Rattle.array_edge.specs.Memory.{array_of};
ghost use Rattle.card_store.specs.Store.{IsOpen};
ghost use Rattle.std.proofs.Props.{props};

use crate::images::image;
use array_edge::MemArray;
use card_store::{CardStore, StageEnd};
use std::alloc::Global;
use std::process::Abort;
use std::test::Fail;
use storage_model::{Block, Put};

/// A store of two lines over its image.
#[derive(Drop)]
struct Bench {
    store: CardStore,
    array: MemArray,
    ghost open: { IsOpen store (array_of array) } by { Prim.hlevel props },
}

impl Bench {
    fn start(alloc: Global) -> Result<Bench, Fail> {
        let mut array = image(alloc, &[])?;
        let mut store = CardStore::start(alloc, 2)?;
        store.boot(&mut array)?;
        Ok(Bench { store, array })
    }

    // A put of this byte, where the image has the sector.
    fn put(&mut self, sector: u32, byte: u8) -> bool {
        let value = Block([byte; 512]);
        let put = Put {
            sector,
            value,
            reliable: false,
        };
        sector < self.store.sectors() && self.store.put(&put, &mut self.array).is_ok()
    }

    fn bar(&mut self) {
        self.store.bar();
    }

    fn pending(&self, rt: &impl Abort, sector: u32) -> bool {
        assert!(rt; sector < self.store.sectors());
        self.store.pending(sector)
    }

    fn first(&mut self, rt: &impl Abort) -> Option<Block> {
        assert!(rt; self.store.sectors() == 8);
        let mut block = Block([0; 512]);
        self.store.read(0, &mut block, &mut self.array).ok()?;
        Some(block)
    }

    fn keep(&mut self, rt: &impl Abort, first: u32) -> bool {
        assert!(rt; first < self.store.sectors());
        self.store.keep(first, 1, &mut self.array).is_ok()
    }

    fn flush(&mut self) -> bool {
        self.store.flush(&mut self.array).is_ok()
    }

    fn stage_one(&mut self) -> Result<(), StageEnd> {
        self.store.stage_one(&mut self.array)
    }

    fn page(&self, k: usize) -> Option<Block> {
        self.array.contents().as_slice().get(k).copied()
    }
}

#[test]
fn full_cache_stages_the_oldest_line(rt: HostRuntime) -> Result<(), Fail> {
    let mut bench = Bench::start(rt.alloc())?;
    assert!(rt; bench.put(0, 0xaa));
    bench.bar();
    assert!(rt; bench.put(1, 0xbb));
    assert!(rt; bench.put(2, 0xcc));
    assert_eq!(rt; bench.page(8), Some(Block([0xaa; 512])));
    assert_eq!(rt; bench.first(&rt), Some(Block([0xaa; 512])));
    assert!(rt; bench.pending(&rt, 0));
    assert!(rt; bench.keep(&rt, 1));
    assert!(rt; !bench.pending(&rt, 1));
    assert!(rt; bench.flush());
    assert!(rt; !bench.pending(&rt, 2));
    assert_eq!(rt; bench.stage_one(), Err(StageEnd::Empty));
    Ok(())
}
