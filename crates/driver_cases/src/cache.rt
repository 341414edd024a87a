use epoch_cache::{EpochCache, Full, Line};
use std::test::Fail;
use storage_model::{Block, Put};

fn filled(sector: u32, byte: u8, reliable: bool) -> Put {
    Put {
        sector,
        value: Block([byte; 512]),
        reliable,
    }
}

fn line(sector: u32, byte: u8, whole: bool, epoch: u32) -> Line {
    Line {
        sector,
        value: Block([byte; 512]),
        whole,
        epoch,
    }
}

#[test]
fn two_lines_over_a_barrier(rt: HostRuntime) -> Result<(), Fail> {
    let mut cache = EpochCache::start(rt.alloc(), 2)?;
    assert!(rt; cache.put(&filled(0, 0xaa, false)) == Ok(()));
    assert!(rt; cache.put(&filled(1, 0xbb, false)) == Ok(()));
    assert!(rt; cache.put(&filled(0, 0xcc, false)) == Ok(()));
    assert!(rt; cache.oldest_line() == Some(line(0, 0xcc, false, 0)));
    assert!(rt; cache.put(&filled(2, 0xee, false)) == Err(Full));
    cache.bar();
    assert!(rt; cache.put(&filled(0, 0xdd, false)) == Err(Full));
    assert!(rt; cache.has_lines());
    cache.drop_line();
    assert!(rt; cache.put(&filled(0, 0xdd, true)) == Ok(()));
    assert!(rt; cache.newest(0).copied() == Some(Block([0xdd; 512])));
    assert!(rt; cache.line_at(0) == Some(line(0, 0xdd, true, 1)));
    assert!(rt; cache.older());
    assert!(rt; cache.free_lines() == 0);
    assert!(rt; cache.oldest_at(0) == Some(line(1, 0xbb, false, 0)));
    assert!(rt; cache.oldest_at(1) == Some(line(0, 0xdd, true, 1)));
    assert!(rt; cache.oldest_at(2) == None);
    Ok(())
}

fn newest(cache: &EpochCache, sector: u32) -> Option<Block> {
    cache.newest(sector).copied()
}

#[test]
fn a_line_from_between_others(rt: HostRuntime) -> Result<(), Fail> {
    let mut cache = EpochCache::start(rt.alloc(), 4)?;
    assert!(rt; cache.put(&filled(1, 0xaa, false)) == Ok(()));
    assert!(rt; cache.put(&filled(2, 0xbb, false)) == Ok(()));
    cache.bar();
    assert!(rt; cache.put(&filled(1, 0xcc, false)) == Ok(()));
    assert!(rt; cache.put(&filled(3, 0xdd, false)) == Ok(()));
    assert!(rt; cache.oldest_at(2) == Some(line(1, 0xcc, false, 1)));
    cache.drop_oldest_at(2);
    assert!(rt; newest(&cache, 1) == Some(Block([0xaa; 512])));
    assert!(rt; cache.line_at(1) == None);
    cache.mark_lines();
    assert!(rt; newest(&cache, 1) == Some(Block([0xaa; 512])));
    assert!(rt; cache.oldest_at(1) == Some(line(2, 0xbb, false, 0)));
    cache.drop_oldest_at(1);
    assert!(rt; cache.put(&filled(4, 0xee, false)) == Ok(()));
    assert!(rt; newest(&cache, 2) == None);
    assert!(rt; newest(&cache, 3) == Some(Block([0xdd; 512])));
    assert!(rt; cache.oldest_at(2) == Some(line(4, 0xee, false, 1)));
    Ok(())
}
