//! `cache_bench LINES ROUNDS`: fills a cache of so many lines, and so many times takes its oldest line out, puts another one in
//! and looks for it. bench/cache counts what a round costs.
#![tactic(auto)]

use epoch_cache::EpochCache;
use std::env;
use std::process::ExitCode;
use storage_model::{Block, Put};

/// The status of words that can't be read, or without memory.
const REFUSED: u8 = 1;

fn main(rt: HostRuntime) -> ExitCode {
    let mut lines = None;
    let mut rounds = None;
    if let Ok(words) = env::args(&rt) {
        for (place, word) in words.enumerate() {
            match place {
                1 => lines = word.parse::<u16>().ok(),
                2 => rounds = word.parse::<u32>().ok(),
                _ => {}
            }
        }
    }
    let (Some(lines), Some(rounds)) = (lines, rounds) else {
        return ExitCode::from(REFUSED);
    };
    let Ok(mut cache) = EpochCache::start(rt.alloc(), lines) else {
        return ExitCode::from(REFUSED);
    };
    for sector in 0..u32::from(lines) {
        let _ = cache.put(&filled(sector));
    }
    for round in 0..rounds {
        turn(&mut cache, round.wrapping_add(u32::from(lines)));
    }
    ExitCode::from(0)
}

/// One line goes, another comes and is found.
fn turn(cache: &mut EpochCache, sector: u32) {
    if cache.has_lines() {
        cache.drop_line();
    }
    let _ = cache.put(&filled(sector));
    let _ = cache.newest(sector);
}

fn filled(sector: u32) -> Put {
    Put {
        sector,
        value: Block([0xaa; 512]),
        reliable: false,
    }
}
