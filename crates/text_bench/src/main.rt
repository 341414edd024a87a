//! `text_bench`: reads a request text, a fault text or a trace, and writes what it found: how many requests or faults,
//! or the trace again, line by line. bench/texts counts what it does.
#![tactic(auto)]

use fault_text::read_faults;
use io_edge::{StdSink, StdSource, put_all, take_all};
use itoa::Buffer;
use request_text::read_requests;
use std::alloc::Global;
use std::env;
use std::fs::File;
use std::process::ExitCode;
use storage_model::Bytes;
use trace_text::{put_item, read_items};

/// The most bytes of a text that are read.
const MOST_BYTES: u32 = 0x1000_0000;

/// The status of words, of a file or of a text that can't be read.
const REFUSED: u8 = 1;

fn main(rt: HostRuntime) -> ExitCode {
    let mut kind = None;
    let mut path = None;
    if let Ok(words) = env::args(&rt) {
        for (place, word) in words.enumerate() {
            match place {
                1 => kind = Some(word),
                2 => path = Some(word),
                _ => {}
            }
        }
    }
    let (Some(kind), Some(path)) = (kind, path) else {
        return ExitCode::from(REFUSED);
    };
    let Some(bytes) = read_file(&rt, &path) else {
        return ExitCode::from(REFUSED);
    };
    let mut out = StdSink::over(rt.stdout());
    let found = match kind.as_str() {
        "requests" => count_requests(rt.alloc(), bytes.as_slice()),
        "faults" => count_faults(rt.alloc(), bytes.as_slice()),
        "trace" => return ExitCode::from(write_again(&rt, bytes.as_slice())),
        _ => None,
    };
    let Some(found) = found else {
        return ExitCode::from(REFUSED);
    };
    let mut buffer = Buffer::new();
    let text = buffer.format(found);
    if put_all(&mut out, text.as_bytes()).is_err() || put_all(&mut out, b"\n").is_err() {
        return ExitCode::from(REFUSED);
    }
    ExitCode::from(0)
}

fn read_file(rt: &HostRuntime, path: &String) -> Option<Bytes> {
    let file = File::open(rt, path.as_str()).ok()?;
    take_all(rt.alloc(), &mut StdSource::over(file), MOST_BYTES).ok()
}

fn count_requests(alloc: Global, bytes: &[u8]) -> Option<usize> {
    let plan = read_requests(alloc, bytes).ok()?;
    Some(plan.jobs.len())
}

// The words of polls, the faults of the bus and of the array, and the cuts.
fn count_faults(alloc: Global, bytes: &[u8]) -> Option<usize> {
    let faults = read_faults(alloc, bytes).ok()?;
    Some(
        faults
            .ready
            .len()
            .saturating_add(faults.bus.len())
            .saturating_add(faults.array.len())
            .saturating_add(faults.cuts.len()),
    )
}

// Writes each line of a trace again, and answers the status.
fn write_again(rt: &HostRuntime, bytes: &[u8]) -> u8 {
    let Ok(items) = read_items(rt.alloc(), bytes) else {
        return REFUSED;
    };
    let mut out = StdSink::over(rt.stdout());
    for item in items.as_slice() {
        if put_item(item, &mut out).is_err() {
            return REFUSED;
        }
    }
    0
}
