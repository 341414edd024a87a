//! `any_order ORDER IMAGE REQUESTS FAULTS`: a run whose first events are of the letters of ORDER, a fault text of which these alone
//! count, whoever is next by FAULTS. Behind them each event is the one that comes next. It prints the trace, and the status is 0
//! where its last line tells of a good end. This file is the trusted edge: it reads what the words name.
#![tactic(auto)]

mod steps;

use crate::steps::serve;
use array_edge::FileArray;
use io_edge::{StdSink, StdSource, take_all};
use std::fs::File;
use std::process::ExitCode;
use std::{env, io};
use storage_model::Bytes;

const PAGE_SIZE: u64 = 512;

/// The pages of the largest image.
const MOST_PAGES: u64 = 8 + 65_536;

/// The most bytes of a text.
const MOST_BYTES: u32 = 16_777_216;

fn main(rt: HostRuntime) -> ExitCode {
    match read_words(&rt) {
        Ok(words) if has_good_end(&rt, &words) => ExitCode::from(0),
        _ => ExitCode::from(1),
    }
}

// The words behind the program's own name.
fn read_words(rt: &HostRuntime) -> io::Result<Vec<String>> {
    let mut words = Vec::new(rt.alloc());
    for word in env::args(rt)?.skip(1) {
        words.push(word)?;
    }
    Ok(words)
}

fn has_good_end(rt: &HostRuntime, words: &[String]) -> bool {
    let [order, image, requests, faults] = words else {
        return false;
    };
    let (Some(order), Some(requests), Some(faults)) = (
        read_text(rt, order),
        read_text(rt, requests),
        read_text(rt, faults),
    ) else {
        return false;
    };
    let Ok(array) = open_pages(rt, image) else {
        return false;
    };
    let texts = [order.as_slice(), requests.as_slice(), faults.as_slice()];
    serve(rt.alloc(), texts, array, &mut StdSink::over(rt.stdout()))
}

fn open_pages(rt: &HostRuntime, path: &String) -> io::Result<FileArray> {
    let file = File::options()
        .read(true)
        .write(true)
        .open(rt, path.as_str())?;
    let pages = (file.metadata()?.len() / PAGE_SIZE).min(MOST_PAGES);
    Ok(FileArray::over(file, pages as u32))
}

fn read_text(rt: &HostRuntime, path: &String) -> Option<Bytes> {
    let file = File::open(rt, path.as_str()).ok()?;
    take_all(rt.alloc(), &mut StdSource::over(file), MOST_BYTES).ok()
}
