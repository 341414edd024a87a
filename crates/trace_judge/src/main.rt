//! `trace_judge IMAGE REQUESTS FAULTS TRACE`: whether the storage machine accepts the lines of a trace, of a run with these
//! requests and faults on the image as it was before. This file is the trusted edge: it reads what the words name.
#![tactic(auto)]

mod answer;
mod image;
mod judge;

use crate::answer::Answer;
use crate::image::base_of;
use crate::judge::judge_texts;
use io_edge::{StdSink, StdSource, put_all, take_all};
use std::env;
use std::fs::File;
use std::io::{self, Read};
use std::process::ExitCode;
use storage_model::{Block, BlockList, Bytes};

const PAGE_SIZE: u64 = 512;

/// The pages of the largest image.
const MOST_PAGES: u64 = 8 + 65_536;

/// The most bytes of a text. One more is read, so that a longer one is refused.
const MOST_BYTES: u32 = 16_777_216;

fn main(rt: HostRuntime) -> ExitCode {
    let answer = match read_words(&rt) {
        Ok(words) => answer_to(&rt, &words),
        Err(_) => Answer::Usage,
    };
    let mut out = StdSink::over(rt.stdout());
    match answer.put(&mut out) {
        Ok(()) => ExitCode::from(answer.status()),
        Err(_) => ExitCode::from(answer::FAILED),
    }
}

// The words behind the program's own name.
fn read_words(rt: &HostRuntime) -> io::Result<Vec<String>> {
    let mut words = Vec::new(rt.alloc());
    for word in env::args(rt)?.skip(1) {
        words.push(word)?;
    }
    Ok(words)
}

fn answer_to(rt: &HostRuntime, words: &[String]) -> Answer {
    let [image, requests, faults, trace] = words else {
        return Answer::Usage;
    };
    let Ok(pages) = read_pages(rt, image) else {
        return Answer::ReadFault;
    };
    let (Some(requests), Some(faults), Some(trace)) = (
        read_text(rt, requests),
        read_text(rt, faults),
        read_text(rt, trace),
    ) else {
        return Answer::ReadFault;
    };
    let base = match base_of(rt.alloc(), pages.as_slice()) {
        Ok(Some(base)) => base,
        Ok(None) => return Answer::BadImage,
        Err(_) => return Answer::NoMemory,
    };
    judge_texts(
        rt.alloc(),
        base,
        requests.as_slice(),
        faults.as_slice(),
        trace.as_slice(),
    )
}

// The whole pages of a file, as many as an image may have.
fn read_pages(rt: &HostRuntime, path: &String) -> io::Result<BlockList> {
    let mut file = File::open(rt, path.as_str())?;
    let count = (file.metadata()?.len() / PAGE_SIZE).min(MOST_PAGES);
    let mut pages = Vec::new(rt.alloc());
    let mut page = Block([0; 512]);
    for _ in 0..count {
        file.read_exact(&mut page.0)?;
        pages.push(page)?;
    }
    Ok(BlockList::from_vec(pages))
}

fn read_text(rt: &HostRuntime, path: &String) -> Option<Bytes> {
    let file = File::open(rt, path.as_str()).ok()?;
    take_all(rt.alloc(), &mut StdSource::over(file), MOST_BYTES).ok()
}
