//! `cqmmc`: a modelled eMMC card with a command queue, on a flash image in a file. This file is the trusted edge: it opens
//! what the words name, and hands it to the top call.
#![tactic(auto)]

use array_edge::FileArray;
use cqmmc_top::{new_pages, run_command, text_words};
use io_edge::{AnySource, EmptySource, NoSource, StdSink, StdSource};
use std::alloc::{AllocError, Global};
use std::fs::{File, TryLockError};
use std::io::{BufWriter, IsTerminal, Stdout};
use std::os::fd::AsRawFd;
use std::process::ExitCode;
use std::{env, io};

const PAGE_SIZE: u64 = 512;

/// How many bytes of a trace are written at once.
const PIECE_SIZE: usize = 65_536;

/// The status where standard output failed.
const STATUS_OF_SINK: u8 = 5;

/// What an image that can't be opened has: enough for one sector, so that the answer is a fault of the array.
const PAGES_OF_NONE: u32 = 9;

/// The descriptor of standard error, the last of the standard ones.
const STANDARD_ERROR: i32 = 2;

fn main(rt: HostRuntime) -> ExitCode {
    let words = match read_words(&rt) {
        Ok(words) => words,
        Err(_) => Vec::new(rt.alloc()),
    };
    let spares = fill_standard(&rt);
    let array = match &spares {
        Ok(_) => open_image(&rt, &words),
        Err(_) => FileArray::failing(PAGES_OF_NONE),
    };
    let texts = text_words(&words);
    let mut out = StdSink::over(standard_output(&rt));
    let (status, _, _) = run_command(
        rt.alloc(),
        &words,
        array,
        &mut open_text(&rt, texts.get(0)),
        &mut open_text(&rt, texts.get(1)),
        &mut EmptySource::new(),
        &mut out,
    );
    match out.finish() {
        Ok(()) => ExitCode::from(status),
        Err(_) => ExitCode::from(STATUS_OF_SINK),
    }
}

// Standard output, written in large pieces where it is no terminal. Without memory for a buffer each line is written by itself.
fn standard_output(rt: &HostRuntime) -> BufWriter<Stdout> {
    let capacity = if rt.stdout().is_terminal() {
        0
    } else {
        PIECE_SIZE
    };
    match BufWriter::with_capacity(rt.alloc(), capacity, rt.stdout()) {
        Ok(writer) => writer,
        Err(_) => match BufWriter::with_capacity(rt.alloc(), 0, rt.stdout()) {
            Ok(writer) => writer,
            Err(_) => unreachable!(),
        },
    }
}

// The words behind the program's own name. None come where one isn't UTF-8.
fn read_words(rt: &HostRuntime) -> io::Result<Vec<String>> {
    let mut words = Vec::new(rt.alloc());
    for word in env::args(rt)?.skip(1) {
        words.push(word)?;
    }
    Ok(words)
}

// Takes the standard descriptors that are closed, so that no file opened behind them has the number of one: a line for standard
// output would go over that file. A write to what stands in their place fails.
fn fill_standard(rt: &HostRuntime) -> io::Result<Vec<File>> {
    let mut spares = Vec::new(rt.alloc());
    for _ in 0..=STANDARD_ERROR {
        let spare = File::open(rt, "/dev/null")?;
        if spare.as_raw_fd() > STANDARD_ERROR {
            break;
        }
        spares.push(spare)?;
    }
    Ok(spares)
}

// The image that word 2 names, made anew where the words ask for that.
fn open_image(rt: &HostRuntime, words: &[String]) -> FileArray {
    let pages = new_pages(words);
    let array = match (words.get(1), pages) {
        (Some(path), Some(pages)) => make_pages(rt, path, pages),
        (Some(path), None) => open_pages(rt, path),
        (None, _) => return FileArray::failing(PAGES_OF_NONE),
    };
    match array {
        Ok(array) => array,
        Err(_) => FileArray::failing(pages.unwrap_or(PAGES_OF_NONE)),
    }
}

// A file of so many pages of zeros, in the place of what was there.
fn make_pages(rt: &HostRuntime, path: &String, pages: u32) -> io::Result<FileArray> {
    let file = File::options()
        .read(true)
        .write(true)
        .create(true)
        .open(rt, path.as_str())?;
    lock(&file)?;
    file.set_len(0)?;
    file.set_len(u64::from(pages) * PAGE_SIZE)?;
    Ok(FileArray::over(file, pages))
}

fn open_pages(rt: &HostRuntime, path: &String) -> io::Result<FileArray> {
    let file = File::options()
        .read(true)
        .write(true)
        .open(rt, path.as_str())?;
    lock(&file)?;
    let pages = file.metadata()?.len() / PAGE_SIZE;
    Ok(FileArray::over(file, pages.min(u64::from(u32::MAX)) as u32))
}

// Locks the image for this run; it fails where another run has it. A file system without locks goes without.
fn lock(file: &File) -> io::Result<()> {
    match file.try_lock() {
        Ok(()) => Ok(()),
        Err(TryLockError::WouldBlock) => Err(io::Error::from(io::ErrorKind::WouldBlock)),
        Err(TryLockError::Error(_)) => Ok(()),
    }
}

// A text's file, the empty text where no word names one, or a source that fails where the file can't be opened.
fn open_text(rt: &HostRuntime, word: Option<&String>) -> AnySource<File> {
    match word {
        None => AnySource::Empty(EmptySource::new()),
        Some(path) => match File::open(rt, path.as_str()) {
            Ok(file) => AnySource::Std(StdSource::over(file)),
            Err(_) => AnySource::No(NoSource::new()),
        },
    }
}
