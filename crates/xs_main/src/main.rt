//! The program: the words of the command line, the working folder and standard output go to `run`; a
//! fault is told on standard error, and its number is the status.
#![tactic(auto)]

use std::io::ErrorKind;
use std::process::ExitCode;
use std::rt::{Env, Files};
use std::{env, str};
use xs_host::{FolderLibrary, FolderShelf, OutNotes};
use xs_top::{Status, fault_text, lane_benches, run, status_number};

/// Why there are no words.
#[derive(Clone, Copy, Debug)]
enum NoWords {
    /// There was no memory for them.
    Memory,
    /// One of them is no text.
    NotText,
}

/// The words of the command line behind the program's own name.
fn words<R: Env + AllocGlobal>(rt: &R) -> Result<Vec<String>, NoWords> {
    let mut given = match env::args(rt) {
        Ok(given) => given,
        Err(error) => {
            return Err(match error.kind() {
                ErrorKind::OutOfMemory => NoWords::Memory,
                _ => NoWords::NotText,
            });
        }
    };
    let _program = given.next();
    let mut words = Vec::new(rt.alloc());
    for word in given {
        if words.push(word).is_err() {
            return Err(NoWords::Memory);
        }
    }
    Ok(words)
}

/// Carries out the words over the working folder and standard output.
fn carry_out<R: Files + Print + AllocGlobal>(rt: &R, words: &Vec<String>) -> Status {
    let mut library = FolderLibrary::new(rt);
    let mut shelf = FolderShelf::new(rt);
    let mut notes = OutNotes::new(rt);
    let Ok(mut benches) = lane_benches(rt.alloc()) else {
        return Status::Memory;
    };
    let mut end = None;
    run(
        rt.alloc(),
        words,
        &mut library,
        &mut shelf,
        &mut notes,
        &mut benches,
        &mut end,
    )
}

/// Raises the bounds of the C library's `malloc`, behind which a block is mapped and unmapped each time: it does so when
/// such a block is freed for the first time. The block is never touched, so it takes no memory.
fn raise_bounds<R: AllocGlobal>(rt: &R) {
    let block: Result<Vec<u8>, _> = Vec::with_capacity(rt.alloc(), 33_550_000);
    drop(block);
}

/// Tells a fault on standard error. Where that cannot be written there is nobody to tell.
fn tell<R: Eprint + AllocGlobal>(rt: &R, status: &Status) {
    if let Status::Ok = status {
        return;
    }
    match fault_text(rt.alloc(), status) {
        Ok(bytes) => {
            if let Ok(text) = str::from_utf8(bytes.as_slice()) {
                let _ = rt.eprintln(text);
            }
        }
        Err(_) => {
            let _ = rt.eprintln("out of memory");
        }
    }
}

fn main(rt: HostRuntime) -> ExitCode {
    raise_bounds(&rt);
    match words(&rt) {
        Ok(words) => {
            let status = carry_out(&rt, &words);
            tell(&rt, &status);
            ExitCode::from(status_number(&status))
        }
        Err(NoWords::Memory) => {
            tell(&rt, &Status::Memory);
            ExitCode::from(status_number(&Status::Memory))
        }
        Err(NoWords::NotText) => {
            let _ = rt.eprintln("usage: a word is not UTF-8");
            ExitCode::from(1)
        }
    }
}
