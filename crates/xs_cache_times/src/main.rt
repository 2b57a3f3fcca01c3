//! Times the calls of seats at the cache of words. Without words, or where they name no part, the parts are listed and the
//! status is 2.
#![tactic(auto)]

mod tiles;

use std::process::ExitCode;
use std::rt::Clock;
use std::thread::Threads;
use std::{env, io};

/// The parts.
const PARTS: &str = "\
xs_cache_times cache: claim, finish, read and retire at the cache of words, at one thread and at four";

/// Times what the words name; false where they name no part.
fn time_words<R: Print + Clock + Threads + Sync + AllocGlobal>(
    rt: &R,
    words: &[String],
) -> io::Result<bool> {
    match words {
        [part] if part.as_str() == "cache" => {
            tiles::time(rt, rt.alloc())?;
            Ok(true)
        }
        _ => Ok(false),
    }
}

fn main(rt: HostRuntime) -> io::Result<ExitCode> {
    let mut words = Vec::new(rt.alloc());
    for word in env::args(&rt)?.skip(1) {
        words.push(word)?;
    }
    if time_words(&rt, words.as_slice())? {
        return Ok(ExitCode::SUCCESS);
    }
    println!(rt; "{PARTS}")?;
    Ok(ExitCode::from(2))
}
