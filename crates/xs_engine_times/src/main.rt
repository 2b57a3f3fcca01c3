//! Times parts of the engine, which makes tiles and frames from plans, on input that it makes in memory. The first word
//! names the part. Without words, or where they name no part, the parts are listed and the status is 2.
#![tactic(auto)]

mod benches;
mod clock;
mod copies;
mod cuts;
mod desks;
mod fault;
mod gathers;
mod noise;
mod scenes;
mod works;
mod yardsticks;

use std::process::ExitCode;
use std::rt::Clock;
use std::{env, io};

/// The parts.
fn parts() -> &'static str {
    "\
xs_engine_times bench: the jobs of a bench beside the bare work of each, in thousandths of a nanosecond a pixel
xs_engine_times desk: the life of an alias at a plain desk, where there are few and many, in thousandths of a nanosecond
xs_engine_times gather: gathering a frame of 1920 by 1080, beside copying as many rows to the same places, in nanoseconds"
}

/// Times a part; false where no part has this name.
fn time_part<R: Print + Clock + AllocGlobal>(rt: &R, part: &str) -> io::Result<bool> {
    match part {
        "bench" => benches::time(rt, rt.alloc())?,
        "desk" => desks::time(rt, rt.alloc())?,
        "gather" => gathers::time(rt, rt.alloc())?,
        _ => return Ok(false),
    }
    Ok(true)
}

fn main(rt: HostRuntime) -> io::Result<ExitCode> {
    let mut words = Vec::new(rt.alloc());
    for word in env::args(&rt)?.skip(1) {
        words.push(word)?;
    }
    if let [part] = words.as_slice() {
        if time_part(&rt, part.as_str())? {
            return Ok(ExitCode::SUCCESS);
        }
    }
    println!(rt; "{}", parts())?;
    Ok(ExitCode::from(2))
}
