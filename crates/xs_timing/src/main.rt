//! Times parts of the renderer on input that it makes in memory or reads from the working folder. The first word names
//! the part. Without words, or where they name no part, the parts are listed and the status is 2.
#![tactic(auto)]

mod blurs;
mod checking;
mod dry;
mod frame;
mod kernel_calls;
mod kernels;
mod plans;
mod renders;
mod scene_text;
mod script;
mod sharing;
mod tiles;
mod timed_bench;
mod timed_library;
mod timed_shelf;
mod watch;

use dry::{Rows, rows_of};
use kernel_calls::Kernels;
use std::process::ExitCode;
use std::rt::{Clock, Files};
use std::{env, io};

/// The parts.
const PARTS: &str = "\
xs_timing kernels: the row kernels beside the plain rows, in thousandths of a nanosecond a pixel
xs_timing kernel-bytes: not a time, but rows and the results of four kernels, for a comparison with others
xs_timing blur: the blur of tiles at several radii, in thousandths of a nanosecond a pixel
xs_timing frame: a frame of 1920 by 1080 of four columns, by the plain evaluator
xs_timing check: checking scenes at the limits, and ones with faults
xs_timing needs: the drawings of a row where nodes and nested sheets are shared
xs_timing plan: building a plan at the limits, beside filling 600 MiB, and the most memory after each
xs_timing dry-most: planning at the limits, beside building as many aliases, and the most memory after each
xs_timing dry SCENE FROM TO: planning rows of a scene, the least of five times, and the most memory
xs_timing dry-lines SCENE FROM TO: listing their demand, beside writing the same bytes; told on standard error
xs_timing render SCENE FROM TO: where the time of a render by one worker goes; the frames are named by out
xs_timing render SCENE FROM TO pairs: and its operations on two inputs beside their kernel calls alone
xs_timing render SCENE FROM TO blurs: and its blurs beside their kernel calls alone
xs_timing decode MIB: reading a scene text of so many MiB without a blank
xs_timing decode-indented MIB: reading one that is indented
xs_timing decode-line MIB: reading one on one line
xs_timing encode MIB: writing a scene text of so many MiB";

/// Times the reading or the writing of a scene text of so many MiB; false where no part has this name.
fn time_text<R: Print + Clock + AllocGlobal>(rt: &R, part: &str, size: u16) -> io::Result<bool> {
    match part {
        "decode" => scene_text::time_decode(rt, rt.alloc(), size)?,
        "decode-indented" => scene_text::time_indented(rt, rt.alloc(), size)?,
        "decode-line" => scene_text::time_one_line(rt, rt.alloc(), size)?,
        "encode" => scene_text::time_encode(rt, rt.alloc(), size)?,
        _ => return Ok(false),
    }
    Ok(true)
}

/// Times a part; false where no part has this name.
fn time_part<R: Print + Clock + Files + AllocGlobal>(rt: &R, part: &str) -> io::Result<bool> {
    match part {
        "kernels" => kernels::time(rt, rt.alloc())?,
        "kernel-bytes" => kernels::write_bytes(rt, rt.alloc())?,
        "blur" => blurs::time(rt, rt.alloc())?,
        "frame" => frame::time(rt, rt.alloc())?,
        "check" => checking::time(rt, rt.alloc())?,
        "needs" => sharing::time_needs(rt, rt.alloc())?,
        "plan" => plans::time(rt, rt.alloc())?,
        "dry-most" => dry::time_most(rt, rt.alloc())?,
        _ => return Ok(false),
    }
    Ok(true)
}

/// Times the demand or a render of rows of a scene; false where no part has this name.
fn time_rows<R: Print + Eprint + Clock + Files + AllocGlobal>(
    rt: &R,
    part: &str,
    scene: &str,
    rows: Rows,
) -> io::Result<bool> {
    match part {
        "dry" => dry::time_file(rt, rt.alloc(), scene, rows)?,
        "dry-lines" => dry::time_lines(rt, scene, rows)?,
        "render" => renders::time(rt, scene, rows, None)?,
        _ => return Ok(false),
    }
    Ok(true)
}

/// Times a render of rows of a scene, and the kernel calls of its operations of the kind that a word names; false where
/// it names none.
fn time_kernels<R: Print + Clock + Files + AllocGlobal>(
    rt: &R,
    scene: &str,
    rows: Rows,
    kind: &str,
) -> io::Result<bool> {
    match Kernels::of(kind) {
        Some(kernels) => renders::time(rt, scene, rows, Some(kernels))?,
        None => return Ok(false),
    }
    Ok(true)
}

/// Times what the words name; false where they name no part.
fn time_words<R: Print + Eprint + Clock + Files + AllocGlobal>(
    rt: &R,
    words: &[String],
) -> io::Result<bool> {
    match words {
        [part] => time_part(rt, part.as_str()),
        [part, size] => match size.as_str().parse::<u16>() {
            Ok(size) => time_text(rt, part.as_str(), size),
            Err(_) => Ok(false),
        },
        [part, scene, from, to] => match rows_of(from.as_str(), to.as_str()) {
            Some(rows) => time_rows(rt, part.as_str(), scene.as_str(), rows),
            None => Ok(false),
        },
        [part, scene, from, to, kind] => match rows_of(from.as_str(), to.as_str()) {
            Some(rows) if part.as_str() == "render" => {
                time_kernels(rt, scene.as_str(), rows, kind.as_str())
            }
            _ => Ok(false),
        },
        _ => Ok(false),
    }
}

fn main(rt: HostRuntime) -> io::Result<ExitCode> {
    let mut words = Vec::new(rt.alloc());
    for word in env::args(&rt)?.skip(1) {
        words.push(word)?;
    }
    if time_words(&rt, words.as_slice())? {
        return Ok(ExitCode::SUCCESS);
    }
    println!(rt; "{PARTS}")?;
    Ok(ExitCode::from(2))
}
