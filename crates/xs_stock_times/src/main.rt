//! Times the loading of drawings. Without words, or where they name no part, the parts are listed and the status is 2.
#![tactic(auto)]

mod drawings;

use std::process::ExitCode;
use std::rt::{Clock, Files};
use std::{env, io};

/// The parts.
const PARTS: &str = "\
xs_stock_times stock SCENE ROWS: loading the drawings of rows from 1 on by sections, beside bare reads of their files";

/// Times the drawings of so many rows of a scene; false where the last word is no number.
fn time_stock<R: Print + Clock + Files + AllocGlobal>(
    rt: &R,
    scene: &str,
    rows: &str,
) -> io::Result<bool> {
    let Ok(rows) = rows.parse::<u32>() else {
        return Ok(false);
    };
    drawings::time(rt, scene, rows)?;
    Ok(true)
}

/// Times what the words name; false where they name no part.
fn time_words<R: Print + Clock + Files + AllocGlobal>(
    rt: &R,
    words: &[String],
) -> io::Result<bool> {
    match words {
        [part, scene, rows] if part.as_str() == "stock" => {
            time_stock(rt, scene.as_str(), rows.as_str())
        }
        _ => Ok(false),
    }
}

fn main(rt: HostRuntime) -> io::Result<ExitCode> {
    let mut words = Vec::new(rt.alloc());
    for word in env::args(&rt)?.skip(1) {
        words.push(word)?;
    }
    if time_words(&rt, words.as_slice())? {
        return Ok(ExitCode::SUCCESS);
    }
    println!(rt; "{PARTS}")?;
    Ok(ExitCode::from(2))
}
