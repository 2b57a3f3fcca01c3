//! Carries out a table of cases. Each line of standard input names a call and its arguments; the line is
//! printed, and after it what the call answered. A line that begins with `#` heads a part of the table.
//!
//! - `check FILE`: `good`, or the number of the first fault of the scene and its path
//! - `prefixes FILE`: the number of the proper prefixes of the text that are no JSON, of how many
//! - `nested N`: as `check`, of so many lists, each in the one before
//! - `with FILE PART`: as `check`, of the file with the part in place of its `@`
//! - `many FILE FIRST COUNT PIECE`: as `with`, where the part is so many copies of the piece, with a number
//!   that counts up from FIRST in place of `#`
//! - `lists FILE`: of how many lists of three cells in rows 1 to 3 `with` says what a look at each pair says, by
//!   the cell that first shares a row
//! - `show FILE`: the canonical text of the scene in its own format, unchecked, or its fault as at `check`
//! - `level FILE KIND`: the fields of the drawing, or the code of its first fault; KIND is `cm32`, and any
//!   other word is colour
//! - `cuts FILE KIND`: the codes of the file cut to each shorter length
//! - `files NAME=FILE ..`: the library has these files from here on, and no others; a name alone has the
//!   file of that name, and `NAME=+N` so many zeros
//! - `run WORDS`: what the words do: the status and its text, the names that were asked for, the files on
//!   the shelf and the notes
//! - `counted WORDS`: what the words answer: the status and its text, and the last line of the notes alone
//! - `fail get N WORDS`, `fail put N WORDS`, `fail note N WORDS`: as `run`, where that call fails
//! - `fail every get WORDS`, `fail every put WORDS`, `fail every note WORDS`: how many calls of this kind the
//!   words make, and what is left where each in turn fails, on a line each, and then where none does
//! - `quiet WORDS`: as `run`, over a library that tells nothing, with its count of faults in place of the names
#![tactic(auto)]

mod apart;
mod faults;
mod frame;
mod hexadecimal;
mod level;
mod outside;
mod render;
mod scene;
mod table;

use std::io;
use table::Table;

fn main(rt: HostRuntime) -> io::Result<()> {
    let mut table = Table::new(rt.alloc());
    for line in rt.lines(rt.alloc()) {
        table.carry_out(&rt, line?.as_str())?;
    }
    Ok(())
}
