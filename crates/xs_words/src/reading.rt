ghost use Rattle.std.specs.Prelude.{map, string_bytes, IfOk};
ghost use Rattle.xs_words.specs.Grammar.{render_reading, dry_reading, show_reading, make_reading, again_reading, reading_of, Reads};
ghost use Rattle.xs_words.specs.Commands.{IsCommand};

use crate::command::Command;
use crate::fault::{Usage, WordsFault};
use crate::parts::{base, counted, last_row, name, number, within, word};
use std::alloc::Global;
use xs_base::limits::{
    LAST_ROW, LONGEST_SPAN, LONGEST_SPAN_OF_TWO, MOST_GENERATED_ROWS, MOST_WORKERS,
};

fn read_render(alloc: Global, words: &[String]) -> Result<Command, WordsFault>
    ensures { Reads result (render_reading (map string_bytes words.now)) }
{
    counted(words, 6)?;
    let from = number(word(words, 3), 3)?;
    let to = number(word(words, 4), 4)?;
    let workers = number(word(words, 5), 5)?;
    within(from, 1, LAST_ROW, 3)?;
    last_row(from, LONGEST_SPAN, to, 4)?;
    within(workers, 1, MOST_WORKERS, 5)?;
    let scene = name(alloc, word(words, 2), 2)?;
    let base = base(alloc, word(words, 6), 6)?;
    Ok(Command::Render {
        scene,
        from,
        to,
        workers,
        base,
    })
}

fn read_dry(alloc: Global, words: &[String]) -> Result<Command, WordsFault>
    ensures { Reads result (dry_reading (map string_bytes words.now)) }
{
    counted(words, 4)?;
    let from = number(word(words, 3), 3)?;
    let to = number(word(words, 4), 4)?;
    within(from, 1, LAST_ROW, 3)?;
    last_row(from, LONGEST_SPAN, to, 4)?;
    let scene = name(alloc, word(words, 2), 2)?;
    Ok(Command::Dry { scene, from, to })
}

fn read_show(alloc: Global, words: &[String]) -> Result<Command, WordsFault>
    ensures { Reads result (show_reading (map string_bytes words.now)) }
{
    counted(words, 2)?;
    let scene = name(alloc, word(words, 2), 2)?;
    Ok(Command::Show { scene })
}

fn read_make(words: &[String]) -> Result<Command, WordsFault>
    ensures { Reads result (make_reading (map string_bytes words.now)) }
{
    counted(words, 4)?;
    let seed = number(word(words, 2), 2)?;
    let rows = number(word(words, 3), 3)?;
    let workers = number(word(words, 4), 4)?;
    within(rows, 1, MOST_GENERATED_ROWS, 3)?;
    within(workers, 1, MOST_WORKERS, 4)?;
    Ok(Command::Make {
        seed,
        rows,
        workers,
    })
}

fn read_again(alloc: Global, words: &[String]) -> Result<Command, WordsFault>
    ensures { Reads result (again_reading (map string_bytes words.now)) }
{
    counted(words, 7)?;
    let from = number(word(words, 4), 4)?;
    let to = number(word(words, 5), 5)?;
    let workers = number(word(words, 6), 6)?;
    within(from, 1, LAST_ROW, 4)?;
    last_row(from, LONGEST_SPAN_OF_TWO, to, 5)?;
    within(workers, 1, MOST_WORKERS, 6)?;
    let old = name(alloc, word(words, 2), 2)?;
    let new = name(alloc, word(words, 3), 3)?;
    let base = base(alloc, word(words, 7), 7)?;
    Ok(Command::Again {
        old,
        new,
        from,
        to,
        workers,
        base,
    })
}

#[tactic(auto, unfolding(crate::specs::Grammar::reading_of))]
fn read(alloc: Global, words: &[String]) -> Result<Command, WordsFault>
    ensures { Reads result (reading_of (map string_bytes words.now)) }
{
    if words.is_empty() {
        return Err(WordsFault::Usage(Usage::NoCommand));
    }
    match word(words, 1) {
        "render" => read_render(alloc, words),
        "dry" => read_dry(alloc, words),
        "show" => read_show(alloc, words),
        "make" => read_make(words),
        "again" => read_again(alloc, words),
        _ => Err(WordsFault::Usage(Usage::Unknown)),
    }
}

/// The command that words say; the first word is the command. Of several faults the one with the least
/// code is given, with its least word number.
pub fn read_words(alloc: Global, words: &[String]) -> Result<Command, WordsFault>
    ensures reading { Reads result (reading_of (map string_bytes words.now)) }
    ensures range { IfOk result IsCommand }
{
    read(alloc, words)
}
