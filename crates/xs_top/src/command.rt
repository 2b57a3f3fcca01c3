ghost use Rattle.std.specs.Prelude.{◌≡◌, [], All, None, flat_map, length, map, string_bytes, false};
ghost use Rattle.xs_base.specs.declared.limits.TheConstants.{MOST_WORKERS};
ghost use Rattle.xs_words.specs.Commands.{IsCommand};
ghost use Rattle.xs_top.specs.Causes.{answer_of};
ghost use Rattle.xs_top.specs.Words.{Heeds, answer_to_command, is_dry, is_make};
ghost use Rattle.xs_words.specs.Grammar.{reading_of};
ghost use Rattle.xs_top.specs.Seen.{seen_of};
ghost use Rattle.xs_top.specs.Leaves.{Leaves, QuietUnless};
ghost use Rattle.xs_top.specs.Runs.{Ends, Undone};
ghost use Rattle.xs_top.specs.Ran.{Obeyed, Ran};
ghost use Rattle.xs_top.specs.Outcome.{commanding};
ghost use Rattle.xs_top.specs.Once.{RendersOnce, RunsOnce, AreIdleFrom, workers_of, workers_in, closed_by};

use crate::demand::demand;
use crate::make::make;
use crate::outside::{Borrows, Outside};
use crate::render::render;
use crate::shown::show_scene;
use crate::status::Status;
use crate::sums::NoSum;
use std::alloc::Global;
use xs_base::laws::each_number_is_taken_once;
use xs_bench::Bench;
use xs_outside::{Library, Notes, Shelf};
use xs_word_desk::Closed;
use xs_words::{Command, read_words};

/// Carries out a command over the files of a library. Where rows were rendered, the closing record of their cache is
/// answered.
fn obey<O: Outside, B: Bench>(
    alloc: Global,
    command: &Command,
    outside: &mut O,
    bench: &mut B,
) -> Result<Option<Closed>, Status>
    requires command { IsCommand command.now }
    requires library { is_make command.now ≡ false }
    requires unused { B.made bench.old ≡ [] }
    ensures did { Ends (λ files. commanding files command.now) (O.view outside.old) (O.view outside.new) result }
    ensures leaves { Leaves (O.view outside.old).seen (O.view outside.new).seen (answer_of result) }
    ensures quiet { QuietUnless (is_dry command.now) (O.view outside.old).seen (O.view outside.new).seen (answer_of result) }
    ensures undone { Undone (λ files. commanding files command.now) (O.view outside.old).seen (O.view outside.new).seen (answer_of result) }
    ensures heeds { Heeds (answer_to_command command.now) (O.view outside.old).seen (O.view outside.new).seen (answer_of result) }
    ensures same { (O.view outside.new).names ≡ (O.view outside.old).names }
    ensures once { RendersOnce (O.view outside.old).seen.files command.now (B.made bench.new) (closed_by result) (answer_of result) }
    ensures idle { workers_of command.now ≡ 0 → B.made bench.new ≡ [] }
{
    match command {
        Command::Render {
            scene,
            from,
            to,
            workers: _,
            base,
        } => {
            let closed = render(alloc, scene, *from, *to, base, outside, bench)?;
            Ok(Some(closed))
        }
        Command::Show { scene } => {
            show_scene(alloc, scene, outside)?;
            Ok(None)
        }
        Command::Dry { scene, from, to } => {
            demand(alloc, scene, *from, *to, outside)?;
            Ok(None)
        }
        Command::Make { .. } => unreachable!(),
        Command::Again { .. } => Err(Status::NotYet),
    }
}

/// Carries out a command over the files of this library.
fn obey_over<L: Library, S: Shelf, T: Notes, B: Bench>(
    alloc: Global,
    command: &Command,
    lib: &mut L,
    shelf: &mut S,
    notes: &mut T,
    bench: &mut B,
) -> Result<Option<Closed>, Status>
    requires command { IsCommand command.now }
    requires library { is_make command.now ≡ false }
    requires unused { B.made bench.old ≡ [] }
    ensures ran { Obeyed command.now
        (seen_of (L.files lib.old) (L.asked lib.old) (L.faults lib.old) (S.objects shelf.old) (S.faults shelf.old) (T.written notes.old) (T.faults notes.old))
        (seen_of (L.files lib.new) (L.asked lib.new) (L.faults lib.new) (S.objects shelf.new) (S.faults shelf.new) (T.written notes.new) (T.faults notes.new))
        result }
    ensures once { RendersOnce (L.files lib.old) command.now (B.made bench.new) (closed_by result) (answer_of result) }
    ensures idle { workers_of command.now ≡ 0 → B.made bench.new ≡ [] }
{
    let mut outside = Borrows {
        library: lib,
        shelf,
        notes,
        sum: NoSum,
    };
    let done = obey(alloc, command, &mut outside, bench);
    let Borrows {
        library,
        shelf,
        notes,
        sum: _,
    } = outside;
    // The borrows end here.
    let _library = library;
    let _shelf = shelf;
    let _notes = notes;
    done
}

/// Reads the words and carries out their command.
fn try_run<L: Library, S: Shelf, T: Notes, B: Bench>(
    alloc: Global,
    words: &Vec<String>,
    lib: &mut L,
    shelf: &mut S,
    notes: &mut T,
    bench: &mut B,
) -> Result<Option<Closed>, Status>
    requires unused { B.made bench.old ≡ [] }
    ensures ran { Ran (map string_bytes words.now.items)
        (seen_of (L.files lib.old) (L.asked lib.old) (L.faults lib.old) (S.objects shelf.old) (S.faults shelf.old) (T.written notes.old) (T.faults notes.old))
        (seen_of (L.files lib.new) (L.asked lib.new) (L.faults lib.new) (S.objects shelf.new) (S.faults shelf.new) (T.written notes.new) (T.faults notes.new))
        (answer_of result) }
    ensures once { RunsOnce (L.files lib.old) (reading_of (map string_bytes words.now.items))
        (B.made bench.new) (closed_by result) (answer_of result) }
    ensures idle { workers_in (reading_of (map string_bytes words.now.items)) ≡ 0 → B.made bench.new ≡ [] }
{
    each_number_is_taken_once();
    let command = read_words(alloc, words.as_slice())?;
    if let Command::Make {
        seed,
        rows,
        workers: _,
    } = command
    {
        let closed = make(alloc, seed, rows, shelf, notes, bench)?;
        return Ok(Some(closed));
    }
    obey_over(alloc, &command, lib, shelf, notes, bench)
}

/// Carries out the command that the words say, over this outside. Where the library tells its files, the
/// answer, the names asked, the shelf and the notes are those of the outcome of the words over the files; a
/// fault of the outside or want of memory leaves a front part of them. The 64 benches have computed nothing yet;
/// after a render that ended well they have computed each alias of its demand once, the ones from the number of
/// workers on none, and `end` is the closing record of the cache.
pub fn run<L: Library, S: Shelf, T: Notes, B: Bench>(
    alloc: Global,
    words: &Vec<String>,
    lib: &mut L,
    shelf: &mut S,
    notes: &mut T,
    benches: &mut Vec<B>,
    end: &mut Option<Closed>,
) -> Status
    requires benches { length benches.old.items ≡ MOST_WORKERS }
    requires unused { All (λ bench. B.made bench ≡ []) benches.old.items }
    requires open { end.old ≡ None }
    ensures ran { Ran (map string_bytes words.now.items)
        (seen_of (L.files lib.old) (L.asked lib.old) (L.faults lib.old) (S.objects shelf.old) (S.faults shelf.old) (T.written notes.old) (T.faults notes.old))
        (seen_of (L.files lib.new) (L.asked lib.new) (L.faults lib.new) (S.objects shelf.new) (S.faults shelf.new) (T.written notes.new) (T.faults notes.new))
        result }
    ensures once { RunsOnce (L.files lib.old) (reading_of (map string_bytes words.now.items))
        (flat_map B.made benches.new.items) end.new result }
    ensures idle { AreIdleFrom (workers_in (reading_of (map string_bytes words.now.items))) (map B.made benches.new.items) }
{
    match try_run(alloc, words, lib, shelf, notes, &mut benches[0]) {
        Ok(closed) => {
            *end = closed;
            Status::Ok
        }
        Err(status) => status,
    }
}
