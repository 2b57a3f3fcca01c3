//! Commands as calls, without their words.

ghost use Rattle.std.specs.Prelude.{◌≡◌, ◌≤◌, [], None};
ghost use Rattle.xs_base.specs.declared.limits.TheConstants.{LONGEST_SPAN, MOST_GENERATED_ROWS};
ghost use Rattle.xs_words.specs.Commands.{IsRange};
ghost use Rattle.xs_top.specs.Causes.{answer_of};
ghost use Rattle.xs_top.specs.Once.{GeneratedOnce, RenderedOnce};
ghost use Rattle.xs_top.specs.Seen.{seen_of};
ghost use Rattle.xs_top.specs.Ran.{RanMaking, RanRendering, RanShowing, RanDryRun};

use crate::demand::demand;
use crate::make::make;
use crate::outside::Borrows;
use crate::render::render;
use crate::shown::show_scene;
use crate::status::Status;
use crate::sums::NoSum;
use std::alloc::Global;
use xs_base::laws::each_number_is_taken_once;
use xs_bench::Bench;
use xs_outside::{Library, Notes, Put, Shelf};
use xs_scene::Name;
use xs_word_desk::Closed;

/// The answer of a call: Ok where it came through.
fn answer(done: Result<(), Status>) -> Status
    ensures { result ≡ answer_of done }
{
    match done {
        Ok(()) => Status::Ok,
        Err(status) => status,
    }
}

/// A shelf that takes nothing, for calls that put nothing on it.
#[derive(Drop)]
struct NoShelf;

impl Shelf for NoShelf {
    ghost objects = { λ _. None };

    ghost faults = { λ _. 0 };

    fn put(&mut self, _alloc: Global, _name: &str, _bytes: &[u8]) -> Put {
        Put::Memory
    }
}

/// Renders rows `from` to `to` of a scene at one bench, which has computed nothing yet: the frames are put on the shelf in
/// order, named by `base`, and a line is written. The rows are 1 to 9999, at most 4096 of them. After Ok, `end` is the
/// closing record of the cache.
pub fn render_alone<L: Library, S: Shelf, T: Notes, B: Bench>(
    alloc: Global,
    scene: &Name,
    from: u32,
    to: u32,
    base: &Name,
    lib: &mut L,
    shelf: &mut S,
    notes: &mut T,
    bench: &mut B,
    end: &mut Option<Closed>,
) -> Status
    requires range { IsRange from LONGEST_SPAN to }
    requires unused { B.made bench.old ≡ [] }
    requires open { end.old ≡ None }
    ensures ran { RanRendering scene.now base.now from to
        (seen_of (L.files lib.old) (L.asked lib.old) (L.faults lib.old) (S.objects shelf.old) (S.faults shelf.old) (T.written notes.old) (T.faults notes.old))
        (seen_of (L.files lib.new) (L.asked lib.new) (L.faults lib.new) (S.objects shelf.new) (S.faults shelf.new) (T.written notes.new) (T.faults notes.new))
        result }
    ensures once { RenderedOnce (L.files lib.old) scene.now from to (B.made bench.new) end.new result }
{
    each_number_is_taken_once();
    let mut outside = Borrows {
        library: lib,
        shelf,
        notes,
        sum: NoSum,
    };
    let done = render(alloc, scene, from, to, base, &mut outside, bench);
    let Borrows {
        library,
        shelf,
        notes,
        sum: _,
    } = outside;
    // The borrows end here.
    let _library = library;
    let _shelf = shelf;
    let _notes = notes;
    match done {
        Ok(closed) => {
            *end = Some(closed);
            Status::Ok
        }
        Err(status) => status,
    }
}

/// Renders rows 1 to `rows` of the scene that a seed gives, over its own files, at one bench, which has computed nothing
/// yet. The frames are put on the shelf in order, named by `make`, and a line tells the sum of their pixels' bytes. After
/// Ok, `end` is the closing record of the cache. Rows are 1 to 240. The answer is Ok, WriteFault or Memory.
pub fn make_alone<S: Shelf, T: Notes, B: Bench>(
    alloc: Global,
    seed: u32,
    rows: u32,
    shelf: &mut S,
    notes: &mut T,
    bench: &mut B,
    end: &mut Option<Closed>,
) -> Status
    requires least { 1 ≤ rows }
    requires most { rows ≤ MOST_GENERATED_ROWS }
    requires unused { B.made bench.old ≡ [] }
    requires open { end.old ≡ None }
    ensures ran { RanMaking seed rows
        (seen_of None None 0 (S.objects shelf.old) (S.faults shelf.old) (T.written notes.old) (T.faults notes.old))
        (seen_of None None 0 (S.objects shelf.new) (S.faults shelf.new) (T.written notes.new) (T.faults notes.new))
        result }
    ensures once { GeneratedOnce seed rows (B.made bench.new) end.new result }
{
    match make(alloc, seed, rows, shelf, notes, bench) {
        Ok(closed) => {
            *end = Some(closed);
            Status::Ok
        }
        Err(status) => status,
    }
}

/// Writes the one text of a scene in format 2. The library is asked for the scene alone.
pub fn show<L: Library, T: Notes>(alloc: Global, scene: &Name, lib: &mut L, notes: &mut T) -> Status
    ensures { RanShowing scene.now
        (seen_of (L.files lib.old) (L.asked lib.old) (L.faults lib.old) None 0 (T.written notes.old) (T.faults notes.old))
        (seen_of (L.files lib.new) (L.asked lib.new) (L.faults lib.new) None 0 (T.written notes.new) (T.faults notes.new))
        result }
{
    let mut shelf = NoShelf;
    let mut outside = Borrows {
        library: lib,
        shelf: &mut shelf,
        notes,
        sum: NoSum,
    };
    let done = show_scene(alloc, scene, &mut outside);
    let Borrows {
        library,
        shelf: _,
        notes,
        sum: _,
    } = outside;
    // The borrows end here.
    let _library = library;
    let _notes = notes;
    answer(done)
}

/// Writes what rows `from` to `to` of a scene demand: a line for each alias, in the order of their numbers, and one for
/// all. The library is asked for the scene alone. The rows are 1 to 9999, at most 4096 of them.
pub fn dry<L: Library, T: Notes>(
    alloc: Global,
    scene: &Name,
    from: u32,
    to: u32,
    lib: &mut L,
    notes: &mut T,
) -> Status
    requires { IsRange from LONGEST_SPAN to }
    ensures { RanDryRun scene.now from to
        (seen_of (L.files lib.old) (L.asked lib.old) (L.faults lib.old) None 0 (T.written notes.old) (T.faults notes.old))
        (seen_of (L.files lib.new) (L.asked lib.new) (L.faults lib.new) None 0 (T.written notes.new) (T.faults notes.new))
        result }
{
    let mut shelf = NoShelf;
    let mut outside = Borrows {
        library: lib,
        shelf: &mut shelf,
        notes,
        sum: NoSum,
    };
    let done = demand(alloc, scene, from, to, &mut outside);
    let Borrows {
        library,
        shelf: _,
        notes,
        sum: _,
    } = outside;
    // The borrows end here.
    let _library = library;
    let _notes = notes;
    answer(done)
}
