//! Rows of generated scenes.

ghost use Rattle.std.specs.Prelude.{◌≡◌, [], All, None, length};
ghost use Rattle.xs_base.specs.declared.limits.TheConstants.{MOST_WORKERS};

use crate::rendering::{Left, are_equal, run_by};
use crate::top::plain_benches;
use std::alloc::Global;
use std::test::Fail;
use xs_bench::{Bench, LaneBench};
use xs_outside::{MemLibrary, MemNotes, MemShelf};
use xs_top::{lane_benches, make_alone, status_number};

/// What rows of a generated scene leave by benches. The library has no file, and each of its calls would fail.
fn made_by<B: Bench>(
    alloc: Global,
    line: &str,
    fails: &[u64],
    benches: &mut Vec<B>,
) -> Result<Left, Fail>
    requires benches { length benches.old.items ≡ MOST_WORKERS }
    requires unused { All (λ bench. B.made bench ≡ []) benches.old.items }
{
    let library = MemLibrary::new(alloc, Vec::new(alloc), Vec::from_slice(alloc, &[1])?);
    let shelf = MemShelf::new(alloc, Vec::from_slice(alloc, fails)?);
    run_by(alloc, line, library, shelf, benches, &mut None)
}

/// The same by benches of lanes.
fn made(alloc: Global, line: &str, fails: &[u64]) -> Result<Left, Fail> {
    let mut benches = lane_benches(alloc)?;
    made_by(alloc, line, fails, &mut benches)
}

#[test]
fn a_generated_scene_is_rendered_and_its_pixels_are_summed(rt: HostRuntime) -> Result<(), Fail> {
    let left = made(rt.alloc(), "make 7 2 1", &[])?;
    assert_eq!(rt; left.status, 0);
    assert_eq!(rt; left.shelf.objects().len(), 2);
    assert_eq!(rt;
        left.notes.bytes(),
        b"made seed 7, 2 rows, 48 aliases, 60 reads, sum 31395516\n".as_slice()
    );
    Ok(())
}

#[test]
fn many_rows_of_a_seed_are_the_same_each_time(rt: HostRuntime) -> Result<(), Fail> {
    let once = made(rt.alloc(), "make 7 240 1", &[])?;
    let again = made(rt.alloc(), "make 7 240 1", &[])?;
    assert_eq!(rt; once.status, 0);
    assert_eq!(rt; again.status, 0);
    assert!(rt; once.notes.bytes().len() > 60);
    assert_eq!(rt; once.notes.bytes(), again.notes.bytes());
    Ok(())
}

#[test]
fn a_frame_that_is_not_taken_ends_a_generated_scene(rt: HostRuntime) -> Result<(), Fail> {
    let left = made(rt.alloc(), "make 0 9 1", &[3])?;
    assert_eq!(rt; left.status, 5);
    assert_eq!(rt; left.shelf.objects().len(), 2);
    assert_eq!(rt; left.notes.bytes().len(), 0);
    Ok(())
}

#[test]
fn plain_benches_make_the_same_frames(rt: HostRuntime) -> Result<(), Fail> {
    let fast = made(rt.alloc(), "make 3 3 1", &[])?;
    let mut benches = plain_benches(rt.alloc())?;
    let plain = made_by(rt.alloc(), "make 3 3 1", &[], &mut benches)?;
    assert_eq!(rt; plain.status, 0);
    assert_eq!(rt; fast.notes.bytes(), plain.notes.bytes());
    assert_eq!(rt; plain.shelf.objects().len(), 3);
    assert!(rt; are_equal(&fast.shelf, &plain.shelf));
    Ok(())
}

#[test]
fn the_call_alone_needs_no_words(rt: HostRuntime) -> Result<(), Fail> {
    let mut shelf = MemShelf::new(rt.alloc(), Vec::new(rt.alloc()));
    let mut notes = MemNotes::new(rt.alloc(), Vec::new(rt.alloc()));
    let mut bench = LaneBench::new(rt.alloc());
    let mut end = None;
    let status = make_alone(
        rt.alloc(),
        0,
        1,
        &mut shelf,
        &mut notes,
        &mut bench,
        &mut end,
    );
    assert_eq!(rt; status_number(&status), 0);
    assert_eq!(rt; bench.computed().len(), 48);
    let closed = end.ok_or("a closing record")?;
    assert_eq!(rt; closed.tiles(), 0);
    assert_eq!(rt;
        notes.bytes(),
        b"made seed 0, 1 rows, 48 aliases, 54 reads, sum 15250468\n".as_slice()
    );
    Ok(())
}
