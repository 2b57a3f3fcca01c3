//! Renders of two sections over a library in memory.

ghost use Rattle.std.specs.Prelude.{◌≡◌, [], All, IfOk, None, length};
ghost use Rattle.xs_base.specs.declared.limits.TheConstants.{MOST_WORKERS};

use crate::rendering::{Left, are_equal, run_by};
use std::alloc::Global;
use std::test::Fail;
use xs_base::Memory;
use xs_base::limits::MOST_WORKERS;
use xs_bench::{Bench, LaneBench, PlainBench, ShortBench};
use xs_outside::{MemLibrary, MemShelf, Object};
use xs_top::lane_benches;
use xs_word_desk::Closed;

/// A drawing on rows 8 and 9, before a camera of one pixel.
const SCENE: &str =
    "{\"format\":1,\"camera\":{\"w\":1,\"h\":1},\"palettes\":[],\"levels\":[{\"kind\":\"colour\",\"drawings\":[\"d.xrl\"]}],\"sheets\":[{\"columns\":[{\"cells\":[{\"from\":8,\"to\":9,\"level\":0,\"drawing\":0}]}]}]}";

/// A drawing of one pixel at the point (0, 0).
const PIXEL: &[u8] = b"XRL1\0\0\0\0\0\0\0\0\0\x01\0\0\0\x01\0\0\0\x0a\x14\x1e\xff";

/// What a render of rows 8 to 16 leaves by benches over a library whose calls of these numbers fail.
fn rendered_by<B: Bench>(
    alloc: Global,
    fails: &[u64],
    benches: &mut Vec<B>,
    end: &mut Option<Closed>,
) -> Result<Left, Fail>
    requires benches { length benches.old.items ≡ MOST_WORKERS }
    requires unused { All (λ bench. B.made bench ≡ []) benches.old.items }
    requires open { end.old ≡ None }
{
    let mut files = Vec::new(alloc);
    files.push(Object::new(alloc, "one.json", SCENE.as_bytes())?)?;
    files.push(Object::new(alloc, "d.xrl", PIXEL)?)?;
    let library = MemLibrary::new(alloc, files, Vec::from_slice(alloc, fails)?);
    let shelf = MemShelf::new(alloc, Vec::new(alloc));
    run_by(
        alloc,
        "render one.json 8 16 1 f",
        library,
        shelf,
        benches,
        end,
    )
}

/// The same by benches of lanes.
fn rendered(alloc: Global, fails: &[u64]) -> Result<Left, Fail> {
    let mut benches = lane_benches(alloc)?;
    rendered_by(alloc, fails, &mut benches, &mut None)
}

/// Benches that compute point by point.
pub(crate) fn plain_benches(alloc: Global) -> Result<Vec<PlainBench>, Memory>
    ensures count { IfOk result (λ benches. length benches.items ≡ MOST_WORKERS) }
    ensures unused { IfOk result (λ benches. All (λ bench. ⟦<PlainBench as Bench>⟧.made bench ≡ []) benches.items) }
{
    let mut benches = Vec::with_capacity(alloc, MOST_WORKERS as usize)?;
    for i in 0..MOST_WORKERS {
        benches.push_reserved(PlainBench::new(alloc));
    }
    Ok(benches)
}

/// Benches that are short of memory at their call with this number; calls count from 1.
fn short_benches(alloc: Global, at: u64) -> Result<Vec<ShortBench<LaneBench>>, Memory>
    ensures count { IfOk result (λ benches. length benches.items ≡ MOST_WORKERS) }
    ensures unused { IfOk result (λ benches. All (λ bench. ⟦<ShortBench<LaneBench> as Bench>⟧.made bench ≡ []) benches.items) }
{
    let mut benches = Vec::with_capacity(alloc, MOST_WORKERS as usize)?;
    for i in 0..MOST_WORKERS {
        benches.push_reserved(ShortBench::new(LaneBench::new(alloc), at));
    }
    Ok(benches)
}

/// How many aliases a bench computed; none where there is no such bench.
fn computed<B: Bench>(benches: &Vec<B>, i: usize) -> Option<usize> {
    let bench = benches.as_slice().get(i)?;
    Some(bench.computed().len())
}

#[test]
fn rows_of_two_sections_are_rendered(rt: HostRuntime) -> Result<(), Fail> {
    let left = rendered(rt.alloc(), &[])?;
    assert_eq!(rt; left.status, 0);
    assert_eq!(rt; left.shelf.objects().len(), 9);
    assert_eq!(rt;
        left.notes.bytes(),
        b"rendered 9 rows, 2 aliases, 9 reads\n".as_slice()
    );
    Ok(())
}

#[test]
fn a_failing_library_leaves_no_frame(rt: HostRuntime) -> Result<(), Fail> {
    let left = rendered(rt.alloc(), &[2])?;
    assert_eq!(rt; left.status, 4);
    assert_eq!(rt; left.shelf.objects().len(), 0);
    assert_eq!(rt; left.notes.bytes().len(), 0);
    Ok(())
}

#[test]
fn the_first_bench_computes_each_alias_and_the_cache_is_left_empty(
    rt: HostRuntime,
) -> Result<(), Fail> {
    let mut benches = lane_benches(rt.alloc())?;
    let mut end = None;
    let left = rendered_by(rt.alloc(), &[], &mut benches, &mut end)?;
    assert_eq!(rt; left.status, 0);
    assert_eq!(rt; computed(&benches, 0), Some(2));
    assert_eq!(rt; computed(&benches, 1), Some(0));
    let closed = end.ok_or("a closing record")?;
    assert_eq!(rt; closed.tiles(), 0);
    Ok(())
}

#[test]
pub(crate) fn plain_benches_render_the_same_frames(rt: HostRuntime) -> Result<(), Fail> {
    let fast = rendered(rt.alloc(), &[])?;
    let mut benches = plain_benches(rt.alloc())?;
    let plain = rendered_by(rt.alloc(), &[], &mut benches, &mut None)?;
    assert_eq!(rt; plain.status, 0);
    assert_eq!(rt; plain.shelf.objects().len(), 9);
    assert!(rt; are_equal(&fast.shelf, &plain.shelf));
    Ok(())
}

/// What a render by short benches leaves: its status, how many frames, and whether there is a closing record.
fn left_by_short_benches(alloc: Global, at: u64) -> Result<(u8, usize, bool), Fail> {
    let mut benches = short_benches(alloc, at)?;
    let mut end = None;
    let left = rendered_by(alloc, &[], &mut benches, &mut end)?;
    Ok((left.status, left.shelf.objects().len(), end.is_some()))
}

#[test]
fn a_bench_that_is_short_ends_the_render_before_its_section(rt: HostRuntime) -> Result<(), Fail> {
    assert_eq!(rt; left_by_short_benches(rt.alloc(), 1)?, (6, 0, false));
    assert_eq!(rt; left_by_short_benches(rt.alloc(), 2)?, (6, 0, false));
    assert_eq!(rt; left_by_short_benches(rt.alloc(), 3)?, (0, 9, true));
    Ok(())
}
