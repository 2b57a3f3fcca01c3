//! A bench that is short of memory at one of its calls.

ghost use Rattle.std.specs.Prelude.{◌≡◌, None};

use crate::held::drawings;
use crate::random::Random;
use crate::scenes::{Kind, scene};
use crate::tiles::add_tile;
use std::alloc::Global;
use std::marker::Brand;
use std::process::Abort;
use std::test::Fail;
use xs_base::Memory;
use xs_bench::{Bench, LaneBench, ShortBench};
use xs_dryrun::plan;
use xs_pixel::Film;
use xs_plan::Plan;
use xs_raster::Tile;
use xs_rawfile::Drawings;

/// Asserts that the second call answers Memory, and leaves what was computed.
fn is_short<K: Film>(
    rt: &impl Abort,
    alloc: Global,
    p: &Plan,
    d: &Drawings<K>,
) -> Result<(), Memory>
    requires { K.pictures ≡ None }
{
    assert!(rt; p.aliases() >= 2, "two aliases");
    let mut bench = ShortBench::new(LaneBench::new(alloc), 2);
    assert!(rt; bench.computed().is_empty(), "nothing is computed");
    let mut tiles: Vec<Tile> = Vec::new(alloc);
    add_tile(rt, alloc, &mut bench, p, 0, &mut tiles, d)?;
    assert_eq!(rt; bench.computed(), [0].as_slice());
    let short = add_tile(rt, alloc, &mut bench, p, 1, &mut tiles, d);
    assert!(rt; short.is_err(), "the second call");
    assert_eq!(rt; bench.computed(), [0].as_slice());
    add_tile(rt, alloc, &mut bench, p, 1, &mut tiles, d)?;
    assert_eq!(rt; bench.computed(), [0, 1].as_slice());
    Ok(())
}

#[test]
fn a_short_bench_answers_memory_at_its_call(rt: HostRuntime) -> Result<(), Fail> {
    let alloc = rt.alloc();
    let mut random = Random::new(3);
    let scene = scene(alloc, &mut random, &[Kind::Blur(1)], r#"{"node":0}"#)?;
    let drawings = drawings(alloc, &mut random, &scene)?;
    let p = plan(alloc, &scene, 1, 1).ok().ok_or("a plan")?;
    is_short::<Brand>(&rt, alloc, &p, &drawings)?;
    Ok(())
}
