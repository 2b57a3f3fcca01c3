//! Both benches beside each other and beside the rules, on scenes that look random.

ghost use Rattle.std.specs.Prelude.{◌≡◌, ◌<◌, ◌^◌, None, IsTrue};
ghost use Rattle.xs_pixel.specs.Points.{point};
ghost use Rattle.xs_meaning.specs.Bounds.{IsWithin};

use crate::held::drawings;
use crate::random::Random;
use crate::scenes::{KINDS, Kind, scene};
use crate::tiles::{all_tiles, are_same};
use std::alloc::Global;
use std::marker::Brand;
use std::process::Abort;
use std::test::Fail;
use xs_base::Memory;
use xs_bench::{LaneBench, PlainBench};
use xs_check::GoodScene;
use xs_direct::pixel_at;
use xs_dryrun::plan;
use xs_pixel::{Film, Op};
use xs_plan::{Job, Plan};
use xs_raster::{Raster, Tile};
use xs_rawfile::Drawings;

/// How many scenes of each kind are drawn.
const SCENES: u32 = 5;

/// How many points of each tile are compared with the rules.
const POINTS: u32 = 24;

/// How many jobs of each kind were met: clear, leaf, tinted, card, blur, and a pair of each operation.
type Met = [u32; 13];

/// The place of a job's kind among those that are counted.
fn place(job: Job) -> usize
    ensures { result < 13 }
{
    match job {
        Job::Clear => 0,
        Job::Leaf { .. } => 1,
        Job::Tinted { .. } => 2,
        Job::Card(_) => 3,
        Job::Blur(_) => 4,
        Job::Pair(Op::Over) => 5,
        Job::Pair(Op::Add) => 6,
        Job::Pair(Op::Sub) => 7,
        Job::Pair(Op::Mult) => 8,
        Job::Pair(Op::Min) => 9,
        Job::Pair(Op::Max) => 10,
        Job::Pair(Op::MatteIn) => 11,
        Job::Pair(Op::MatteOut) => 12,
    }
}

/// Counts the jobs of a plan.
fn count_jobs(p: &Plan, met: &mut Met) {
    for k in 0..p.aliases() {
        let count = &mut met[place(p.job(k))];
        *count = count.saturating_add(1);
    }
}

/// Whether a point may be one of a frame.
fn is_of_frame(x: i32, y: i32) -> bool
    ensures { IsTrue result → IsWithin (2 ^ 27) (point x y) }
{
    0 <= x && x < 4096 && 0 <= y && y < 4096
}

/// Asserts that a tile shows the first row of a scene at a point that looks random.
fn shows_point<K: Film>(
    rt: &impl Abort,
    random: &mut Random,
    scene: &GoodScene,
    drawings: &Drawings<K>,
    raster: &Raster,
) {
    let rect = raster.rect();
    let x = rect.x() + random.below(rect.w()) as i32;
    let y = rect.y() + random.below(rect.h()) as i32;
    assert!(rt; rect.contains(x, y), "a point of the tile");
    let shown = raster.pixel(x, y);
    assert!(rt; is_of_frame(x, y), "a point of the frame");
    let wanted = pixel_at(scene, drawings, 1, x, y);
    assert!(rt; shown == wanted, "the pixel at {x} {y}");
}

/// Asserts that the tiles of a plan show the first row of a scene.
fn show_row<K: Film>(
    rt: &impl Abort,
    random: &mut Random,
    scene: &GoodScene,
    drawings: &Drawings<K>,
    p: &Plan,
    tiles: &Vec<Tile>,
) {
    assert!(rt; p.rows() == 1, "one row");
    for t in 0..p.tiles() {
        let root = p.root(0, t) as usize;
        assert!(rt; root < tiles.len(), "the tile of an alias");
        for _point in 0..POINTS {
            shows_point(rt, random, scene, drawings, tiles[root].raster());
        }
    }
}

/// Asserts that two lists of tiles are the same.
fn are_equal(rt: &impl Abort, plain: &Vec<Tile>, lanes: &Vec<Tile>) {
    assert!(rt; plain.len() == lanes.len(), "as many tiles");
    for k in 0..plain.len() {
        let (a, b) = (&plain[k], &lanes[k]);
        assert!(rt;
            a.alias() == b.alias() && are_same(a.raster(), b.raster()),
            "tile {k}"
        );
    }
}

/// Asserts that both benches make the same tiles of a plan, and that these show the first row of its scene.
fn agree<K: Film>(
    rt: &impl Abort,
    alloc: Global,
    random: &mut Random,
    scene: &GoodScene,
    drawings: &Drawings<K>,
    p: &Plan,
) -> Result<(), Memory>
    requires { K.pictures ≡ None }
{
    let plain = all_tiles(rt, alloc, &mut PlainBench::new(alloc), p, drawings)?;
    let lanes = all_tiles(rt, alloc, &mut LaneBench::new(alloc), p, drawings)?;
    are_equal(rt, &plain, &lanes);
    show_row(rt, random, scene, drawings, p, &lanes);
    Ok(())
}

/// Draws a scene with nodes of these kinds and asserts that all agree on it. Its jobs are counted.
fn agree_on(
    rt: &impl Abort,
    alloc: Global,
    random: &mut Random,
    kinds: &[Kind],
    out: &str,
    met: &mut Met,
) -> Result<(), Fail> {
    let scene = scene(alloc, random, kinds, out)?;
    let drawings = drawings(alloc, random, &scene)?;
    let p = plan(alloc, &scene, 1, 1).ok().ok_or("a plan")?;
    count_jobs(&p, met);
    agree::<Brand>(rt, alloc, random, &scene, &drawings, &p)?;
    Ok(())
}

#[test]
fn benches_and_rules_agree_on_each_job(rt: HostRuntime) -> Result<(), Fail> {
    let alloc = rt.alloc();
    let mut random = Random::new(11);
    let mut met = [0u32; 13];
    for _scene in 0..SCENES {
        for out in ["", r#"{"column":0}"#, r#"{"column":2}"#] {
            agree_on(&rt, alloc, &mut random, &[], out, &mut met)?;
        }
        for kind in KINDS {
            agree_on(&rt, alloc, &mut random, &[kind], r#"{"node":0}"#, &mut met)?;
        }
        let wide = [Kind::Blur(16)];
        agree_on(&rt, alloc, &mut random, &wide, r#"{"node":0}"#, &mut met)?;
    }
    for count in met {
        assert!(rt; count > 0, "each job is met");
    }
    Ok(())
}

/// A kind of node that looks random.
fn any_kind(random: &mut Random) -> Kind {
    match KINDS.get(random.below(12) as usize) {
        Some(kind) => *kind,
        None => Kind::Card,
    }
}

/// Seven kinds of nodes that look random.
fn seven_kinds(random: &mut Random) -> [Kind; 7] {
    [
        any_kind(random),
        any_kind(random),
        any_kind(random),
        any_kind(random),
        any_kind(random),
        any_kind(random),
        any_kind(random),
    ]
}

#[test]
fn benches_and_rules_agree_on_scenes_of_many_nodes(rt: HostRuntime) -> Result<(), Fail> {
    let alloc = rt.alloc();
    let mut random = Random::new(5);
    let mut met = [0u32; 13];
    for _scene in 0..4 * SCENES {
        let kinds = seven_kinds(&mut random);
        let out = r#"{"column":1},{"node":5},{"node":6}"#;
        agree_on(&rt, alloc, &mut random, &kinds, out, &mut met)?;
    }
    Ok(())
}
