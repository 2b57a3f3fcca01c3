//! Rows of one pixel, whose values come from outside.

ghost use Rattle.std.specs.Prelude.{◌≡◌, ◌≤◌, None};

use crate::held::palettes;
use crate::scenes::good_scene;
use crate::tiles::all_tiles;
use std::alloc::{AllocError, Global};
use std::marker::Brand;
use std::process::Abort;
use std::test::Fail;
use xs_base::{List, Memory};
use xs_bench::{Bench, LaneBench, PlainBench};
use xs_check::GoodScene;
use xs_dryrun::plan;
use xs_pixel::Film;
use xs_plan::Plan;
use xs_raster::Raster;
use xs_rawfile::{Drawing, Drawings, RawKind};

const PALETTE: &str = "[[0,0,0,0],[255,0,0,255],[0,0,255,255]]";

const PALETTE_WITH_A_KEY: &str =
    r#"{"styles":[[0,0,0,0],[255,0,0,255],[0,0,255,255]],"keys":[{"row":2,"style":1,"rgba":[0,255,0,255]}]}"#;

const LEVELS: &str =
    r#"{"kind":"colour","drawings":["a","b"]},{"kind":"cm32","palette":0,"drawings":["c"]}"#;

const COLUMNS: &str =
    r#"{"cells":[{"from":1,"to":2,"level":0,"drawing":0}]},{"cells":[{"from":1,"to":2,"level":0,"drawing":1}]},{"cells":[{"from":1,"to":2,"level":1,"drawing":0}]}"#;

/// Two colour drawings and a CM32 one, each of one pixel again and again.
struct Drawn {
    first: [u8; 4],
    second: [u8; 4],
    word: u32,
}

const UPPER_AND_LOWER: Drawn = Drawn {
    first: [100, 0, 0, 200],
    second: [50, 60, 0, 100],
    word: 0x0010_0264,
};

const OPAQUE: Drawn = Drawn {
    first: [10, 20, 30, 255],
    second: [0; 4],
    word: 0x0010_0264,
};

/// A scene whose frame is one row of so many pixels, with a palette and nodes, of which `out` tells what is shown.
fn scene(alloc: Global, w: u32, palette: &str, nodes: &str, out: &str) -> Result<GoodScene, Fail> {
    let text = format!(in alloc;
        "{{\"format\":2,\"camera\":{{\"w\":{w},\"h\":1}},\"palettes\":[{palette}],\"levels\":[{LEVELS}],\"sheets\":[{{\"columns\":[{COLUMNS}],\"nodes\":[{nodes}],\"out\":[{out}]}}]}}"
    )?;
    good_scene(alloc, text.as_str())
}

/// The same four bytes so many times.
fn repeated(alloc: Global, bytes: [u8; 4], count: u32) -> Result<Vec<u8>, AllocError> {
    let mut all = Vec::new(alloc);
    for _ in 0..count {
        all.extend_from_slice(&bytes)?;
    }
    Ok(all)
}

/// A drawing of one row of so many pixels.
fn drawing(alloc: Global, kind: RawKind, bytes: [u8; 4], w: u32) -> Result<Drawing, Fail> {
    let bytes = repeated(alloc, bytes, w)?;
    Ok(Drawing::new(0, 0, w, 1, kind, List::of(bytes)).ok_or("a drawing")?)
}

/// The drawings of a scene, which has so many pixels.
fn drawings(
    alloc: Global,
    scene: &GoodScene,
    drawn: &Drawn,
    w: u32,
) -> Result<Drawings<Brand>, Fail> {
    let mut drawings = Drawings::<Brand>::new(alloc, 3, palettes(alloc, scene)?)?;
    drawings.set(0, drawing(alloc, RawKind::Colour, drawn.first, w)?, Some(0));
    drawings.set(
        1,
        drawing(alloc, RawKind::Colour, drawn.second, w)?,
        Some(0),
    );
    let word = drawn.word.to_le_bytes();
    drawings.set(2, drawing(alloc, RawKind::Cm32, word, w)?, Some(0));
    Ok(drawings)
}

/// Asserts that each pixel of a raster is this one.
fn is_filled(rt: &impl Abort, raster: &Raster, pixel: [u8; 4]) {
    let rect = raster.rect();
    for row in 0..rect.h() {
        for shown in raster.row(rect.y() + row as i32).chunks_exact(4) {
            assert_eq!(rt; shown, pixel.as_slice());
        }
    }
}

/// Asserts that each pixel of the tiles of a plan of one row is this one, by a bench.
fn is_shown<K: Film, B: Bench>(
    rt: &impl Abort,
    alloc: Global,
    bench: &mut B,
    p: &Plan,
    drawings: &Drawings<K>,
    pixel: [u8; 4],
) -> Result<(), Memory>
    requires { K.pictures ≡ None }
{
    let tiles = all_tiles(rt, alloc, bench, p, drawings)?;
    assert!(rt; p.rows() == 1, "one row");
    for t in 0..p.tiles() {
        let root = p.root(0, t) as usize;
        assert!(rt; root < tiles.len(), "the tile of an alias");
        is_filled(rt, tiles[root].raster(), pixel);
    }
    Ok(())
}

/// Asserts it by both benches.
fn both_show<K: Film>(
    rt: &impl Abort,
    alloc: Global,
    p: &Plan,
    drawings: &Drawings<K>,
    pixel: [u8; 4],
) -> Result<(), Memory>
    requires { K.pictures ≡ None }
{
    is_shown(rt, alloc, &mut PlainBench::new(alloc), p, drawings, pixel)?;
    is_shown(rt, alloc, &mut LaneBench::new(alloc), p, drawings, pixel)
}

/// Asserts that a row of a scene has this pixel everywhere.
fn row_shows(
    rt: &impl Abort,
    alloc: Global,
    scene: &GoodScene,
    drawings: &Drawings<Brand>,
    row: u32,
    pixel: [u8; 4],
) -> Result<(), Fail>
    requires { (1 ≤ row) × (row ≤ 9999) }
{
    let p = plan(alloc, scene, row, row).ok().ok_or("a plan")?;
    both_show::<Brand>(rt, alloc, &p, drawings, pixel)?;
    Ok(())
}

/// Asserts that the first row of a scene of so many pixels has this pixel everywhere.
fn shows(
    rt: &impl Abort,
    alloc: Global,
    (drawn, w): (&Drawn, u32),
    nodes: &str,
    out: &str,
    pixel: [u8; 4],
) -> Result<(), Fail> {
    let scene = scene(alloc, w, PALETTE, nodes, out)?;
    let drawings = drawings(alloc, &scene, drawn, w)?;
    row_shows(rt, alloc, &scene, &drawings, 1, pixel)
}

#[test]
fn operations_give_their_pixels_at_each_length(rt: HostRuntime) -> Result<(), Fail> {
    let alloc = rt.alloc();
    for (op, pixel) in [
        ("over", [111, 13, 0, 222]),
        ("add", [150, 60, 0, 255]),
        ("sub", [0, 60, 0, 100]),
        ("mult", [20, 0, 0, 78]),
        ("min", [50, 0, 0, 100]),
        ("max", [100, 60, 0, 200]),
        ("in", [39, 0, 0, 78]),
        ("out", [61, 0, 0, 122]),
    ] {
        let node = format!(in alloc;
            "{{\"op\":\"{op}\",\"first\":{{\"column\":0}},\"second\":{{\"column\":1}}}}"
        )?;
        for w in [1, 15, 16, 17, 64] {
            let drawn = (&UPPER_AND_LOWER, w);
            shows(&rt, alloc, drawn, node.as_str(), r#"{"node":0}"#, pixel)?;
        }
    }
    Ok(())
}

#[test]
fn words_cards_blurs_and_filters_give_their_pixels(rt: HostRuntime) -> Result<(), Fail> {
    let alloc = rt.alloc();
    let node = r#"{"node":0}"#;
    for (w, nodes, out, pixel) in [
        (17, "", r#"{"column":2}"#, [155, 0, 100, 255]),
        (
            33,
            r#"{"op":"card","rgba":[255,128,0,128]}"#,
            node,
            [128, 64, 0, 128],
        ),
        (
            1,
            r#"{"op":"blur","input":{"column":0},"radius":1}"#,
            node,
            [1, 2, 3, 28],
        ),
        (
            1,
            r#"{"op":"delete","input":{"column":2},"styles":[1]}"#,
            node,
            [0, 0, 100, 100],
        ),
        (
            1,
            r#"{"op":"keep","input":{"column":2},"styles":[1]}"#,
            node,
            [155, 0, 0, 155],
        ),
        (
            1,
            r#"{"op":"delete","input":{"column":2},"styles":[7]}"#,
            node,
            [155, 0, 100, 255],
        ),
    ] {
        shows(&rt, alloc, (&OPAQUE, w), nodes, out, pixel)?;
    }
    Ok(())
}

#[test]
fn a_palette_key_tints_the_rows_from_its_own_on(rt: HostRuntime) -> Result<(), Fail> {
    let alloc = rt.alloc();
    let scene = scene(alloc, 1, PALETTE_WITH_A_KEY, "", r#"{"column":2}"#)?;
    let drawings = drawings(alloc, &scene, &OPAQUE, 1)?;
    row_shows(&rt, alloc, &scene, &drawings, 1, [155, 0, 100, 255])?;
    row_shows(&rt, alloc, &scene, &drawings, 2, [0, 155, 100, 255])?;
    Ok(())
}
