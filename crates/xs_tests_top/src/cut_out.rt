//! A cut-out scene by benches of both kinds: a held background, and three columns on twos with twelve drawings each, of
//! which the third shows only where a held matte is.

ghost use Rattle.std.specs.Prelude.{◌≡◌, ◌<◌, ◌≤◌, ◌^◌, [], All, None, length};
ghost use Rattle.xs_base.specs.declared.limits.TheConstants.{MOST_WORKERS};

use crate::rendering::{Left, are_equal, run_by};
use crate::top::plain_benches;
use std::alloc::Global;
use std::test::Fail;
use xs_base::List;
use xs_bench::Bench;
use xs_outside::{MemLibrary, MemShelf, Object};
use xs_rawfile::{Drawing, RawKind, write_level};
use xs_top::lane_benches;

/// The text of the scene up to the levels of the three columns.
const FRONT: &str =
    r#"{"format":1,"camera":{"w":320,"h":180},"palettes":[[[0,0,0,0],[255,0,0,255],[0,90,255,128]]],"levels":[{"kind":"colour","drawings":["background.xrl","matte.xrl"]}"#;

/// The text from the end of the levels to the first of the three columns.
const MIDDLE: &str =
    r#"],"sheets":[{"columns":[{"cells":[{"from":1,"to":24,"level":0,"drawing":0}]}"#;

/// The text behind the three columns.
const BACK: &str =
    r#",{"cells":[{"from":1,"to":24,"level":0,"drawing":1}]}],"nodes":[{"op":"in","first":{"column":3},"second":{"column":4}}],"out":[{"column":0},{"column":1},{"column":2},{"node":0}]}]}"#;

/// Writes a level of twelve drawings of words.
fn push_level(alloc: Global, text: &mut String, level: u32) -> Result<(), Fail> {
    text.push_str(r#",{"kind":"cm32","palette":0,"drawings":["#)?;
    for n in 0..12u32 {
        let comma = if n > 0 { "," } else { "" };
        let name = format!(in alloc; "{comma}\"{level}.{n}.xrl\"")?;
        text.push_str(name.as_str())?;
    }
    text.push_str("]}")?;
    Ok(())
}

/// Writes a column that shows the drawings of a level for two rows each.
fn push_column(alloc: Global, text: &mut String, level: u32) -> Result<(), Fail> {
    text.push_str(r#",{"cells":["#)?;
    for n in 0..12u32 {
        let comma = if n > 0 { "," } else { "" };
        let (from, to) = (2 * n + 1, 2 * n + 2);
        let cell = format!(in alloc;
            "{comma}{{\"from\":{from},\"to\":{to},\"level\":{level},\"drawing\":{n}}}"
        )?;
        text.push_str(cell.as_str())?;
    }
    text.push_str("]}")?;
    Ok(())
}

/// The text of the scene.
fn scene_text(alloc: Global) -> Result<String, Fail> {
    let mut text = String::from_str(alloc, FRONT)?;
    for level in 1..4u32 {
        push_level(alloc, &mut text, level)?;
    }
    text.push_str(MIDDLE)?;
    for level in 1..4u32 {
        push_column(alloc, &mut text, level)?;
    }
    text.push_str(BACK)?;
    Ok(text)
}

/// The four bytes of a pixel or a word at a place of a drawing, which differ from place to place.
fn four_bytes(kind: RawKind, n: u32, at: u32) -> [u8; 4]
    requires { (n ≤ 320) × (at < 2 ^ 16) }
{
    let mixed = (at % 251) * 7 + (at / 251) * 13 + n * 31;
    let tone = (mixed % 256) as u8;
    match kind {
        RawKind::Colour => [tone / 4, tone / 2, tone, tone],
        RawKind::Cm32 => ((mixed % 3) << 20 | (mixed / 3 % 3) << 8 | u32::from(tone)).to_le_bytes(),
    }
}

/// The file of a drawing with a box of `w` by `h` pixels, whose lower left corner is at the point (x, y).
fn file(
    alloc: Global,
    name: &str,
    kind: RawKind,
    n: u32,
    corner: (i32, i32),
    sides: (u32, u32),
) -> Result<Object, Fail>
    requires { (sides.0 ≤ 320) × (sides.1 ≤ 180) × (n ≤ 320) }
{
    let (w, h) = sides;
    let mut bytes = Vec::new(alloc);
    for at in 0..w * h {
        bytes.extend_from_slice(&four_bytes(kind, n, at))?;
    }
    let drawing = Drawing::new(corner.0, corner.1, w, h, kind, List::of(bytes));
    let drawing = drawing.ok_or("a drawing")?;
    let bytes = write_level(alloc, &drawing)?;
    Ok(Object::new(alloc, name, bytes.as_slice())?)
}

/// The file of a drawing of a level of words, each a little further to the right than the one before.
fn cel(alloc: Global, level: u32, n: u32) -> Result<Object, Fail>
    requires { (level ≤ 3) × (n ≤ 12) }
{
    let name = format!(in alloc; "{level}.{n}.xrl")?;
    let x = 70 * level as i32 - 220 + 4 * n as i32;
    file(
        alloc,
        name.as_str(),
        RawKind::Cm32,
        12 * level + n,
        (x, -40),
        (60, 80),
    )
}

/// The scene and the files of its levels.
fn files(alloc: Global) -> Result<Vec<Object>, Fail> {
    let text = scene_text(alloc)?;
    let mut files = vec![in alloc;
        Object::new(alloc, "cut.json", text.as_str().as_bytes())?,
        file(
            alloc,
            "background.xrl",
            RawKind::Colour,
            0,
            (-160, -90),
            (320, 180)
        )?,
        file(
            alloc,
            "matte.xrl",
            RawKind::Colour,
            1,
            (-100, -60),
            (200, 110)
        )?,
    ]?;
    for level in 1..4u32 {
        for n in 0..12u32 {
            files.push(cel(alloc, level, n)?)?;
        }
    }
    Ok(files)
}

/// What a render of all rows by benches leaves.
fn rendered<B: Bench>(alloc: Global, line: &str, benches: &mut Vec<B>) -> Result<Left, Fail>
    requires benches { length benches.old.items ≡ MOST_WORKERS }
    requires unused { All (λ bench. B.made bench ≡ []) benches.old.items }
{
    let library = MemLibrary::new(alloc, files(alloc)?, Vec::new(alloc));
    let shelf = MemShelf::new(alloc, Vec::new(alloc));
    run_by(alloc, line, library, shelf, benches, &mut None)
}

#[test]
fn benches_of_both_kinds_make_the_same_frames_for_any_workers(rt: HostRuntime) -> Result<(), Fail> {
    let mut plain = plain_benches(rt.alloc())?;
    let by_points = rendered(rt.alloc(), "render cut.json 1 24 1 f", &mut plain)?;
    assert_eq!(rt; by_points.status, 0);
    assert_eq!(rt; by_points.shelf.objects().len(), 24);
    for line in [
        "render cut.json 1 24 1 f",
        "render cut.json 1 24 2 f",
        "render cut.json 1 24 8 f",
    ] {
        let mut lanes = lane_benches(rt.alloc())?;
        let by_lanes = rendered(rt.alloc(), line, &mut lanes)?;
        assert_eq!(rt; by_lanes.status, 0);
        assert_eq!(rt;
            by_lanes.notes.bytes(),
            b"rendered 24 rows, 1290 aliases, 1800 reads\n".as_slice()
        );
        assert!(rt; are_equal(&by_points.shelf, &by_lanes.shelf));
    }
    Ok(())
}
