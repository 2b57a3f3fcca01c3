//! Frames of generated scenes, beside the plain evaluator's.

ghost use Rattle.std.specs.Prelude.{◌≡◌, ◌<◌, ◌≤◌, ◌∷◌, IfOk, length};
ghost use Rattle.xs_base.specs.declared.limits.TheConstants.{MOST_GENERATED_ROWS};
ghost use Rattle.xs_tests_top.specs.declared.made_frames.TheConstants.{MOST_FILES};

use crate::rendering::run_by;
use std::alloc::Global;
use std::marker::Brand;
use std::test::Fail;
use xs_base::List;
use xs_direct::frame_direct;
use xs_make::{Generated, made};
use xs_outside::{MemLibrary, MemShelf, Object};
use xs_palette::Palette;
use xs_rawfile::{Drawings, RawKind, read_level};
use xs_top::lane_benches;

/// The most files that are read of a generated scene.
const MOST_FILES: u32 = 16;

/// One palette without styles. The plain evaluator colours words by the palettes of the scene, whatever palette their
/// drawing is held with.
fn no_styles(alloc: Global) -> Result<List<Palette>, Fail>
    ensures { IfOk result (λ list. length list ≡ 1) }
{
    let palette = Palette::from_styles(alloc, &[]).ok().ok_or("a palette")?;
    Ok(List::of(vec![in alloc; palette]?))
}

/// Reads the file of a drawing and holds it under its number. The first drawing is the background, and the others are
/// of words.
fn hold(alloc: Global, drawings: &mut Drawings<Brand>, d: u32, file: &Object) -> Result<(), Fail>
    requires number { d < length drawings.old.slots }
    requires palettes { length drawings.old.palettes ≡ 1 }
    ensures slots { length drawings.new.slots ≡ length drawings.old.slots }
    ensures palettes { length drawings.new.palettes ≡ 1 }
{
    let kind = if d == 0 {
        RawKind::Colour
    } else {
        RawKind::Cm32
    };
    let drawing = read_level(alloc, file.bytes.items(), kind).ok();
    drawings.set(d, drawing.ok_or("a drawing")?, Some(0));
    Ok(())
}

/// The drawings of a generated scene, held.
fn drawings_of(alloc: Global, files: &[Object]) -> Result<Drawings<Brand>, Fail> {
    let mut drawings = Drawings::<Brand>::new(alloc, MOST_FILES, no_styles(alloc)?)?;
    for d in 0..MOST_FILES {
        if let Some(file) = files.get(d as usize) {
            hold(alloc, &mut drawings, d, file)?;
        }
    }
    Ok(drawings)
}

/// The sum of the channels of a frame's pixels, which stand behind a head of 12 bytes.
fn sum_of(frame: &[u8]) -> u64 {
    let mut sum = 0u64;
    for byte in frame.iter().skip(12) {
        sum = sum.wrapping_add(u64::from(*byte));
    }
    sum
}

/// The sum of the channels of the frames of a generated scene; none where one is not the plain evaluator's.
fn plain_sum(alloc: Global, generated: &Generated, frames: &[Object]) -> Result<Option<u64>, Fail> {
    let drawings = drawings_of(alloc, generated.files.items())?;
    let mut sum = 0u64;
    let mut row = 1u32;
    for frame in frames {
        let plain = frame_direct(alloc, &generated.scene, &drawings, row)?;
        if frame.bytes.items() != plain.as_slice() {
            return Ok(None);
        }
        sum = sum.wrapping_add(sum_of(plain.as_slice()));
        row = row.wrapping_add(1);
    }
    Ok(Some(sum))
}

/// Whether the rows of the scene of a seed are rendered as the plain evaluator has them: so many frames, each byte for
/// byte, and a line with these counts and the sum of the frames.
fn is_made_as_plain(alloc: Global, seed: u32, rows: u32, counts: &str) -> Result<bool, Fail>
    requires rows { (1 ≤ rows) × (rows ≤ MOST_GENERATED_ROWS) }
{
    let line = format!(in alloc; "make {seed} {rows} 1")?;
    let library = MemLibrary::new(alloc, Vec::new(alloc), Vec::new(alloc));
    let shelf = MemShelf::new(alloc, Vec::new(alloc));
    let mut benches = lane_benches(alloc)?;
    let left = run_by(
        alloc,
        line.as_str(),
        library,
        shelf,
        &mut benches,
        &mut None,
    )?;
    let Some(sum) = plain_sum(alloc, &made(alloc, seed, rows)?, left.shelf.objects())? else {
        return Ok(false);
    };
    let wanted = format!(in alloc; "made seed {seed}, {rows} rows, {counts}, sum {sum}\n")?;
    Ok(
        left.status == 0
            && left.shelf.objects().len() == rows as usize
            && left.notes.bytes() == wanted.as_str().as_bytes(),
    )
}

#[test]
fn the_plain_evaluator_gives_the_frames_of_generated_scenes_and_their_sums(
    rt: HostRuntime,
) -> Result<(), Fail> {
    let (one, two, nine) = (
        "48 aliases, 54 reads",
        "48 aliases, 60 reads",
        "162 aliases, 258 reads",
    );
    assert!(rt; is_made_as_plain(rt.alloc(), 0, 1, one)?);
    assert!(rt; is_made_as_plain(rt.alloc(), 7, 1, one)?);
    assert!(rt; is_made_as_plain(rt.alloc(), 7, 2, two)?);
    assert!(rt; is_made_as_plain(rt.alloc(), 7, 9, nine)?);
    assert!(rt; !is_made_as_plain(rt.alloc(), 7, 9, two)?);
    Ok(())
}
