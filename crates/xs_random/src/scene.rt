use crate::colours::palettes;
use crate::failure::Failure;
use crate::kind::Kind;
use crate::level::levels;
use crate::made::made;
use crate::peg::peg_of;
use crate::random::Random;
use crate::sheet::sheets;
use std::alloc::Global;
use xs_base::List;
use xs_scene::{Camera, Scene, Sheet};

/// A side of a camera in pixels, at most this one; in every second case a short one.
fn side(random: &mut Random, longest: u8) -> u32 {
    let longest = u32::from(longest).max(1);
    if random.one_in(2) {
        random.from_to(1, longest)
    } else {
        random.from_to(1, longest.min(40))
    }
}

/// A camera of one to four tiles, which may hang on a peg of the first sheet.
fn camera(random: &mut Random, sheets: &List<Sheet>) -> Result<Camera, Failure> {
    let first = made(sheets.items().first())?;
    let peg = peg_of(random, first.pegs.items());
    made(Camera::new(side(random, 100), side(random, 90), peg))
}

/// A scene of a kind. All that it names is there.
pub fn scene(alloc: Global, random: &mut Random, kind: &Kind) -> Result<Scene, Failure> {
    let palettes = palettes(alloc, random, kind)?;
    let levels = levels(alloc, random, &palettes, kind.words_alone)?;
    let sheets = sheets(alloc, random, kind, &levels)?;
    let camera = camera(random, &sheets)?;
    made(Scene::new(kind.format, camera, palettes, levels, sheets))
}
