//! The scene of a seed and the files of its levels.

ghost use Rattle.std.specs.Prelude.{◌≡◌, ◌≤◌, IfOk, None};
ghost use Rattle.xs_base.specs.declared.limits.TheConstants.{MOST_GENERATED_ROWS};
ghost use Rattle.xs_check.specs.Passes.{first_fault};
ghost use Rattle.xs_make.specs.Files.{files_from};
ghost use Rattle.xs_make.specs.Scenes.{scene_from};

use crate::draws::Draws;
use crate::files::files;
use crate::laws::generated_scenes_have_no_fault;
use crate::scene::{palette, scene, sheet};
use std::alloc::Global;
use xs_base::{List, Memory};
use xs_check::{GoodScene, check};
use xs_fault::FieldFault;
use xs_outside::Object;
use xs_scene::Scene;

/// A generated scene and the files of its levels.
#[derive(Debug, Drop)]
pub struct Generated {
    pub scene: GoodScene,
    /// A file for each drawing of the scene, in the order of the drawings.
    pub files: List<Object>,
}

/// The scene of a seed with so many rows, and the files of its levels. One line of numbers is drawn from: the palette
/// first, then the background, the drawings of words level by level, the peg, and the columns.
pub fn made(alloc: Global, seed: u32, rows: u32) -> Result<Generated, Memory>
    requires least { 1 ≤ rows }
    requires most { rows ≤ MOST_GENERATED_ROWS }
    ensures scene { IfOk result (λ g. g.scene ≡ scene_from seed rows) }
    ensures files { IfOk result (λ g. g.files ≡ files_from seed) }
{
    let mut draws = Draws::new(seed);
    let palette = palette(alloc, &mut draws)?;
    let files = files(alloc, &mut draws)?;
    let sheet = sheet(alloc, &mut draws, rows)?;
    let scene = scene(alloc, palette, sheet)?;
    generated_scenes_have_no_fault();
    Ok(Generated {
        scene: checked(alloc, scene)?,
        files: List::of(files),
    })
}

/// A scene without a fault, checked.
fn checked(alloc: Global, scene: Scene) -> Result<GoodScene, Memory>
    requires { first_fault scene ≡ None }
    ensures { IfOk result (λ good. good ≡ scene) }
{
    match check(alloc, scene) {
        Ok(good) => Ok(good),
        Err(FieldFault::Memory) => Err(Memory),
        Err(FieldFault::Fault(_)) => unreachable!(),
    }
}
