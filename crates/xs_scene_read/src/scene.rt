ghost use Rattle.serde_json.specs.View.{view};
ghost use Rattle.xs_json.specs.Parsing.{Gives};
ghost use Rattle.xs_scene_text.specs.SceneText.{scene_at};

use crate::element::Element;
use crate::fields::{needed, number_needed, reference_if_there};
use serde_json::Value;
use std::alloc::Global;
use xs_base::limits::LONGEST_CAMERA_SIDE;
use xs_fault::{Field, FieldFault, Path, Place};
use xs_json::object;
use xs_scene::{Camera, Scene};

impl Element for Camera {
    ghost use Rattle.xs_scene.specs.Ranges.{IsCamera};
    ghost use Rattle.xs_scene_text.specs.SceneText.{camera_at};

    ghost reading = { λ _. camera_at };

    ghost fits = { IsCamera };

    #[tactic(auto, unfolding(xs_scene_text::specs::SceneText::camera_at))]
    fn read(alloc: Global, _format: u32, v: &Value, place: &Place) -> Result<Self, FieldFault> {
        let at = place.path(alloc)?;
        let fields = [Field::W, Field::H, Field::Peg];
        let map = object(alloc, v, &at, &fields, &[Field::W, Field::H])?;
        Ok(Camera {
            w: number_needed(alloc, map, &at, Field::W, 1, LONGEST_CAMERA_SIDE)?,
            h: number_needed(alloc, map, &at, Field::H, 1, LONGEST_CAMERA_SIDE)?,
            peg: reference_if_there(alloc, map, &at, Field::Peg)?,
        })
    }
}

/// The scene that the value of a whole text says, or exactly its first fault.
#[tactic(auto, unfolding(xs_scene_text::specs::SceneText::scene_at))]
pub fn read_scene(alloc: Global, v: &Value, at: &Path) -> Result<Scene, FieldFault>
    ensures { Gives (λ s. s) result (scene_at at.now (view v.now)) }
{
    let fields = [
        Field::Format,
        Field::Camera,
        Field::Palettes,
        Field::Levels,
        Field::Sheets,
    ];
    let map = object(alloc, v, at, &fields, &fields)?;
    let format = number_needed(alloc, map, at, Field::Format, 1, 2)?;
    let camera = needed(alloc, format, map, at, Field::Camera)?;
    let palettes = needed(alloc, format, map, at, Field::Palettes)?;
    let levels = needed(alloc, format, map, at, Field::Levels)?;
    let sheets = needed(alloc, format, map, at, Field::Sheets)?;
    Ok(Scene {
        format,
        camera,
        palettes,
        levels,
        sheets,
    })
}
