ghost use Rattle.std.specs.Prelude.{◌≡◌, IfOk, OnOk};
ghost use Rattle.serde_json.specs.View.{view};
ghost use Rattle.xs_scene_text.specs.SceneText.{scene_at};
ghost use Rattle.xs_scene_text.specs.SceneData.{IsReadAgain, scene_data};

use crate::written::{Written, put, put_number, put_number_if_some, write_list};
use serde_json::{Map, Value};
use std::alloc::Global;
use xs_base::Memory;
use xs_fault::Field;
use xs_scene::{Camera, Scene};
use xs_scene_text::what_is_written_is_read_again;

impl Written for Camera {
    ghost use Rattle.xs_scene_text.specs.SceneData.{camera_data};

    ghost writing = { camera_data };

    #[tactic(auto, unfolding(xs_scene_text::specs::SceneData::camera_data))]
    fn write(&self, alloc: Global) -> Result<Value, Memory> {
        let mut map = Map::new(alloc);
        put_number(&mut map, alloc, Field::W, self.w)?;
        put_number(&mut map, alloc, Field::H, self.h)?;
        put_number_if_some(&mut map, alloc, Field::Peg, self.peg)?;
        Ok(Value::from(map))
    }
}

/// The value that is written for a scene, which is read as that scene again.
#[tactic(auto, unfolding(xs_scene_text::specs::SceneData::scene_data))]
pub fn write_scene(alloc: Global, s: &Scene) -> Result<Value, Memory>
    ensures value { IfOk result (λ v. view v ≡ scene_data s.now) }
    ensures again { OnOk result (IsReadAgain scene_at scene_data s.now) }
{
    s.in_range();
    what_is_written_is_read_again();
    let mut map = Map::new(alloc);
    put_number(&mut map, alloc, Field::Format, s.format)?;
    let camera = s.camera.write(alloc)?;
    put(&mut map, alloc, Field::Camera, camera)?;
    let palettes = write_list(alloc, &s.palettes)?;
    put(&mut map, alloc, Field::Palettes, palettes)?;
    let levels = write_list(alloc, &s.levels)?;
    put(&mut map, alloc, Field::Levels, levels)?;
    let sheets = write_list(alloc, &s.sheets)?;
    put(&mut map, alloc, Field::Sheets, sheets)?;
    Ok(Value::from(map))
}
