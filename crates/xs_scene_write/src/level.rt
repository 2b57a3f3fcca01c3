ghost use Rattle.std.specs.Prelude.{◌≡◌, OnOk};
ghost use Rattle.serde_json.specs.View.{members_view};
ghost use Rattle.xs_scene_text.specs.SceneData.{with_kind};

use crate::written::{Written, put, put_number, put_text, write_list};
use serde_json::{Map, Value};
use std::alloc::Global;
use xs_base::Memory;
use xs_fault::Field;
use xs_scene::{Kind, Level, Name};

impl Written for Name {
    ghost use Rattle.serde_json.specs.Data.{string};

    ghost writing = { string };

    fn write(&self, alloc: Global) -> Result<Value, Memory> {
        Ok(Value::try_from_str(alloc, self.text())?)
    }
}

/// Puts the kind of a level, with its palette.
fn put_kind(map: &mut Map<String, Value>, alloc: Global, kind: Kind) -> Result<(), Memory>
    ensures { OnOk result (members_view map.new.entries ≡ with_kind kind (members_view map.old.entries)) }
{
    match kind {
        Kind::Colour => put_text(map, alloc, Field::Kind, "colour"),
        Kind::Cm32(palette) => {
            put_text(map, alloc, Field::Kind, "cm32")?;
            put_number(map, alloc, Field::Palette, palette)
        }
    }
}

impl Written for Level {
    ghost use Rattle.xs_scene_text.specs.SceneData.{level_data};

    ghost writing = { level_data };

    #[tactic(auto, unfolding(xs_scene_text::specs::SceneData::level_data))]
    fn write(&self, alloc: Global) -> Result<Value, Memory> {
        let mut map = Map::new(alloc);
        put_kind(&mut map, alloc, self.kind)?;
        let drawings = write_list(alloc, &self.drawings)?;
        put(&mut map, alloc, Field::Drawings, drawings)?;
        Ok(Value::from(map))
    }
}
