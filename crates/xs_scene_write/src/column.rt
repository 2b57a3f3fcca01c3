ghost use Rattle.std.specs.Prelude.{◌≡◌, OnOk};
ghost use Rattle.serde_json.specs.View.{members_view};
ghost use Rattle.xs_scene_text.specs.SceneData.{with_shown};

use crate::written::{Written, put, put_if_true, put_number, put_number_if_some, write_list};
use serde_json::{Map, Value};
use std::alloc::Global;
use xs_base::Memory;
use xs_fault::Field;
use xs_scene::{Column, Exposure, Shown};

/// Puts what a cell shows.
fn put_shown(map: &mut Map<String, Value>, alloc: Global, shown: Shown) -> Result<(), Memory>
    ensures { OnOk result (members_view map.new.entries ≡ with_shown shown (members_view map.old.entries)) }
{
    match shown {
        Shown::Drawing { level, index } => {
            put_number(map, alloc, Field::Level, level)?;
            put_number(map, alloc, Field::Drawing, index)
        }
        Shown::Sheet { sheet, start } => {
            put_number(map, alloc, Field::Sheet, sheet)?;
            put_number(map, alloc, Field::Start, start)
        }
    }
}

impl Written for Exposure {
    ghost use Rattle.xs_scene_text.specs.SceneData.{cell_data};

    ghost writing = { cell_data };

    #[tactic(auto, unfolding(xs_scene_text::specs::SceneData::cell_data))]
    fn write(&self, alloc: Global) -> Result<Value, Memory> {
        let mut map = Map::new(alloc);
        put_number(&mut map, alloc, Field::From, self.from)?;
        put_number(&mut map, alloc, Field::To, self.to)?;
        put_shown(&mut map, alloc, self.shown)?;
        Ok(Value::from(map))
    }
}

impl Written for Column {
    ghost use Rattle.xs_scene_text.specs.SceneData.{column_data};

    ghost writing = { column_data };

    #[tactic(auto, unfolding(xs_scene_text::specs::SceneData::column_data))]
    fn write(&self, alloc: Global) -> Result<Value, Memory> {
        let mut map = Map::new(alloc);
        put_number_if_some(&mut map, alloc, Field::Peg, self.peg)?;
        put_if_true(&mut map, alloc, Field::Off, self.off)?;
        let cells = write_list(alloc, &self.cells)?;
        put(&mut map, alloc, Field::Cells, cells)?;
        Ok(Value::from(map))
    }
}
