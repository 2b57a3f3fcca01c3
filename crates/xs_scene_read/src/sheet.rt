use crate::element::Element;
use crate::fields::{if_there, list_or_empty, needed};
use serde_json::Value;
use std::alloc::Global;
use xs_fault::{Field, FieldFault, Place};
use xs_json::object;
use xs_scene::Sheet;

impl Element for Sheet {
    ghost use Rattle.xs_scene.specs.InRange.{SheetInRange};
    ghost use Rattle.xs_scene.specs.Ranges.{HasNoLines, HasOldNodes};
    ghost use Rattle.xs_scene_text.specs.SceneText.{sheet_at};

    ghost reading = { sheet_at };

    ghost fits = { SheetInRange };

    ghost plain = { λ sheet. HasNoLines sheet × HasOldNodes sheet };

    #[tactic(auto, unfolding(xs_scene_text::specs::SceneText::sheet_at))]
    fn read(alloc: Global, format: u32, v: &Value, place: &Place) -> Result<Self, FieldFault> {
        let at = place.path(alloc)?;
        let fields = [Field::Pegs, Field::Columns, Field::Nodes, Field::Out];
        let map = object(alloc, v, &at, &fields, &[Field::Columns])?;
        Ok(Sheet {
            pegs: list_or_empty(alloc, format, map, &at, Field::Pegs)?,
            columns: needed(alloc, format, map, &at, Field::Columns)?,
            nodes: list_or_empty(alloc, format, map, &at, Field::Nodes)?,
            out: if_there(alloc, format, map, &at, Field::Out)?,
        })
    }
}
