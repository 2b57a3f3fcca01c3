ghost use Rattle.std.specs.Prelude.{◌≡◌, OnOk};
ghost use Rattle.serde_json.specs.View.{members_view};
ghost use Rattle.xs_scene_text.specs.SceneData.{list_data, ref_data, with_some};

use crate::written::{Written, put, put_list_if_any, write_list};
use serde_json::{Map, Value};
use std::alloc::Global;
use xs_base::{List, Memory};
use xs_fault::Field;
use xs_scene::{Ref, Sheet};

/// Puts what is rendered of a sheet, if that is told.
fn put_out(
    map: &mut Map<String, Value>,
    alloc: Global,
    out: &Option<List<Ref>>,
) -> Result<(), Memory>
    ensures { OnOk result (members_view map.new.entries
        ≡ with_some Field.Out (list_data ref_data) out.now (members_view map.old.entries)) }
{
    match out {
        Some(list) => {
            let list = write_list(alloc, list)?;
            put(map, alloc, Field::Out, list)
        }
        None => Ok(()),
    }
}

impl Written for Sheet {
    ghost use Rattle.xs_scene_text.specs.SceneData.{sheet_data};

    ghost writing = { sheet_data };

    #[tactic(auto, unfolding(xs_scene_text::specs::SceneData::sheet_data))]
    fn write(&self, alloc: Global) -> Result<Value, Memory> {
        let mut map = Map::new(alloc);
        put_list_if_any(&mut map, alloc, Field::Pegs, &self.pegs)?;
        let columns = write_list(alloc, &self.columns)?;
        put(&mut map, alloc, Field::Columns, columns)?;
        put_list_if_any(&mut map, alloc, Field::Nodes, &self.nodes)?;
        put_out(&mut map, alloc, &self.out)?;
        Ok(Value::from(map))
    }
}
