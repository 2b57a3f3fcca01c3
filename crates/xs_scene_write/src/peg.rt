use crate::written::{Written, put, put_if_true, put_list_if_any, put_number, put_number_if_some};
use serde_json::{Map, Value};
use std::alloc::Global;
use xs_base::Memory;
use xs_fault::Field;
use xs_scene::{Peg, PegKey};

impl Written for PegKey {
    ghost use Rattle.xs_scene_text.specs.SceneData.{peg_key_data};

    ghost writing = { peg_key_data };

    #[tactic(auto, unfolding(xs_scene_text::specs::SceneData::peg_key_data))]
    fn write(&self, alloc: Global) -> Result<Value, Memory> {
        let mut map = Map::new(alloc);
        put_number(&mut map, alloc, Field::Row, self.row)?;
        put(&mut map, alloc, Field::X, Value::from(self.x))?;
        put(&mut map, alloc, Field::Y, Value::from(self.y))?;
        put_if_true(&mut map, alloc, Field::Line, self.line)?;
        Ok(Value::from(map))
    }
}

impl Written for Peg {
    ghost use Rattle.xs_scene_text.specs.SceneData.{peg_data};

    ghost writing = { peg_data };

    #[tactic(auto, unfolding(xs_scene_text::specs::SceneData::peg_data))]
    fn write(&self, alloc: Global) -> Result<Value, Memory> {
        let mut map = Map::new(alloc);
        put_number_if_some(&mut map, alloc, Field::Parent, self.parent)?;
        put_list_if_any(&mut map, alloc, Field::Keys, &self.keys)?;
        Ok(Value::from(map))
    }
}
