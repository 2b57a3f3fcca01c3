use crate::written::{Written, put, put_number, write_list};
use serde_json::{Map, Value};
use std::alloc::{AllocError, Global};
use xs_base::Memory;
use xs_fault::Field;
use xs_pixel::Style;
use xs_scene::{Colours, StyleKey};

impl Written for Style {
    ghost use Rattle.xs_scene_text.specs.SceneData.{style_data};

    ghost writing = { style_data };

    #[tactic(auto, unfolding(xs_scene_text::specs::SceneData::style_data))]
    fn write(&self, alloc: Global) -> Result<Value, Memory> {
        let Style { r, g, b, a } = *self;
        let channels = vec![in alloc;
            Value::from(r),
            Value::from(g),
            Value::from(b),
            Value::from(a),
        ]
        .map_err(AllocError::from)?;
        Ok(Value::from(channels))
    }
}

impl Written for StyleKey {
    ghost use Rattle.xs_scene_text.specs.SceneData.{style_key_data};

    ghost writing = { style_key_data };

    #[tactic(auto, unfolding(xs_scene_text::specs::SceneData::style_key_data))]
    fn write(&self, alloc: Global) -> Result<Value, Memory> {
        let mut map = Map::new(alloc);
        put_number(&mut map, alloc, Field::Row, self.row)?;
        put_number(&mut map, alloc, Field::Style, self.style)?;
        let to = self.to.write(alloc)?;
        put(&mut map, alloc, Field::Rgba, to)?;
        Ok(Value::from(map))
    }
}

impl Written for Colours {
    ghost use Rattle.xs_scene_text.specs.SceneData.{palette_data};

    ghost writing = { palette_data };

    #[tactic(auto, unfolding(xs_scene_text::specs::SceneData::palette_data))]
    fn write(&self, alloc: Global) -> Result<Value, Memory> {
        let styles = write_list(alloc, &self.styles)?;
        if self.keys.items().is_empty() {
            return Ok(styles);
        }
        let keys = write_list(alloc, &self.keys)?;
        let mut map = Map::new(alloc);
        put(&mut map, alloc, Field::Styles, styles)?;
        put(&mut map, alloc, Field::Keys, keys)?;
        Ok(Value::from(map))
    }
}
