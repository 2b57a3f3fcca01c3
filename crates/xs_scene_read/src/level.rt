ghost use Rattle.std.specs.Prelude.{IfOk};
ghost use Rattle.serde_json.specs.View.{members_view};
ghost use Rattle.xs_json.specs.Parsing.{Gives};
ghost use Rattle.xs_scene.specs.Ranges.{IsKind};
ghost use Rattle.xs_scene_text.specs.Fields.{field};
ghost use Rattle.xs_scene_text.specs.SceneText.{is_cm32_at, kind_of};

use crate::element::Element;
use crate::fields::{needed, none_of, reference_needed};
use serde_json::{Map, Value};
use std::alloc::Global;
use xs_fault::{Field, FieldFault, Path, Place, SceneCode};
use xs_json::{object, required, text};
use xs_scene::{Kind, Level, Name};

impl Element for Name {
    ghost use Rattle.xs_scene.specs.Names.{IsName};
    ghost use Rattle.xs_scene_text.specs.SceneText.{name_at};

    ghost reading = { λ _. name_at };

    ghost fits = { IsName };

    #[tactic(auto, unfolding(xs_scene_text::specs::SceneText::name_at))]
    fn read(alloc: Global, _format: u32, v: &Value, place: &Place) -> Result<Self, FieldFault> {
        let name = String::from_str(alloc, text(alloc, v, place)?)?;
        match Name::new(name) {
            Some(name) => Ok(name),
            None => Err(place.fault(alloc, SceneCode::OutOfRange)),
        }
    }
}

/// Whether a level's drawings are CM32, by the word at its kind.
fn is_cm32(alloc: Global, map: &Map<String, Value>, at: &Path) -> Result<bool, FieldFault>
    ensures { Gives (λ b. b) result (field Field.Kind is_cm32_at at.now (members_view map.now.entries)) }
{
    let v = required(alloc, map, at, Field::Kind)?;
    let place = Place::key(at, Field::Kind);
    match text(alloc, v, &place)? {
        "colour" => Ok(false),
        "cm32" => Ok(true),
        _ => Err(place.fault(alloc, SceneCode::OutOfRange)),
    }
}

/// The kind of a level, with its palette.
fn kind(alloc: Global, map: &Map<String, Value>, at: &Path, cm32: bool) -> Result<Kind, FieldFault>
    ensures exact { Gives (λ k. k) result (kind_of cm32 at.now (members_view map.now.entries)) }
    ensures range { IfOk result IsKind }
{
    if cm32 {
        Ok(Kind::Cm32(reference_needed(alloc, map, at, Field::Palette)?))
    } else {
        none_of(alloc, map, at, SceneCode::UnknownKey, &[Field::Palette])?;
        Ok(Kind::Colour)
    }
}

impl Element for Level {
    ghost use Rattle.xs_scene.specs.InRange.{LevelInRange};
    ghost use Rattle.xs_scene_text.specs.SceneText.{level_at};

    ghost reading = { λ _. level_at };

    ghost fits = { LevelInRange };

    #[tactic(auto, unfolding(xs_scene_text::specs::SceneText::level_at))]
    fn read(alloc: Global, format: u32, v: &Value, place: &Place) -> Result<Self, FieldFault> {
        let at = place.path(alloc)?;
        let map = object(
            alloc,
            v,
            &at,
            &[Field::Kind, Field::Palette, Field::Drawings],
            &[Field::Kind, Field::Drawings],
        )?;
        let cm32 = is_cm32(alloc, map, &at)?;
        Ok(Level {
            kind: kind(alloc, map, &at, cm32)?,
            drawings: needed(alloc, format, map, &at, Field::Drawings)?,
        })
    }
}
