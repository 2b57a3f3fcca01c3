ghost use Rattle.std.specs.Prelude.{◌≡◌, false, IfOk};
ghost use Rattle.serde_json.specs.View.{view, members_view};
ghost use Rattle.xs_json.specs.Parsing.{Gives};
ghost use Rattle.xs_scene.specs.Ranges.{IsOffset};
ghost use Rattle.xs_scene_text.specs.Fields.{field, offset_at, is_other_number};
ghost use Rattle.xs_scene_text.specs.SceneText.{moves_only, peg_key_fields, line_at};

use crate::element::Element;
use crate::fields::{flag_or_false, list_or_empty, none_of, number_needed, reference_if_there};
use serde_json::{Map, Value};
use std::alloc::Global;
use xs_base::limits::{FARTHEST_OFFSET, LAST_ROW};
use xs_fault::{Field, FieldFault, Path, Place, SceneCode, fault_at};
use xs_json::{object, required, whole};
use xs_scene::{Peg, PegKey};

/// Whether the value is a number that an `i64` does not hold.
fn is_other_number(v: &Value) -> bool
    ensures { result ≡ is_other_number (view v.now) }
{
    v.is_number() && v.as_i64().is_none()
}

/// An offset of a peg key, in whole pixels.
#[tactic(auto, unfolding(xs_scene_text::specs::Fields::offset_at))]
fn offset(alloc: Global, map: &Map<String, Value>, at: &Path, k: Field) -> Result<i32, FieldFault>
    ensures exact { Gives (λ z. z) result (field k offset_at at.now (members_view map.now.entries)) }
    ensures range { IfOk result IsOffset }
{
    let v = required(alloc, map, at, k)?;
    let place = Place::key(at, k);
    if is_other_number(v) {
        return Err(place.fault(alloc, SceneCode::Placement));
    }
    let farthest = i64::from(FARTHEST_OFFSET);
    Ok(whole(alloc, v, &place, -farthest, farthest)? as i32)
}

/// The members of a peg key, which may not turn, scale or shear: Placement where it has a key for that.
fn moving<'v>(alloc: Global, v: &'v Value, at: &Path) -> Result<&'v Map<String, Value>, FieldFault>
    ensures { Gives (λ m. members_view m.now.entries) result (moves_only at.now (view v.now)) }
{
    let Some(map) = v.as_object() else {
        return Err(fault_at(alloc, SceneCode::WrongKind, at));
    };
    let turning = [
        Field::Angle,
        Field::Scale,
        Field::ScaleX,
        Field::ScaleY,
        Field::ShearX,
        Field::ShearY,
    ];
    none_of(alloc, map, at, SceneCode::Placement, &turning)?;
    Ok(map)
}

/// The keys that a peg key may have.
fn peg_key_fields(format: u32) -> &'static [Field]
    ensures { result.now ≡ peg_key_fields format }
{
    if format == 2 {
        &[Field::Row, Field::X, Field::Y, Field::Line]
    } else {
        &[Field::Row, Field::X, Field::Y]
    }
}

/// Whether a peg moves on in a line from the key, which format 1 does not know.
fn line(alloc: Global, format: u32, map: &Map<String, Value>, at: &Path) -> Result<bool, FieldFault>
    ensures exact { Gives (λ b. b) result (line_at format at.now (members_view map.now.entries)) }
    ensures known { IfOk result (λ b. format ≡ 1 → b ≡ false) }
{
    if format == 2 {
        flag_or_false(alloc, map, at, Field::Line)
    } else {
        Ok(false)
    }
}

impl Element for PegKey {
    ghost use Rattle.xs_scene.specs.Ranges.{IsPegKey};
    ghost use Rattle.std.specs.Prelude.{◌≡◌, false};
    ghost use Rattle.xs_scene_text.specs.SceneText.{peg_key_at};

    ghost reading = { peg_key_at };

    ghost fits = { IsPegKey };

    ghost plain = { λ key. key.line ≡ false };

    #[tactic(auto, unfolding(xs_scene_text::specs::SceneText::peg_key_at))]
    fn read(alloc: Global, format: u32, v: &Value, place: &Place) -> Result<Self, FieldFault> {
        let at = place.path(alloc)?;
        let _moving = moving(alloc, v, &at)?;
        let map = object(
            alloc,
            v,
            &at,
            peg_key_fields(format),
            &[Field::Row, Field::X, Field::Y],
        )?;
        Ok(PegKey {
            row: number_needed(alloc, map, &at, Field::Row, 1, LAST_ROW)?,
            x: offset(alloc, map, &at, Field::X)?,
            y: offset(alloc, map, &at, Field::Y)?,
            line: line(alloc, format, map, &at)?,
        })
    }
}

impl Element for Peg {
    ghost use Rattle.xs_scene.specs.InRange.{PegInRange};
    ghost use Rattle.xs_scene.specs.Ranges.{HasNoLine};
    ghost use Rattle.xs_scene_text.specs.SceneText.{peg_at};

    ghost reading = { peg_at };

    ghost fits = { PegInRange };

    ghost plain = { HasNoLine };

    #[tactic(auto, unfolding(xs_scene_text::specs::SceneText::peg_at))]
    fn read(alloc: Global, format: u32, v: &Value, place: &Place) -> Result<Self, FieldFault> {
        let at = place.path(alloc)?;
        let map = object(alloc, v, &at, &[Field::Parent, Field::Keys], &[])?;
        Ok(Peg {
            parent: reference_if_there(alloc, map, &at, Field::Parent)?,
            keys: list_or_empty(alloc, format, map, &at, Field::Keys)?,
        })
    }
}
