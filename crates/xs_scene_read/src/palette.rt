ghost use Rattle.std.specs.Prelude.{◌≡◌, [], IfOk};
ghost use Rattle.serde_json.specs.View.{view, items_view};
ghost use Rattle.xs_json.specs.Parsing.{Gives};
ghost use Rattle.xs_scene_text.specs.SceneText.{four_at, channel_at, plain_palette_at, keyed_palette_at};

use crate::element::{Element, number};
use crate::fields::{list_or_empty, needed, number_needed, reference_needed};
use serde_json::Value;
use std::alloc::Global;
use xs_base::List;
use xs_base::limits::LAST_ROW;
use xs_fault::{Field, FieldFault, Path, Place, SceneCode, fault_at};
use xs_json::{list, object};
use xs_pixel::Style;
use xs_scene::{Colours, StyleKey};

/// The four elements of the list at a place.
#[tactic(auto, using(crate::proofs::Lengths::items_len_is))]
fn four<'v>(alloc: Global, v: &'v Value, place: &Place) -> Result<&'v Vec<Value>, FieldFault>
    ensures { Gives (λ l. items_view l.now.items) result (four_at place.now (view v.now)) }
{
    let channels = list(alloc, v, place)?;
    if channels.len() != 4 {
        return Err(place.fault(alloc, SceneCode::OutOfRange));
    }
    Ok(channels)
}

/// One channel of the style at `at`.
fn channel(alloc: Global, v: &Value, at: &Path, i: u32) -> Result<u8, FieldFault>
    ensures { Gives (λ n. n) result (channel_at i at.now (view v.now)) }
{
    match v.get(i as usize) {
        Some(channel) => Ok(number(alloc, channel, &Place::item(at, i), 0, 255)? as u8),
        None => Err(fault_at(alloc, SceneCode::OutOfRange, at)),
    }
}

impl Element for Style {
    ghost use Rattle.xs_scene.specs.InRange.{IsStyle};
    ghost use Rattle.xs_scene_text.specs.SceneText.{style_at};

    ghost reading = { λ _. style_at };

    ghost fits = { IsStyle };

    #[tactic(auto, unfolding(xs_scene_text::specs::SceneText::style_at))]
    fn read(alloc: Global, _format: u32, v: &Value, place: &Place) -> Result<Self, FieldFault> {
        let _four = four(alloc, v, place)?;
        let at = place.path(alloc)?;
        Ok(Style {
            r: channel(alloc, v, &at, 0)?,
            g: channel(alloc, v, &at, 1)?,
            b: channel(alloc, v, &at, 2)?,
            a: channel(alloc, v, &at, 3)?,
        })
    }
}

impl Element for StyleKey {
    ghost use Rattle.xs_scene.specs.InRange.{StyleKeyInRange};
    ghost use Rattle.xs_scene_text.specs.SceneText.{style_key_at};

    ghost reading = { λ _. style_key_at };

    ghost fits = { StyleKeyInRange };

    #[tactic(auto, unfolding(xs_scene_text::specs::SceneText::style_key_at))]
    fn read(alloc: Global, format: u32, v: &Value, place: &Place) -> Result<Self, FieldFault> {
        let at = place.path(alloc)?;
        let fields = [Field::Row, Field::Style, Field::Rgba];
        let map = object(alloc, v, &at, &fields, &fields)?;
        Ok(StyleKey {
            row: number_needed(alloc, map, &at, Field::Row, 1, LAST_ROW)?,
            style: reference_needed(alloc, map, &at, Field::Style)?,
            to: needed(alloc, format, map, &at, Field::Rgba)?,
        })
    }
}

/// A palette without keys, as the list of its styles.
#[tactic(auto, unfolding(xs_scene_text::specs::SceneText::plain_palette_at))]
fn plain_palette(
    alloc: Global,
    format: u32,
    v: &Value,
    place: &Place,
) -> Result<Colours, FieldFault>
    ensures exact { Gives (λ c. c) result (plain_palette_at place.now (view v.now)) }
    ensures plain { IfOk result (λ c. c.keys ≡ []) }
{
    Ok(Colours {
        styles: <List<Style>>::read(alloc, format, v, place)?,
        keys: List::of(Vec::new(alloc)),
    })
}

/// A palette as an object.
#[tactic(auto, unfolding(xs_scene_text::specs::SceneText::keyed_palette_at))]
fn keyed_palette(
    alloc: Global,
    format: u32,
    v: &Value,
    place: &Place,
) -> Result<Colours, FieldFault>
    ensures { Gives (λ c. c) result (keyed_palette_at place.now (view v.now)) }
{
    let at = place.path(alloc)?;
    let map = object(
        alloc,
        v,
        &at,
        &[Field::Styles, Field::Keys],
        &[Field::Styles],
    )?;
    Ok(Colours {
        styles: needed(alloc, format, map, &at, Field::Styles)?,
        keys: list_or_empty(alloc, format, map, &at, Field::Keys)?,
    })
}

impl Element for Colours {
    ghost use Rattle.xs_scene.specs.InRange.{ColoursInRange};
    ghost use Rattle.xs_scene.specs.Ranges.{HasNoKey};
    ghost use Rattle.xs_scene_text.specs.SceneText.{palette_at};

    ghost reading = { palette_at };

    ghost fits = { ColoursInRange };

    ghost plain = { HasNoKey };

    fn read(alloc: Global, format: u32, v: &Value, place: &Place) -> Result<Self, FieldFault> {
        if format == 2 && v.is_object() {
            keyed_palette(alloc, format, v, place)
        } else {
            plain_palette(alloc, format, v, place)
        }
    }
}
