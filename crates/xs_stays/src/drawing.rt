//! What stays of drawings and cards.

ghost use Rattle.std.specs.Prelude.{◌≡◌, ◌<◌, IfOk, OnOk, Some, None, true, if◌then◌else◌, length};
ghost use Rattle.xs_check.specs.Good.{files_of};
ghost use Rattle.xs_meaning.specs.Drawings.{colours_of};
ghost use Rattle.xs_meaning.specs.Palettes.{is_clear_pixel, none_dropped, pixel_of};
ghost use Rattle.xs_stays.specs.Found.{IsFound, Numbers};
ghost use Rattle.xs_stays.specs.Sets.{styles_in};
ghost use Rattle.xs_stays.specs.Stays.{no_drawing, unclear};

use crate::found::{Found, Remembered};
use crate::set::{StyleSet, is_unclear};
use std::alloc::Global;
use xs_base::Memory;
use xs_check::GoodScene;
use xs_pixel::Style;
use xs_scene::Kind;
use xs_tint::{Dropped, palette_at};

/// The styles that a drawing shows unclear at a row.
fn drawing_styles(alloc: Global, s: &GoodScene, d: u32, row: u32) -> Result<StyleSet, Memory>
    requires there { d < length (files_of s.now.levels) }
    ensures { IfOk result (λ set. styles_in set ≡ unclear (colours_of s.now d) row none_dropped) }
{
    match s.kind(d) {
        Kind::Colour => Ok(StyleSet::empty(alloc)),
        Kind::Cm32(palette) => {
            let colours = &s.scene().palettes.items()[palette as usize];
            let none = Dropped::none(alloc);
            let shown = palette_at(alloc, colours, row, &none)?;
            let styles = StyleSet::unclear(alloc, &shown)?;
            Ok(styles)
        }
    }
}

/// What stays of a drawing at a row: all styles count that it shows unclear.
pub(crate) fn drawing_stay(
    alloc: Global,
    s: &GoodScene,
    d: u32,
    row: u32,
    known: &mut Remembered,
) -> Result<Found, Memory>
    requires there { d < length (files_of s.now.levels) }
    ensures found { IfOk result (λ found. IsFound known.new.sets.keys (Some found)
        (Some (record { drawing = true; counts = unclear (colours_of s.now d) row none_dropped }))) }
    ensures numbers { OnOk result (Numbers known.old known.new) }
{
    let set = drawing_styles(alloc, s, d, row)?;
    let styles = known.number(set)?;
    Ok(Found {
        drawing: true,
        styles,
    })
}

/// What stays of a card: its pixel, unless it is clear.
pub(crate) fn card_stay(
    alloc: Global,
    style: Style,
    known: &mut Remembered,
) -> Result<Option<Found>, Memory>
    ensures found { IfOk result (λ found. IsFound known.new.sets.keys found
        (if is_clear_pixel (pixel_of style) then None else Some no_drawing)) }
    ensures numbers { OnOk result (Numbers known.old known.new) }
{
    if is_unclear(style.pixel()) {
        let styles = known.number(StyleSet::empty(alloc))?;
        Ok(Some(Found {
            drawing: false,
            styles,
        }))
    } else {
        Ok(None)
    }
}
