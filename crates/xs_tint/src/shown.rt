ghost use Rattle.std.specs.Prelude.{◌≡◌, ℕ, ◌<◌, ◌≤◌, ◌^◌, length, slice_index_or, slice_set, vec_len, IfOk, if◌then◌else◌};
ghost use Rattle.xs_base.specs.declared.limits.TheConstants.{MOST_STYLES};
ghost use Rattle.xs_pixel.specs.declared.style.Style.{Style as StyleOf};
ghost use Rattle.xs_palette.specs.Styles.{style_of};
ghost use Rattle.xs_meaning.specs.Palettes.{style_at, tint_at, key_at, keyed};
ghost use Rattle.xs_tint.specs.Filters.{dropped_by};
ghost use Rattle.xs_tint.specs.Tints.{tint_of};
ghost use Rattle.xs_tint.specs.KeysTaken.{sets};

use crate::dropped::Dropped;
use std::alloc::Global;
use xs_base::Memory;
use xs_meaning::filters::{palette_keys_are_chosen_by_row, tint_is_canonical};
use xs_palette::{Palette, PaletteFault};
use xs_pixel::Style;
use xs_scene::{Colours, StyleKey};

/// What a dropped style has in place of its own colour.
const NO_COLOUR: Style = Style {
    r: 0,
    g: 0,
    b: 0,
    a: 0,
};

/// The palette that shows at a row: style 0 and each dropped style is clear, another one is what the key
/// in force sets it to, or else as it is written.
pub fn palette_at(alloc: Global, c: &Colours, row: u32, f: &Dropped) -> Result<Palette, Memory>
    requires { length c.now.styles ≤ MOST_STYLES }
    ensures styles { IfOk result (λ p. style_of p ≡ style_at c.now row (dropped_by f.now)) }
    ensures tint { IfOk result (λ p. tint_of p ≡ tint_at c.now row (dropped_by f.now)) }
{
    palette_keys_are_chosen_by_row();
    tint_is_canonical();
    let mut styles = styles_at(alloc, c, row)?;
    clear_dropped(&mut styles, f);
    match Palette::from_styles(alloc, styles.as_slice()) {
        Ok(palette) => Ok(palette),
        Err(PaletteFault::TooMany) => unreachable!(),
        Err(PaletteFault::Memory) => Err(Memory),
    }
}

/// The styles of a palette as its keys set them at a row.
fn styles_at(alloc: Global, c: &Colours, row: u32) -> Result<Vec<Style>, Memory>
    ensures len { IfOk result (λ v. length v.items ≡ length c.now.styles) }
    ensures styles { IfOk result (λ v. (k : ℕ) (d : StyleOf) → k < length c.now.styles → slice_index_or v.items k d ≡ keyed (key_at c.now row k) (slice_index_or c.now.styles k d)) }
{
    let mut styles = Vec::from_slice(alloc, c.styles.items())?;
    let mut rows = vec![in alloc; 0u32; styles.len()]?;
    for key in c.keys.items() {
        take_key(&mut styles, &mut rows, key, row);
    }
    Ok(styles)
}

/// Sets a key's style if the key is at or before the row, unless a key of a later row, or another of the
/// same row, has set it. `rows` has the row of the key that set each style, and 0 before any did.
fn take_key(styles: &mut Vec<Style>, rows: &mut Vec<u32>, key: &StyleKey, row: u32)
    requires { vec_len styles.old ≡ vec_len rows.old }
    ensures row { 1 ≤ key.now.row }
    ensures styles { styles.new.items ≡ (if sets key.now row rows.old.items then slice_set styles.old.items key.now.style key.now.to else styles.old.items) }
    ensures rows { rows.new.items ≡ (if sets key.now row rows.old.items then slice_set rows.old.items key.now.style key.now.row else rows.old.items) }
{
    let style = key.style as usize;
    if key.row <= row && style < rows.len() && rows[style] < key.row {
        styles[style] = key.to;
        rows[style] = key.row;
    }
}

/// Clears each dropped style.
fn clear_dropped(styles: &mut Vec<Style>, f: &Dropped)
    requires { vec_len styles.old < 2 ^ 32 }
    ensures len { length styles.new.items ≡ length styles.old.items }
    ensures styles { (k : ℕ) (d : StyleOf) → k < length styles.old.items → slice_index_or styles.new.items k d ≡ (if dropped_by f.now k then NO_COLOUR else slice_index_or styles.old.items k d) }
{
    for id in 0..styles.len() {
        if f.has(id as u32) {
            styles[id] = NO_COLOUR;
        }
    }
}
