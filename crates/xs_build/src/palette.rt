//! The palettes of CM32 drawings.

ghost use Rattle.std.specs.Prelude.{◌≡◌, ◌↔◌, ◌≤◌, IsTrue, IfOk, MatchOption, true, false, length};
ghost use Rattle.xs_base.specs.declared.limits.TheConstants.{MOST_STYLES};
ghost use Rattle.xs_meaning.specs.Palettes.{as_written, is_as_written, tint_at, tint_by};
ghost use Rattle.xs_tint.specs.Filters.{dropped_by};
ghost use Rattle.xs_tint.specs.Tints.{tint_of};

use std::alloc::Global;
use xs_base::Memory;
use xs_meaning::filters::clear_pixels_at_the_end_tell_nothing;
use xs_palette::{Palette, PaletteFault};
use xs_scene::Colours;
use xs_tint::{Dropped, palette_at};

/// The palette that shows at a row, where it gives some style another pixel than is written.
pub(crate) fn repainted(
    alloc: Global,
    c: &Colours,
    row: u32,
    f: &Dropped,
) -> Result<Option<Palette>, Memory>
    requires { length c.now.styles ≤ MOST_STYLES }
    ensures { IfOk result (λ p. MatchOption p (is_as_written c.now row (dropped_by f.now) ≡ true)
        (λ p. (is_as_written c.now row (dropped_by f.now) ≡ false) × (tint_of p ≡ tint_at c.now row (dropped_by f.now)))) }
{
    let shown = palette_at(alloc, c, row, f)?;
    let written = written_palette(alloc, c)?;
    if have_one_tint(&shown, &written) {
        Ok(None)
    } else {
        Ok(Some(shown))
    }
}

/// The palette as it is written.
fn written_palette(alloc: Global, c: &Colours) -> Result<Palette, Memory>
    requires { length c.now.styles ≤ MOST_STYLES }
    ensures { IfOk result (λ p. tint_of p ≡ tint_by c.now (as_written c.now)) }
{
    clear_pixels_at_the_end_tell_nothing();
    match Palette::from_styles(alloc, c.styles.items()) {
        Ok(palette) => Ok(palette),
        Err(PaletteFault::TooMany) => unreachable!(),
        Err(PaletteFault::Memory) => Err(Memory),
    }
}

/// Whether two palettes give every style the same pixel.
fn have_one_tint(a: &Palette, b: &Palette) -> bool
    ensures { IsTrue result ↔ (tint_of a.now ≡ tint_of b.now) }
{
    clear_pixels_at_the_end_tell_nothing();
    let count = a.table().len().max(b.table().len()) / 4;
    for id in 0..count as u32 {
        if a.style(id) != b.style(id) {
            return false;
        }
    }
    true
}
