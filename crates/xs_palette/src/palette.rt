ghost use Rattle.std.specs.Prelude.{◌≡◌, ℕ, ◌+◌, ◌-◌, ◌*◌, ◌<◌, ◌≤◌, ◌↔◌, min, length, slice_index_or, IfOk, IsErrOf};
ghost use Rattle.std.specs.Simd.Lanes.{Each1};
ghost use Rattle.xs_pixel.specs.Channels.{clear, IsPixel};
ghost use Rattle.xs_palette.specs.Styles.{written, style_of};
ghost use Rattle.xs_pixel.specs.PixelRows.{pixels};

use crate::fault::PaletteFault;
use std::alloc::Global;
use std::marker::Model;
use xs_base::limits::MOST_STYLES;
use xs_base::{Memory, crosses_threads};
use xs_pixel::laws::rows_of_bytes_are_rows_of_pixels;
use xs_pixel::{Pixel, Style};

/// The pixels of a palette's styles. Contracts see it as the list of these pixels, in which
/// `style_of` looks one up.
#[derive(Debug, Drop)]
pub struct Palette {
    // the pixels of its styles by number, and one clear pixel for all numbers past them
    table: Vec<u8>,
    // the place of that clear pixel
    past: usize,
}

impl Model for Palette {
    ghost use Rattle.std.specs.Prelude.{List};
    ghost use Rattle.xs_pixel.specs.Channels.{Channels};
    ghost use Rattle.xs_pixel.specs.PixelRows.{pixels};
    ghost use Rattle.xs_palette.specs.Table.{IsTable};

    ghost Value = { List Channels };

    ghost view = { λ p. pixels p.table.items };

    ghost invariant = { λ p. IsTable p.past p.table.items };
}

impl Palette {
    /// The palette with these styles, numbered from 0. The pixel of style 0 is clear, whatever is
    /// written for it.
    pub fn from_styles(alloc: Global, styles: &[Style]) -> Result<Palette, PaletteFault>
        ensures styles { IfOk result (λ p. style_of p ≡ style_of (written styles.now)) }
        ensures size { IfOk result (λ p. length p ≡ length styles.now + 1) }
        ensures too_many { IsErrOf result PaletteFault.TooMany ↔ (MOST_STYLES < length styles.now) }
    {
        if styles.len() > MOST_STYLES {
            return Err(PaletteFault::TooMany);
        }
        rows_of_bytes_are_rows_of_pixels();
        let mut table = Vec::with_capacity(alloc, 4 * (styles.len() + 1))?;
        for id in 0..styles.len() + 1 {
            table.extend_from_slice(&shown(styles, id).to_bytes())?;
        }
        Ok(Palette {
            table,
            past: styles.len(),
        })
    }

    /// The pixel of a style: clear for style 0 and for a number past the palette's last style.
    pub fn style(&self, id: u32) -> Pixel
        ensures { result ≡ style_of self.now id }
    {
        rows_of_bytes_are_rows_of_pixels();
        Pixel::from_row(&self.table, (id as usize).min(self.past))
    }

    /// The table in which a style is looked up: four bytes for each pixel. The pixel of a style is
    /// at the lesser of its number and the last place, which holds a clear pixel.
    pub fn table(&self) -> &[u8]
        ensures bytes { pixels result.now ≡ self.now }
        ensures whole { length result.now ≡ 4 * length self.now }
        ensures few { (0 < length self.now) × (length self.now ≤ MOST_STYLES + 1) }
        ensures valid { Each1 IsPixel self.now }
        ensures look_up { (id : ℕ)
            → slice_index_or self.now (min id (length self.now - 1)) clear ≡ style_of self.now id }
    {
        rows_of_bytes_are_rows_of_pixels();
        self.table.as_slice()
    }

    /// A second palette with the same pixels.
    pub fn copy(&self, alloc: Global) -> Result<Palette, Memory>
        ensures { IfOk result (λ p. p ≡ self.now) }
    {
        Ok(Palette {
            table: Vec::from_slice(alloc, &self.table)?,
            past: self.past,
        })
    }
}

/// The pixel that a palette with these styles shows for a number.
fn shown(styles: &[Style], id: usize) -> Pixel
    ensures { result ≡ style_of (written styles.now) id }
{
    if 0 < id && id < styles.len() {
        styles[id].pixel()
    } else {
        Pixel::CLEAR
    }
}

/// A palette may be sent to another thread, and shared with it.
pub fn palette_crosses_threads() {
    crosses_threads::<Palette>();
}
