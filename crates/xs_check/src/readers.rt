//! What a checked scene says of one row, and its drawings by their numbers.
ghost use Rattle.std.specs.Prelude.{◌≡◌, ◌<◌, [], Some, length, slice_get, slice_index_or};
ghost use Rattle.xs_base.specs.declared.limits.TheConstants.{FARTHEST_PLACE};
ghost use Rattle.std.specs.Option.{option_map};
ghost use Rattle.xs_scene.specs.Ranges.{IsOffset};
ghost use Rattle.xs_meaning.specs.Bounds.{IsWithin};
ghost use Rattle.xs_meaning.specs.Cells.{cell_at};
ghost use Rattle.xs_meaning.specs.Drawings.{number_of, level_of, no_colours};
ghost use Rattle.xs_meaning.specs.Palettes.{key_at, none_dropped};
ghost use Rattle.xs_meaning.specs.Palettes.{keyed as keyed_style};
ghost use Rattle.xs_meaning.specs.Palettes.{style_at as pixel_at};
ghost use Rattle.xs_meaning.specs.Places.{peg_at, place_of};
ghost use Rattle.xs_meaning.specs.Places.{own_offset as offset_at};
ghost use Rattle.xs_pixel.specs.Points.{point};
ghost use Rattle.xs_meaning.specs.Walk.{sheet_at, column_at};
ghost use Rattle.xs_check.specs.Good.{IsGood, IsThere, HasPalette, files_of};
ghost use Rattle.xs_check.specs.Readers.{IsSeen, IsOwner};

use crate::good::GoodScene;
use xs_index::{key_in, offset_in, seen_in};
use xs_meaning::rules::cells_are_chosen_by_row;
use xs_pixel::{Pixel, Style};
use xs_scene::{Kind, Level, Name, Seen, Shown, StyleKey};
use xs_sheet::{Pegs, place_among};

/// The pegs of a sheet of a checked scene.
#[derive(Drop)]
struct SheetPegs<'s> {
    scene: &'s GoodScene,
    sheet: u32,
}

impl Pegs for SheetPegs<'_> {
    ghost use Rattle.xs_meaning.specs.Walk.{sheet_at};

    ghost sheet = { λ p. sheet_at p.scene.now.sheets p.sheet };

    fn own_offset(&self, peg: u32, row: u32) -> (i32, i32) {
        let scene = self.scene;
        scene.own_offset(self.sheet, peg, row)
    }

    fn parent(&self, peg: u32) -> Option<u32> {
        let scene = self.scene;
        scene.parent(self.sheet, peg)
    }
}

impl GoodScene {
    /// What a column of a sheet shows at a row. A sheet or a column that the scene lacks shows nothing.
    pub fn seen(&self, sheet: u32, column: u32, row: u32) -> Seen
        ensures value { result ≡ cell_at (column_at (sheet_at self.now.sheets sheet) column) row }
        ensures there { IsSeen self.now result }
    {
        cells_are_chosen_by_row();
        seen_in(self.index.cells(sheet, column), row)
    }

    /// A peg's own offset at a row: (0, 0) for a peg that the scene lacks.
    pub fn own_offset(&self, sheet: u32, peg: u32, row: u32) -> (i32, i32)
        ensures value { point result.0 result.1 ≡ offset_at (peg_at (sheet_at self.now.sheets sheet) peg).keys row }
        ensures across { IsOffset result.0 }
        ensures up { IsOffset result.1 }
    {
        offset_in(self.index.keys(sheet, peg), row)
    }

    /// The place of a peg at a row: the sum of its own offset and those of all its parents. Without a peg
    /// it is (0, 0).
    pub fn place(&self, sheet: u32, peg: Option<u32>, row: u32) -> (i32, i32)
        ensures value { point result.0 result.1 ≡ place_of (sheet_at self.now.sheets sheet) peg row }
        ensures near { IsWithin FARTHEST_PLACE (point result.0 result.1) }
    {
        let pegs = SheetPegs { scene: self, sheet };
        place_among(&pegs, peg, row)
    }

    /// The pixel of a style of a palette at a row, where no filter drops it. Style 0 is clear, and so is
    /// one that the palette lacks.
    pub fn style_at(&self, palette: u32, row: u32, style: u32) -> Pixel
        ensures { result ≡ pixel_at (slice_index_or self.now.palettes palette no_colours) row none_dropped style }
    {
        if style == 0 {
            return Pixel::CLEAR;
        }
        let Some(written) = self.written(palette, style) else {
            return Pixel::CLEAR;
        };
        keyed(self.key(palette, row, style), written).pixel()
    }

    /// How many drawings the levels of the scene have together.
    pub fn drawings(&self) -> u32
        ensures { result ≡ length (files_of self.now.levels) }
    {
        self.numbers.owners.as_slice().len() as u32
    }

    /// The number of a drawing: levels in order, then their drawings in order, from 0.
    pub fn number(&self, level: u32, index: u32) -> u32
        requires { IsThere self.now (Shown.Drawing level index) }
        ensures value { result ≡ number_of self.now.levels level index }
        ensures below { result < length (files_of self.now.levels) }
    {
        self.numbers.firsts[level as usize] + index
    }

    /// The file name of a drawing.
    pub fn file(&self, d: u32) -> &Name
        requires { d < length (files_of self.now.levels) }
        ensures { slice_get (files_of self.now.levels) d ≡ Some result.now }
    {
        let (level, index) = self.owner(d);
        &level.drawings.items()[index]
    }

    /// The kind of a drawing's level.
    pub fn kind(&self, d: u32) -> Kind
        requires { d < length (files_of self.now.levels) }
        ensures value { option_map (λ l. l.kind) (level_of self.now.levels d) ≡ Some result }
        ensures palette { HasPalette self.now result }
    {
        let (level, _index) = self.owner(d);
        level.kind
    }

    /// The level of a drawing, and the drawing's place in the level's list.
    fn owner(&self, d: u32) -> (&Level, usize)
        requires { d < length (files_of self.now.levels) }
        ensures owner { IsOwner self.now.levels d result.1 result.0.now }
        ensures good { IsGood self.now }
    {
        let scene = self.scene();
        self.numbers.owner(scene.levels.items(), d)
    }

    /// The parent of a peg.
    fn parent(&self, sheet: u32, peg: u32) -> Option<u32>
        ensures { result ≡ (peg_at (sheet_at self.now.sheets sheet) peg).parent }
    {
        let sheet = self.scene().sheets.items().get(sheet as usize)?;
        let peg = sheet.pegs.items().get(peg as usize)?;
        peg.parent
    }

    /// A style of a palette as it is written, if the palette has it.
    fn written(&self, palette: u32, style: u32) -> Option<Style>
        ensures { result ≡ slice_get (slice_index_or self.now.palettes palette no_colours).styles style }
    {
        let colours = self.scene().palettes.items().get(palette as usize)?;
        colours.styles.items().get(style as usize).copied()
    }

    /// The key that sets a style of a palette at a row.
    fn key(&self, palette: u32, row: u32, style: u32) -> Option<StyleKey>
        ensures { result ≡ key_at (slice_index_or self.now.palettes palette no_colours) row style }
    {
        key_in(self.index.style_keys(palette), style, row)
    }
}

/// A written style, or what a key sets it to.
fn keyed(key: Option<StyleKey>, written: Style) -> Style
    ensures { result ≡ keyed_style key written }
{
    match key {
        Some(key) => key.to,
        None => written,
    }
}
