use crate::position::Position;
use crate::walk::Walk;
use xs_cm32::{Cm32, colour};
use xs_pixel::{Film, Pixel};
use xs_rawfile::Drawing;
use xs_scene::Kind;

impl<K: Film> Walk<'_, K> {
    ghost use Rattle.std.specs.Prelude.{◌≡◌, ◌<◌, Some, length, slice_index_or};
    ghost use Rattle.xs_cm32.specs.Word.{colour_under};
    ghost use Rattle.xs_meaning.specs.Drawings.{colouring_at};
    ghost use Rattle.xs_check.specs.Good.{files_of};
    ghost use Rattle.xs_direct.specs.Pictures.{shown_pixel};
    ghost use Rattle.xs_direct.specs.Values.{drawing_shown, dropped_in, style_in};

    /// The pixel of a drawing at a point; clear where it isn't held.
    pub(crate) fn drawing_at(&self, d: u32, p: Position) -> Pixel
        requires { d < length (files_of self.now.scene.now.levels) }
        ensures { result ≡ drawing_shown self.now d p }
    {
        match self.drawings.get(d) {
            Some(drawing) => self.shown_at(d, drawing, p),
            None => Pixel::CLEAR,
        }
    }

    /// The pixel of a drawing that is held, by the kind of its level.
    fn shown_at(&self, d: u32, drawing: &Drawing, p: Position) -> Pixel
        requires { d < length (files_of self.now.scene.now.levels) }
        ensures { result ≡ shown_pixel (colouring_at self.now.scene.now d self.now.spot.row (dropped_in self.now)) drawing.now p }
    {
        match self.scene.kind(d) {
            Kind::Colour => drawing.pixel(p.x, p.y),
            Kind::Cm32(palette) => self.coloured_at(palette, drawing, p),
        }
    }

    /// The pixel of a CM32 drawing at a point, under a palette.
    fn coloured_at(&self, palette: u32, drawing: &Drawing, p: Position) -> Pixel
        ensures { result ≡ shown_pixel (Some (style_in self.now palette)) drawing.now p }
    {
        match drawing.word(p.x, p.y) {
            Some(word) => self.word_colour(palette, word),
            None => Pixel::CLEAR,
        }
    }

    /// The pixel of a word under a palette.
    fn word_colour(&self, palette: u32, word: Cm32) -> Pixel
        ensures { result ≡ colour_under (style_in self.now palette) word }
    {
        let ink = self.style_pixel(palette, word.ink());
        let paint = self.style_pixel(palette, word.paint());
        colour(word, ink, paint)
    }

    /// The pixel of a style of a palette: clear if a filter drops it.
    fn style_pixel(&self, palette: u32, style: u32) -> Pixel
        ensures { result ≡ style_in self.now palette style }
    {
        if self.filters.drops(style) {
            Pixel::CLEAR
        } else {
            self.scene.style_at(palette, self.spot.row, style)
        }
    }
}
