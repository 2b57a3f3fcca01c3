ghost use Rattle.std.specs.Prelude.{◌≡◌, ℕ, ◌*◌, ◌≤◌, ◌↔◌, ◌+◌, ℤ, pos, ◌+ℤ◌, int_le, int_lt, ◌&&◌, true, length, map, None, Some, slice_index_or, IsTrue, IsSome, IfSome};
ghost use Rattle.xs_pixel.specs.Picture.{is_in_box, place_in_box, at_point, pixel_at};
ghost use Rattle.xs_rawfile.specs.Held.{plain_picture, words_of};
ghost use Rattle.std.specs.Simd.Lanes.{Each1};
ghost use Rattle.xs_pixel.specs.Channels.{IsPixel};
ghost use Rattle.xs_pixel.specs.PixelRows.{pixels};
ghost use Rattle.xs_rawfile.specs.Raw.{is_side, is_place, kind_byte, Raw, raw, IsRaw, IsSide, IsPlace, Fills};

use crate::premultiplied::first_unmultiplied;
use crate::shown::pixel_under;
use std::marker::Model;
use xs_base::List;
use xs_base::limits::{FARTHEST_CORNER, LONGEST_DRAWING_SIDE};
use xs_cm32::Cm32;
use xs_pixel::Pixel;
use xs_pixel::laws::points_of_a_box_have_places;

/// What the four bytes of a pixel are in a file.
#[derive(Clone, Copy, Debug, PartialEq, Eq)]
pub enum RawKind {
    /// Premultiplied pixels: red, green, blue and matte.
    Colour,
    /// CM32 words, the lowest byte first.
    Cm32,
}

impl RawKind {
    /// The byte that stands for the kind in a file.
    pub(crate) fn byte(self) -> u8
        ensures { result ≡ kind_byte self }
    {
        match self {
            RawKind::Colour => 0,
            RawKind::Cm32 => 1,
        }
    }
}

/// A drawing as its file holds it: the corner of its box with the least x and y, the sides of the
/// box, and four bytes for each pixel, in rows from the lowest up and each from left to right.
#[derive(Debug, Drop)]
pub struct Drawing {
    pub(crate) x0: i32,
    pub(crate) y0: i32,
    pub(crate) w: u32,
    pub(crate) h: u32,
    pub(crate) kind: RawKind,
    pub(crate) bytes: List<u8>,
}

impl Model for Drawing {
    ghost use Rattle.xs_rawfile.specs.Raw.{Raw, raw, IsRaw};

    ghost Value = { Raw };

    ghost view = { λ d. raw d.x0 d.y0 d.w d.h d.kind d.bytes };

    ghost invariant = { λ d. IsRaw (raw d.x0 d.y0 d.w d.h d.kind d.bytes) };
}

impl Drawing {
    /// The drawing with these fields; None exactly where its file would be refused.
    pub fn new(x0: i32, y0: i32, w: u32, h: u32, kind: RawKind, bytes: List<u8>) -> Option<Drawing>
        ensures valid { IsSome result ↔ IsRaw (raw x0 y0 w h kind bytes) }
        ensures value { IfSome result (λ d. d ≡ raw x0 y0 w h kind bytes) }
    {
        if is_side(w)
            && is_side(h)
            && is_place(x0)
            && is_place(y0)
            && bytes.items().len() == 4 * (w as usize * h as usize)
            && fills(kind, bytes.items())
        {
            Some(Drawing {
                x0,
                y0,
                w,
                h,
                kind,
                bytes,
            })
        } else {
            None
        }
    }

    /// The least x of the box.
    pub fn x0(&self) -> i32
        ensures value { result ≡ self.now.x0 }
        ensures range { IsPlace result }
    {
        self.x0
    }

    /// The least y of the box.
    pub fn y0(&self) -> i32
        ensures value { result ≡ self.now.y0 }
        ensures range { IsPlace result }
    {
        self.y0
    }

    /// The pixels from left to right.
    pub fn w(&self) -> u32
        ensures value { result ≡ self.now.w }
        ensures range { IsSide result }
    {
        self.w
    }

    /// The pixels from bottom to top.
    pub fn h(&self) -> u32
        ensures value { result ≡ self.now.h }
        ensures range { IsSide result }
    {
        self.h
    }

    /// Whether a point lies in the box.
    fn contains(&self, x: i32, y: i32) -> bool
        ensures { result ≡ is_in_box self.now.x0 self.now.y0 self.now.w self.now.h x y }
    {
        lies(self.x0, self.w, x) && lies(self.y0, self.h, y)
    }

    /// How many pixels come before the one at a point; None beyond the box.
    pub(crate) fn place(&self, x: i32, y: i32) -> Option<usize>
        ensures inside { IfSome result (λ at. at ≡ place_in_box self.now.x0 self.now.y0 self.now.w x y) }
        ensures within { IsSome result ↔ (is_in_box self.now.x0 self.now.y0 self.now.w self.now.h x y ≡ true) }
        ensures room { IfSome result (λ at. 4 * at + 4 ≤ length self.now.bytes) }
    {
        points_of_a_box_have_places();
        if self.contains(x, y) {
            let row = y.abs_diff(self.y0) as usize;
            let column = x.abs_diff(self.x0) as usize;
            Some(row * self.w as usize + column)
        } else {
            None
        }
    }

    /// The pixel of a colour drawing at a point; clear beyond the box, and for a CM32 drawing.
    pub fn pixel(&self, x: i32, y: i32) -> Pixel
        ensures { result ≡ pixel_at (plain_picture self.now) x y }
    {
        pixel_under(self, &[], None, x, y)
    }

    /// The word of a CM32 drawing at a point; None beyond the box, and for a colour drawing.
    pub fn word(&self, x: i32, y: i32) -> Option<Cm32>
        ensures { result ≡ at_point (plain_picture self.now) (map (λ w. Some w) (words_of self.now)) None x y }
    {
        match self.place(x, y) {
            Some(at) => self.word_in(at),
            None => None,
        }
    }

    /// The word with number `at` of a CM32 drawing, and None for a colour drawing.
    fn word_in(&self, at: usize) -> Option<Cm32>
        requires { 4 * at + 4 ≤ length self.now.bytes }
        ensures { result ≡ slice_index_or (map (λ w. Some w) (words_of self.now)) at None }
    {
        match self.kind {
            RawKind::Colour => None,
            RawKind::Cm32 => Some(Cm32::from_row(self.bytes.items(), at)),
        }
    }

    /// What the bytes of a pixel are.
    pub fn kind(&self) -> RawKind
        ensures { result ≡ self.now.kind }
    {
        self.kind
    }

    /// The bytes of all pixels.
    pub fn bytes(&self) -> &[u8]
        ensures value { result.now ≡ self.now.bytes }
        ensures raw { IsRaw self.now }
    {
        self.bytes.items()
    }
}

/// Whether the place is one of the `len` places from `from` on.
fn lies(from: i32, len: u32, at: i32) -> bool
    requires { IsPlace from × IsSide len }
    ensures { result ≡ (int_le from at && int_lt at (from +ℤ pos len)) }
{
    from <= at && at < from + len as i32
}

/// Whether the bytes may stand for pixels of a drawing of this kind.
fn fills(kind: RawKind, bytes: &[u8]) -> bool
    ensures { IsTrue result ↔ Fills kind bytes.now }
{
    match kind {
        RawKind::Colour => fills_colours(bytes),
        RawKind::Cm32 => true,
    }
}

fn fills_colours(bytes: &[u8]) -> bool
    ensures { IsTrue result ↔ Each1 IsPixel (pixels bytes.now) }
{
    match first_unmultiplied(bytes) {
        Some(_) => false,
        None => true,
    }
}

/// Whether a drawing may have a side of so many pixels.
pub(crate) fn is_side(side: u32) -> bool
    ensures test { result ≡ is_side side }
    ensures fact { IsTrue result ↔ IsSide side }
{
    1 <= side && side <= LONGEST_DRAWING_SIDE
}

/// Whether the corner of a drawing may lie at this place of an axis.
pub(crate) fn is_place(at: i32) -> bool
    ensures test { result ≡ is_place at }
    ensures fact { IsTrue result ↔ IsPlace at }
{
    let farthest = FARTHEST_CORNER as i32;
    -farthest <= at && at <= farthest
}
