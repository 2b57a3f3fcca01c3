ghost use Rattle.std.specs.Prelude.{◌≡◌, ℕ, ◌+◌, ◌*◌, ◌<◌, ◌≤◌, ◌^◌, [], ◌∷◌, length, slice_index_or};
ghost use Rattle.xs_base.specs.declared.limits.TheConstants.{STYLE_NUMBERS};
ghost use Rattle.std.specs.Simd.Lanes.{chunk};
ghost use Rattle.xs_pixel.specs.Channels.{Channels, IsPixel};
ghost use Rattle.xs_cm32.specs.WordRows.{words};
ghost use Rattle.xs_cm32.specs.Word.{ink_of, paint_of, tone_of, word_of, mixed, colour_of};

use std::marker::Model;
use std::simd::prelude::*;
use xs_pixel::Pixel;

/// A pixel of a CM32 drawing, as its word: the number of the ink style in the high 12 bits, that of
/// the paint style in the next 12, and the tone in the low 8. Tone 0 is pure ink, 255 pure paint.
#[derive(Clone, Copy, Debug, PartialEq, Eq)]
pub struct Cm32(pub u32);

impl Model for Cm32 {
    ghost use Rattle.std.specs.Prelude.{ℕ};

    ghost Value = { ℕ };

    ghost view = { λ w. w.0 };

    ghost inverse = { λ n. record { 0 = n } };
}

impl Cm32 {
    /// The word with number `place` of a row of bytes, lowest byte first.
    pub fn from_row(row: &[u8], place: usize) -> Cm32
        requires { 4 * place + 4 ≤ length row.now }
        ensures { result ≡ slice_index_or (words row.now) place 0 }
    {
        word_at(row, 4 * place)
    }

    /// The number of the ink style, below 4096.
    pub fn ink(self) -> u32
        ensures number { result ≡ ink_of self }
        ensures small { result < STYLE_NUMBERS }
    {
        self.0 >> 20
    }

    /// The number of the paint style, below 4096.
    pub fn paint(self) -> u32
        ensures number { result ≡ paint_of self }
        ensures small { result < STYLE_NUMBERS }
    {
        (self.0 >> 8) & 0xfff
    }

    /// How much of the paint there is, in parts of 255.
    pub fn tone(self) -> u8
        ensures { result ≡ tone_of self }
    {
        (self.0 & 0xff) as u8
    }
}

/// The word whose bytes begin at the byte `at` of a row, lowest byte first.
pub fn word_at(row: &[u8], at: usize) -> Cm32
    requires { at + 4 ≤ length row.now }
    ensures { words (chunk at 4 row.now) ≡ result ∷ [] }
{
    Cm32(u32::from_le_bytes(u8x4::from_slice(&row[at..]).to_array()))
}

/// The layout of a word: its three parts determine it, and every three parts in range have a word.
pub fn word_layout()
    ensures determined { (w : ℕ) → word_of (ink_of w) (paint_of w) (tone_of w) ≡ w }
    ensures ink { (i p t : ℕ) → p < STYLE_NUMBERS → t < 256 → ink_of (word_of i p t) ≡ i }
    ensures paint { (i p t : ℕ) → p < STYLE_NUMBERS → t < 256 → paint_of (word_of i p t) ≡ p }
    ensures tone { (i p t : ℕ) → t < 256 → tone_of (word_of i p t) ≡ t }
    ensures fits { (i p t : ℕ) → i < STYLE_NUMBERS → p < STYLE_NUMBERS → t < 256 → word_of i p t < 2 ^ 32 }
{}

/// The colour of each word with two pixels is a pixel.
pub fn words_have_pixels()
    ensures { (w : ℕ) (ink paint : Channels) → IsPixel ink → IsPixel paint → IsPixel (colour_of w ink paint) }
{}

/// Tone 0 gives the ink and tone 255 the paint.
pub fn pure_tones()
    ensures ink { (w : ℕ) (ink paint : Channels) → tone_of w ≡ 0 → colour_of w ink paint ≡ ink }
    ensures paint { (w : ℕ) (ink paint : Channels) → tone_of w ≡ 255 → colour_of w ink paint ≡ paint }
{}

/// A channel of the mix, by the tone.
#[tactic(auto, unfolding(crate::specs::Word::mixed))]
fn mix(tone: u8, ink: u8, paint: u8) -> u8
    ensures { result ≡ mixed tone ink paint }
{
    ((ink as u16 * (255 - tone) as u16 + paint as u16 * tone as u16) / 255) as u8
}

/// The colour of `w` with these premultiplied pixels of its ink and its paint.
pub fn colour(w: Cm32, ink: Pixel, paint: Pixel) -> Pixel
    ensures { result ≡ colour_of w ink paint }
{
    let tone = w.tone();
    Pixel::from_bytes([
        mix(tone, ink.r(), paint.r()),
        mix(tone, ink.g(), paint.g()),
        mix(tone, ink.b(), paint.b()),
        mix(tone, ink.m(), paint.m()),
    ])
}
