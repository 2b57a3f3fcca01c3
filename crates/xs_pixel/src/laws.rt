//! Laws of pixels, each on a function that does nothing or only names a constant: its contract is the
//! law.

ghost use Rattle.std.specs.Prelude.{◌≡◌, ℕ, ◌+◌, ◌-◌, ◌*◌, ◌<◌, ◌≤◌, ◌++◌, ℤ, true, List, length, drop};
ghost use Rattle.std.specs.Simd.Lanes.{chunk, put_chunk};
ghost use Rattle.xs_pixel.specs.Channels.{Channels, IsPixel, clear};
ghost use Rattle.xs_pixel.specs.Operations.{product, over_of, add_of, sub_of, mult_of, min_of, max_of, matte_in_of, matte_out_of, apply_of};
ghost use Rattle.xs_pixel.specs.Picture.{is_in_box, place_in_box};
ghost use Rattle.xs_pixel.specs.PixelRows.{pixels};
ghost use Rattle.xs_pixel.specs.declared.operation.Op.{Op};

use crate::pixel::Pixel;

/// The clear pixel has no colour and no matte.
pub fn clear_pixel_has_no_channel() -> Pixel
    ensures { result ≡ clear }
{
    Pixel::CLEAR
}

/// A clear pixel under each operation that adds to what there is leaves the other input.
pub fn clear_input_vanishes()
    ensures over_first { (p : Channels) → IsPixel p → over_of clear p ≡ p }
    ensures over_second { (p : Channels) → over_of p clear ≡ p }
    ensures add_first { (p : Channels) → IsPixel p → add_of clear p ≡ p }
    ensures add_second { (p : Channels) → IsPixel p → add_of p clear ≡ p }
    ensures max_first { (p : Channels) → max_of clear p ≡ p }
    ensures max_second { (p : Channels) → max_of p clear ≡ p }
    ensures sub_first { (p : Channels) → sub_of clear p ≡ p }
    ensures matte_out_second { (p : Channels) → matte_out_of p clear ≡ p }
{}

/// A clear pixel under each operation that takes a common part leaves nothing.
pub fn clear_input_clears()
    ensures sub_second { (p : Channels) → sub_of p clear ≡ clear }
    ensures mult_first { (p : Channels) → mult_of clear p ≡ clear }
    ensures mult_second { (p : Channels) → mult_of p clear ≡ clear }
    ensures min_first { (p : Channels) → min_of clear p ≡ clear }
    ensures min_second { (p : Channels) → min_of p clear ≡ clear }
    ensures matte_in_first { (p : Channels) → matte_in_of clear p ≡ clear }
    ensures matte_in_second { (p : Channels) → matte_in_of p clear ≡ clear }
    ensures matte_out_first { (p : Channels) → matte_out_of clear p ≡ clear }
{}

/// Each operation on pixels gives a pixel.
pub fn operations_keep_pixels()
    ensures { (op : Op) (u d : Channels) → IsPixel u → IsPixel d → IsPixel (apply_of op u d) }
{}

/// A row of bytes is a row of pixels, four bytes for each: so are its parts, two rows one after the
/// other, and a row that is written over a part of it.
pub fn rows_of_bytes_are_rows_of_pixels()
    ensures count { (n : ℕ) (row : List ℕ) → length row ≡ 4 * n → length (pixels row) ≡ n }
    ensures joined { (n : ℕ) (row more : List ℕ) → length row ≡ 4 * n → pixels (row ++ more) ≡ pixels row ++ pixels more }
    ensures rest { (k : ℕ) (row : List ℕ) → pixels (drop (4 * k) row) ≡ drop k (pixels row) }
    ensures part { (k n : ℕ) (row : List ℕ) → pixels (chunk (4 * k) (4 * n) row) ≡ chunk k n (pixels row) }
    ensures written { (k n : ℕ) (row more : List ℕ) → length more ≡ 4 * n → pixels (put_chunk (4 * k) row more) ≡ put_chunk k (pixels row) (pixels more) }
{}

/// Each point of a box has a place among the points of the box.
pub fn points_of_a_box_have_places()
    ensures { (x0 y0 : ℤ) (w h : ℕ) (x y : ℤ) → is_in_box x0 y0 w h x y ≡ true → place_in_box x0 y0 w x y < w * h }
{}

/// The product of two channels is the whole number nearest to their product in parts of 255: it is
/// less than one half away, and no other whole number is. Since 255 is odd there is no tie.
pub fn product_is_nearest()
    ensures above { (x y : ℕ) → 255 * product x y ≤ x * y + 127 }
    ensures below { (x y : ℕ) → x * y ≤ 255 * product x y + 127 }
    ensures only { (x y n : ℕ) → 255 * n ≤ x * y + 127 → x * y ≤ 255 * n + 127 → n ≡ product x y }
{}

/// A channel of over, in parts of 255, is less than one half away from the exact value of Porter and
/// Duff, which is `u + d * (255 - matte) / 255`.
pub fn over_is_nearest_to_porter_and_duff()
    ensures above { (u d m : ℕ) → 255 * (u + product d (255 - m)) ≤ 255 * u + d * (255 - m) + 127 }
    ensures below { (u d m : ℕ) → 255 * u + d * (255 - m) ≤ 255 * (u + product d (255 - m)) + 127 }
{}
