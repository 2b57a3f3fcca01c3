//! Frames as text.

ghost use Rattle.std.specs.Prelude.{◌+◌, ◌≤◌, length};

use crate::hexadecimal::push_pixels;
use std::alloc::Global;
use std::io;

/// The widest frame of which each pixel is printed.
const WIDEST: usize = 32;

/// The number of four bytes, the lowest first.
fn number_at(bytes: &[u8], at: usize) -> usize
    requires { at + 4 ≤ length bytes.now }
{
    u32::from_le_bytes([bytes[at], bytes[at + 1], bytes[at + 2], bytes[at + 3]]) as usize
}

/// A number that depends on each byte and its place.
fn fold(bytes: &[u8]) -> u32 {
    let mut folded = 0u32;
    for byte in bytes {
        folded = folded.wrapping_mul(31).wrapping_add(u32::from(*byte));
    }
    folded
}

/// The size of a frame and its rows of pixels, each on a line, the lowest first. Of a wide frame stands
/// one number that all its pixels give.
pub fn push_frame(text: &mut String, alloc: Global, bytes: &[u8]) -> io::Result<()> {
    let Some((head, pixels)) = bytes.split_at_checked(12) else {
        return Ok(text.push_str(" too short")?);
    };
    let (w, h) = (number_at(head, 4), number_at(head, 8));
    let size = format!(in alloc; " {w} by {h}")?;
    text.push_str(size.as_str())?;
    if w == 0 || w > WIDEST {
        let folded = format!(in alloc; " folded {}", fold(pixels))?;
        return Ok(text.push_str(folded.as_str())?);
    }
    for row in pixels.chunks(4 * w) {
        text.push_str("\n   ")?;
        push_pixels(text, alloc, row)?;
    }
    Ok(())
}
