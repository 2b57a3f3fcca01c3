//! Pixels in hexadecimal: red, green, blue and matte, as `0a141eff`.

use std::alloc::{AllocError, Global};

/// Writes a space and then the pixel, for each pixel.
pub fn push_pixels(text: &mut String, alloc: Global, bytes: &[u8]) -> Result<(), AllocError> {
    for pixel in bytes.chunks(4) {
        text.push(' ')?;
        push_bytes(text, alloc, pixel)?;
    }
    Ok(())
}

fn push_bytes(text: &mut String, alloc: Global, bytes: &[u8]) -> Result<(), AllocError> {
    for byte in bytes {
        let digits = format!(in alloc; "{byte:02x}")?;
        text.push_str(digits.as_str())?;
    }
    Ok(())
}
