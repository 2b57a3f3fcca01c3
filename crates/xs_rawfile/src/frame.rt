ghost use Rattle.std.specs.Prelude.{◌≡◌, ◌++◌, IfOk, OnOk};
ghost use Rattle.xs_rawfile.specs.Frame.{frame_file_of, frame_header_of};

use std::alloc::Global;
use xs_base::Memory;
use xs_raster::Raster;

/// How many bytes of a frame file come before its pixels.
pub const FRAME_HEADER: usize = 12;

/// The bytes of the frame file with these pixels: the head of `push_frame_header`, and four bytes for each
/// pixel. An error is want of memory.
pub fn frame_bytes(alloc: Global, r: &Raster) -> Result<Vec<u8>, Memory>
    ensures { IfOk result (λ bytes. bytes.items ≡ frame_file_of r.now) }
{
    let rect = r.rect();
    let pixels = rect.w() as usize * rect.h() as usize;
    let mut bytes = Vec::with_capacity(alloc, FRAME_HEADER + 4 * pixels)?;
    push_frame_header(&mut bytes, rect.w(), rect.h())?;
    r.push_bytes(&mut bytes)?;
    Ok(bytes)
}

/// Puts last what a frame file has before its pixels: the letters XFR1, and the width and the height in
/// pixels, each as four bytes, the lowest first. After an error, which is want of memory, a part may stand
/// there.
pub fn push_frame_header(bytes: &mut Vec<u8>, w: u32, h: u32) -> Result<(), Memory>
    ensures { OnOk result (bytes.new.items ≡ bytes.old.items ++ frame_header_of w h) }
{
    bytes.extend_from_slice(b"XFR1")?;
    bytes.extend_from_slice(&w.to_le_bytes())?;
    bytes.extend_from_slice(&h.to_le_bytes())?;
    Ok(())
}
