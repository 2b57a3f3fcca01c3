ghost use Rattle.std.specs.Prelude.{◌≡◌, ◌*◌, IfOk, replicate};

use std::alloc::{AllocError, Global};
use xs_rect::Rect;

/// How many bytes the pixels of a rectangle have.
pub(crate) fn byte_count(rect: Rect) -> usize
    ensures { result ≡ 4 * (rect.w * rect.h) }
{
    4 * (rect.w() as usize * rect.h() as usize)
}

/// So many bytes, all 0.
pub(crate) fn zeros(alloc: Global, n: usize) -> Result<Vec<u8>, AllocError>
    ensures { IfOk result (λ bytes. bytes.items ≡ replicate n 0) }
{
    vec![in alloc; 0u8; n]
}
