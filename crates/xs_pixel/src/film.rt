ghost use Rattle.std.specs.Prelude.{ℕ, Option, None};
ghost use Rattle.xs_pixel.specs.Picture.{Picture};

use std::marker::Brand;

/// Which drawings a render speaks of. It has no functions: only contracts see its `pictures`, which
/// are untold, or give each drawing number its picture, if it has one.
pub trait Film {
    ghost pictures: { Option (ℕ → Option Picture) };
}

/// The film of a caller who tells nothing; a call that passes it may choose the pictures from its
/// arguments.
impl Film for Brand {
    ghost pictures = { None };
}
