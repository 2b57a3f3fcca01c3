ghost use Rattle.std.specs.Prelude.{◌≡◌};
ghost use Rattle.xs_pixel.specs.Points.{point};

use std::marker::Model;

/// How far something is moved, in pixels: to the right and up.
#[derive(Clone, Copy, Debug, PartialEq, Eq)]
pub struct Offset {
    pub x: i32,
    pub y: i32,
}

impl Model for Offset {
    ghost use Rattle.xs_pixel.specs.Points.{Point, point};

    ghost Value = { Point };

    ghost view = { λ o. point o.x o.y };

    ghost inverse = { λ p. record { x = p.x; y = p.y } };
}

impl Offset {
    /// The offset with these coordinates.
    pub fn of(place: (i32, i32)) -> Offset
        ensures { result ≡ point place.0 place.1 }
    {
        let (x, y) = place;
        Offset { x, y }
    }
}
