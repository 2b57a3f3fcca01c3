use std::marker::Model;
use xs_step::Offset;

/// A point of the picture.
#[derive(Clone, Copy, Debug)]
pub(crate) struct Position {
    pub x: i32,
    pub y: i32,
}

impl Model for Position {
    ghost use Rattle.xs_pixel.specs.Points.{Point, point};

    ghost Value = { Point };

    ghost view = { λ s. point s.x s.y };

    ghost inverse = { λ p. record { x = p.x; y = p.y } };
}

impl Position {
    ghost use Rattle.std.specs.Prelude.{◌≡◌, ◌*◌, ◌≤◌, pos, ◌-ℤ◌};
    ghost use Rattle.xs_meaning.specs.Bounds.{IsWithin};
    ghost use Rattle.xs_pixel.specs.Points.{Point, point, plus, minus};
    ghost use Rattle.xs_direct.specs.Room.{CanMove, blur_reach, peg_reach};

    /// The point less an offset.
    pub(crate) fn less(self, by: Offset) -> Position
        requires room { CanMove peg_reach self }
        requires near { IsWithin peg_reach by }
        ensures { result ≡ minus self by }
    {
        Position {
            x: self.x - by.x,
            y: self.y - by.y,
        }
    }

    /// The offset of a place of a square from its middle. The places are numbered along each axis from 0,
    /// and the square has `2 * n + 1` of them each way.
    pub(crate) fn offset(i: u32, j: u32, n: u32) -> Position
        requires small { n ≤ blur_reach }
        requires across { i ≤ 2 * n }
        requires up { j ≤ 2 * n }
        ensures value { result ≡ point (pos i -ℤ pos n) (pos j -ℤ pos n) }
        ensures near { IsWithin blur_reach result }
    {
        Position {
            x: i as i32 - n as i32,
            y: j as i32 - n as i32,
        }
    }

    /// The point plus an offset.
    pub(crate) fn plus(self, by: Position) -> Position
        requires room { CanMove blur_reach self }
        requires near { IsWithin blur_reach by }
        ensures { result ≡ plus self by }
    {
        Position {
            x: self.x + by.x,
            y: self.y + by.y,
        }
    }
}
