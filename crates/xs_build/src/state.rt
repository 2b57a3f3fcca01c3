ghost use Rattle.std.specs.Prelude.{◌≡◌, pos, ◌<◌, ◌^◌, ◌+ℤ◌, ◌*◌, ◌+◌};
ghost use Rattle.xs_base.specs.declared.limits.TheConstants.{DEEPEST_NEST, FARTHEST_PLACE};
ghost use Rattle.xs_pixel.specs.Points.{point};
ghost use Rattle.xs_meaning.specs.Bounds.{IsWithin};

use xs_step::{Offset, Spot};

/// A spot as it stands in a row: under an offset, in pixels to the right and up; under a set of dropped
/// styles, by its number; and on tiles that are grown, in pixels.
#[derive(Clone, Copy, Debug, PartialEq, Eq, Hash)]
pub(crate) struct State {
    pub(crate) spot: Spot,
    pub(crate) x: i32,
    pub(crate) y: i32,
    pub(crate) dropped: u32,
    pub(crate) growth: u32,
}

impl State {
    /// Another spot in place of this one.
    pub(crate) fn at(self, spot: Spot) -> State
        ensures { result ≡ record self { spot = spot } }
    {
        State { spot, ..self }
    }

    /// Under no offset.
    pub(crate) fn still(self) -> State
        ensures { result ≡ record self { x = pos 0; y = pos 0 } }
    {
        State { x: 0, y: 0, ..self }
    }

    /// Under another set of dropped styles.
    pub(crate) fn under(self, dropped: u32) -> State
        ensures { result ≡ record self { dropped = dropped } }
    {
        State { dropped, ..self }
    }

    /// On tiles that are grown by more pixels.
    pub(crate) fn grown(self, by: u32) -> State
        requires { self.growth + by < 2 ^ 32 }
        ensures { result ≡ record self { growth = self.growth + by } }
    {
        State {
            growth: self.growth + by,
            ..self
        }
    }

    /// Under an offset more.
    pub(crate) fn moved(self, by: Offset) -> State
        requires near { IsWithin (FARTHEST_PLACE * (DEEPEST_NEST + 1)) (point self.x self.y) }
        requires by { IsWithin FARTHEST_PLACE by }
        ensures { result ≡ record self { x = self.x +ℤ by.x; y = self.y +ℤ by.y } }
    {
        State {
            x: self.x + by.x,
            y: self.y + by.y,
            ..self
        }
    }
}
