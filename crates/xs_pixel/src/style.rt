ghost use Rattle.std.specs.Prelude.{◌≡◌};
ghost use Rattle.xs_pixel.specs.Operations.{premultiplied};

use crate::operation::mul255;
use crate::pixel::Pixel;

/// A straight colour of a palette: red, green, blue and matte, each from 0 to 255.
#[derive(Clone, Copy, Debug, PartialEq, Eq)]
pub struct Style {
    pub r: u8,
    pub g: u8,
    pub b: u8,
    pub a: u8,
}

impl Style {
    /// The premultiplied pixel of this colour.
    pub fn pixel(self) -> Pixel
        ensures { result ≡ premultiplied self.r self.g self.b self.a }
    {
        let Style { r, g, b, a } = self;
        Pixel {
            r: mul255(r, a),
            g: mul255(g, a),
            b: mul255(b, a),
            m: a,
        }
    }
}
