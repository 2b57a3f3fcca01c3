ghost use Rattle.std.specs.Prelude.{◌≡◌};
ghost use Rattle.xs_alias.specs.Numbers.{is_clear_key};

use xs_pixel::{Op, Pixel};

/// An expression whose inputs are numbers that were given earlier.
#[derive(Clone, Copy, Debug, PartialEq, Eq, Hash)]
pub enum Key {
    /// Nothing.
    Clear,
    /// A drawing moved right by `dx` and up by `dy`, as its palette is written.
    Leaf {
        drawing: u32,
        dx: i32,
        dy: i32,
    },
    /// The same under the tint with a number.
    Tinted {
        drawing: u32,
        dx: i32,
        dy: i32,
        tint: u32,
    },
    /// One pixel everywhere.
    Card(Pixel),
    /// `op` of two inputs, `a` the first.
    Pair {
        op: Op,
        a: u32,
        b: u32,
    },
    /// The input blurred by a radius.
    Blur {
        a: u32,
        radius: u32,
    },
}

/// Whether a key is that of nothing.
pub(crate) fn is_nothing(key: Key) -> bool
    ensures { result ≡ is_clear_key key }
{
    match key {
        Key::Clear => true,
        Key::Leaf { .. }
        | Key::Tinted { .. }
        | Key::Card(_)
        | Key::Pair { .. }
        | Key::Blur { .. } => false,
    }
}
