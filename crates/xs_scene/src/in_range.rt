ghost use Rattle.std.specs.Prelude.{All};
ghost use Rattle.xs_scene.specs.Names.{IsName};
ghost use Rattle.xs_scene.specs.Ranges.{IsCamera, IsPegKey, IsExposure};
ghost use Rattle.xs_scene.specs.InRange.{IsStyle, StyleKeyInRange, ColoursInRange, LevelInRange, PegInRange, ColumnInRange, HasCardInRange, SheetInRange};

use crate::colours::{Colours, StyleKey};
use crate::column::{Column, Exposure};
use crate::level::Level;
use crate::name::Name;
use crate::node::Node;
use crate::peg::{Peg, PegKey};
use crate::scene::Camera;
use crate::sheet::Sheet;
use xs_base::List;
use xs_pixel::Style;

/// A part of a scene. Its types keep the ranges of its numbers; `in_range` tells contracts so. A body that
/// reads a field and drops it is there for the range alone, which comes with the value.
pub(crate) trait Ranged: Sized {
    ghost is_in_range: { Self → Type 0 };

    fn in_range(&self)
        ensures { is_in_range self.now };
}

/// Tells that each part of a list is in range.
pub(crate) fn each_in_range<T: Ranged>(list: &List<T>)
    ensures { All T.is_in_range list.now }
{
    for part in list.items() {
        part.in_range();
    }
}

impl Ranged for Style {
    ghost is_in_range = { IsStyle };

    fn in_range(&self) {
        let (_r, _g, _b, _a) = (self.r, self.g, self.b, self.a);
    }
}

impl Ranged for StyleKey {
    ghost is_in_range = { StyleKeyInRange };

    fn in_range(&self) {
        self.to.in_range();
    }
}

impl Ranged for Colours {
    ghost is_in_range = { ColoursInRange };

    fn in_range(&self) {
        let _ = &self.keys;
    }
}

impl Ranged for Name {
    ghost is_in_range = { IsName };

    fn in_range(&self) {
        let _ = self.text();
    }
}

impl Ranged for Level {
    ghost is_in_range = { LevelInRange };

    fn in_range(&self) {
        let _ = &self.drawings;
    }
}

impl Ranged for PegKey {
    ghost is_in_range = { IsPegKey };

    fn in_range(&self) {
        let _ = &self.row;
    }
}

impl Ranged for Peg {
    ghost is_in_range = { PegInRange };

    fn in_range(&self) {
        let _ = &self.keys;
    }
}

impl Ranged for Exposure {
    ghost is_in_range = { IsExposure };

    fn in_range(&self) {
        let _ = &self.from;
    }
}

impl Ranged for Column {
    ghost is_in_range = { ColumnInRange };

    fn in_range(&self) {
        let _ = &self.cells;
    }
}

impl Ranged for Node {
    ghost is_in_range = { HasCardInRange };

    fn in_range(&self) {
        if let Node::Card(style) = self {
            style.in_range();
        }
    }
}

impl Ranged for Camera {
    ghost is_in_range = { IsCamera };

    fn in_range(&self) {
        let _ = &self.w;
    }
}

impl Ranged for Sheet {
    ghost is_in_range = { SheetInRange };

    fn in_range(&self) {
        let _ = &self.nodes;
    }
}
