//! A table of three drawings.

ghost use Rattle.std.specs.Prelude.{◌≡◌};
ghost use Rattle.xs_levels_tests.specs.Three.{no_colours};

use std::alloc::Global;
use std::test::Fail;
use xs_base::List;
use xs_levels::FileTable;
use xs_scene::{Colours, Kind};

/// A table of three colour drawings, whose files are `d.xrl`, `e.xrl` and `f.xrl`, and of a palette without a style.
#[derive(Drop)]
pub(crate) struct Three {
    colours: Colours,
    ghost empty: { colours ≡ no_colours },
}

impl Three {
    pub(crate) fn new(alloc: Global) -> Result<Three, Fail> {
        let styles = List::of(Vec::new(alloc));
        let keys = List::of(Vec::new(alloc));
        let colours = Colours::new(styles, keys).ok_or("colours")?;
        Ok(Three { colours })
    }
}

impl FileTable for Three {
    ghost use Rattle.xs_levels_tests.specs.Three.{three};

    ghost told = { λ _. three };

    fn drawings(&self) -> u32 {
        3
    }

    fn file(&self, d: u32) -> &str {
        match d {
            0 => "d.xrl",
            1 => "e.xrl",
            _ => "f.xrl",
        }
    }

    fn kind(&self, _d: u32) -> Kind {
        Kind::Colour
    }

    fn palettes(&self) -> usize {
        1
    }

    fn palette(&self, i: usize) -> &Colours {
        match i {
            0 => &self.colours,
            _ => unreachable!(),
        }
    }
}
