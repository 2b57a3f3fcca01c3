use crate::filters::Filters;
use xs_check::GoodScene;
use xs_pixel::Film;
use xs_rawfile::Drawings;
use xs_step::{At, Spot};

/// A walk through a scene: the spot where it stands, how far it may still go, and the filters on its way.
#[derive_where(Clone, Copy)]
pub(crate) struct Walk<'a, K: Film> {
    pub(crate) scene: &'a GoodScene,
    pub(crate) drawings: &'a Drawings<K>,
    pub(crate) spot: Spot,
    /// How many nested sheets it may still go through.
    pub(crate) depth: u32,
    /// How many columns and nodes of the sheet it may still go through.
    pub(crate) below: u32,
    pub(crate) filters: &'a Filters<'a>,
}

impl<'a, K: Film> Walk<'a, K> {
    ghost use Rattle.std.specs.Prelude.{◌≡◌, ◌<◌, length, MatchOption};
    ghost use Rattle.xs_direct.specs.Steps.{IsAtEnd, IsFurther, IsInside, IsBelow};

    /// The walk with one step more behind it; None at its end.
    pub(crate) fn further(&self) -> Option<Walk<'a, K>>
        requires { self.now.spot.sheet < length self.now.scene.now.sheets }
        ensures { MatchOption result (IsAtEnd self.now) (IsFurther self.now) }
    {
        match self.spot.at {
            At::Row => self.inside(),
            At::Input(_) => self.one_below(),
        }
    }

    /// In the sheet, with all of its columns and nodes ahead.
    fn inside(&self) -> Option<Walk<'a, K>>
        requires { self.now.spot.sheet < length self.now.scene.now.sheets }
        ensures { MatchOption result (self.now.depth ≡ 0) (IsInside self.now) }
    {
        if self.depth == 0 {
            return None;
        }
        let sheet = self.scene.sheet(self.spot.sheet);
        let nodes = sheet.nodes.items();
        Some(Walk {
            depth: self.depth - 1,
            below: nodes.len() as u32 + 1,
            ..*self
        })
    }

    /// One column or node further.
    fn one_below(&self) -> Option<Walk<'a, K>>
        ensures { MatchOption result (self.now.below ≡ 0) (IsBelow self.now) }
    {
        if self.below == 0 {
            return None;
        }
        Some(Walk {
            below: self.below - 1,
            ..*self
        })
    }

    /// At another spot.
    pub(crate) fn at(&self, spot: Spot) -> Walk<'a, K>
        ensures { result ≡ record self.now { spot = spot } }
    {
        Walk { spot, ..*self }
    }

    /// Under these filters.
    pub(crate) fn under<'b>(&'b self, filters: &'b Filters<'b>) -> Walk<'b, K>
        ensures { result ≡ record self.now { filters = filters.entry } }
    {
        Walk { filters, ..*self }
    }
}
