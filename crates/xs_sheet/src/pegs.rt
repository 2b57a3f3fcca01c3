ghost use Rattle.std.specs.Prelude.{◌≡◌, ◌≤◌, ◌*◌};
ghost use Rattle.xs_base.specs.declared.limits.TheConstants.{LONGEST_PEG_CHAIN, FARTHEST_PLACE, FARTHEST_OFFSET};
ghost use Rattle.xs_meaning.specs.Bounds.{IsWithin};
ghost use Rattle.xs_meaning.specs.Places.{place_of};
ghost use Rattle.xs_meaning.specs.Places.{place_up as place_as_far};
ghost use Rattle.xs_pixel.specs.Points.{point};

use crate::keys::own_offset;
use xs_base::limits::LONGEST_PEG_CHAIN;
use xs_scene::Sheet;

/// The pegs of a sheet by their numbers.
pub trait Pegs {
    ghost use Rattle.std.specs.Prelude.{◌≡◌, ℕ};
    ghost use Rattle.xs_scene.specs.Ranges.{IsOffset};
    ghost use Rattle.xs_scene.specs.Records.{SheetRecord};
    ghost use Rattle.xs_meaning.specs.Places.{peg_at};
    ghost use Rattle.xs_meaning.specs.Places.{own_offset as offset_at};
    ghost use Rattle.xs_pixel.specs.Points.{point};

    /// The sheet whose pegs they are.
    ghost sheet: { Self → SheetRecord };

    /// A peg's own offset at a row: (0, 0) for a peg that the sheet lacks.
    fn own_offset(&self, peg: u32, row: u32) -> (i32, i32)
        ensures value { point result.0 result.1 ≡ offset_at (peg_at (sheet self.now) peg).keys row }
        ensures across { IsOffset result.0 }
        ensures up { IsOffset result.1 };

    /// The parent of a peg.
    fn parent(&self, peg: u32) -> Option<u32>
        ensures { result ≡ (peg_at (sheet self.now) peg).parent };
}

impl Pegs for Sheet {
    ghost sheet = { λ s. s };

    fn own_offset(&self, peg: u32, row: u32) -> (i32, i32) {
        match self.pegs.items().get(peg as usize) {
            Some(peg) => own_offset(peg, row),
            None => (0, 0),
        }
    }

    fn parent(&self, peg: u32) -> Option<u32> {
        let peg = self.pegs.items().get(peg as usize)?;
        peg.parent
    }
}

/// The place of a peg of a sheet at a row: the sum of its own offset and those of all its parents. Without a
/// peg it is (0, 0).
pub fn place(s: &Sheet, peg: Option<u32>, row: u32) -> (i32, i32)
    ensures value { point result.0 result.1 ≡ place_of s.now peg row }
    ensures near { IsWithin FARTHEST_PLACE (point result.0 result.1) }
{
    place_among(s, peg, row)
}

/// The place of one of some pegs at a row.
pub fn place_among<P: Pegs>(pegs: &P, peg: Option<u32>, row: u32) -> (i32, i32)
    ensures value { point result.0 result.1 ≡ place_of (P.sheet pegs.now) peg row }
    ensures near { IsWithin FARTHEST_PLACE (point result.0 result.1) }
{
    place_up(pegs, peg, row, LONGEST_PEG_CHAIN)
}

/// The place of a peg, as far as so many pegs up.
fn place_up<P: Pegs>(pegs: &P, peg: Option<u32>, row: u32, most: u32) -> (i32, i32)
    requires { most ≤ LONGEST_PEG_CHAIN }
    ensures value { point result.0 result.1 ≡ place_as_far most (P.sheet pegs.now) peg row }
    ensures near { IsWithin (FARTHEST_OFFSET * most) (point result.0 result.1) }
{
    if most == 0 {
        return (0, 0);
    }
    let Some(number) = peg else {
        return (0, 0);
    };
    let (x, y) = pegs.own_offset(number, row);
    let parent = pegs.parent(number);
    let (across, up) = place_up(pegs, parent, row, most - 1);
    (x + across, y + up)
}
