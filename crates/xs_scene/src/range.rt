ghost use Rattle.std.specs.Prelude.{◌↔◌, IsTrue, IfSome};
ghost use Rattle.xs_scene.specs.Ranges.{IsRow, IsReference, IsSide, IsOffset};

use xs_base::limits::{FARTHEST_OFFSET, GREATEST_REFERENCE, LAST_ROW, LONGEST_CAMERA_SIDE};

pub(crate) fn is_row(row: u32) -> bool
    ensures { IsTrue result ↔ IsRow row }
{
    1 <= row && row <= LAST_ROW
}

pub(crate) fn is_reference(number: u32) -> bool
    ensures { IsTrue result ↔ IsReference number }
{
    number <= GREATEST_REFERENCE
}

pub(crate) fn is_reference_or_none(number: Option<u32>) -> bool
    ensures { IsTrue result ↔ IfSome number IsReference }
{
    match number {
        Some(number) => is_reference(number),
        None => true,
    }
}

pub(crate) fn is_side(side: u32) -> bool
    ensures { IsTrue result ↔ IsSide side }
{
    1 <= side && side <= LONGEST_CAMERA_SIDE
}

pub(crate) fn is_offset(offset: i32) -> bool
    ensures { IsTrue result ↔ IsOffset offset }
{
    let farthest = FARTHEST_OFFSET as i32;
    -farthest <= offset && offset <= farthest
}
