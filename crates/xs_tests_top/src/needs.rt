//! The drawings of two columns, of which the right one lies above the left one.

use crate::scenes::{OF_TWO_COLUMNS, good_scene};
use std::test::Fail;
use xs_needs::row_drawings;

#[test]
fn drawings_come_from_the_top_down(rt: HostRuntime) -> Result<(), Fail> {
    let good = good_scene(rt.alloc(), OF_TWO_COLUMNS)?;
    let drawings = row_drawings(rt.alloc(), &good, 1)?;
    assert_eq!(rt; drawings.as_slice(), [1, 0].as_slice());
    Ok(())
}
