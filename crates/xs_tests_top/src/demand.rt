//! The plan of a range of rows, up to the most aliases that it may have.

use crate::scenes::{OF_TWO_COLUMNS, good_scene};
use std::test::Fail;
use xs_dryrun::plan;

/// The largest camera before a drawing that moves by a pixel from each row to the next.
const OF_A_MOVING_COLUMN: &str =
    r#"{"format":2,"camera":{"w":4096,"h":4096},"palettes":[],"levels":[{"kind":"colour","drawings":["a"]}],"sheets":[{"pegs":[{"keys":[{"row":1,"x":0,"y":0,"line":true},{"row":1025,"x":1024,"y":0}]}],"columns":[{"peg":0,"cells":[{"from":1,"to":1025,"level":0,"drawing":0}]}]}]}"#;

#[test]
fn a_row_of_two_columns_demands_their_tiles_and_what_lies_over_what(
    rt: HostRuntime,
) -> Result<(), Fail> {
    let good = good_scene(rt.alloc(), OF_TWO_COLUMNS)?;
    let planned = plan(rt.alloc(), &good, 1, 1).ok().ok_or("a plan")?;
    assert_eq!(rt; planned.aliases(), 3);
    assert_eq!(rt; planned.reads(), 3);
    Ok(())
}

#[test]
fn a_plan_may_have_as_many_aliases_as_the_limit_says(rt: HostRuntime) -> Result<(), Fail> {
    let good = good_scene(rt.alloc(), OF_A_MOVING_COLUMN)?;
    let planned = plan(rt.alloc(), &good, 1, 1024).ok().ok_or("a plan")?;
    assert_eq!(rt; planned.aliases(), 4_194_304);
    assert_eq!(rt; planned.reads(), 4_194_304);
    Ok(())
}
