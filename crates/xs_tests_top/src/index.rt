//! A search in cells that stand in any order, and the lists of a scene.

use crate::scenes::{OF_EACH_KIND, good_scene};
use std::test::Fail;
use xs_index::{Index, in_order, seen_in};
use xs_scene::{Exposure, Seen, Shown};

#[test]
fn cells_in_any_order_are_found(rt: HostRuntime) -> Result<(), Fail> {
    let drawing = Shown::Drawing { level: 2, index: 3 };
    let sheet = Shown::Sheet { sheet: 1, start: 5 };
    let late = Exposure::new(7, 9, sheet).ok_or("no exposure")?;
    let early = Exposure::new(1, 3, drawing).ok_or("no exposure")?;
    let cells = in_order(rt.alloc(), &[late, early])?;
    assert_eq!(rt; seen_in(cells.items(), 9), Seen::Row { sheet: 1, row: 7 });
    assert_eq!(rt; seen_in(cells.items(), 4), Seen::Empty);
    Ok(())
}

#[test]
fn an_index_has_the_lists_of_a_scene(rt: HostRuntime) -> Result<(), Fail> {
    let good = good_scene(rt.alloc(), OF_EACH_KIND)?;
    let index = Index::of(rt.alloc(), good.scene())?;
    let cells = index.cells(0, 1);
    assert_eq!(rt; (cells.len(), cells.first().map(|e| e.from)), (2, Some(1)));
    let keys = index.keys(0, 0);
    assert_eq!(rt; (keys.len(), keys.first().map(|k| k.row)), (2, Some(1)));
    assert_eq!(rt; index.style_keys(0).len(), 1);
    assert_eq!(rt; index.style_keys(1).len(), 0);
    Ok(())
}
