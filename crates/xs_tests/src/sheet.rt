//! Places of a peg with line keys, which stand in any order.

use std::alloc::Global;
use std::test::Fail;
use xs_base::{List, Memory};
use xs_scene::{Peg, PegKey};
use xs_sheet::own_offset;

fn peg(alloc: Global, keys: &[PegKey]) -> Result<Option<Peg>, Memory> {
    Ok(Peg::new(None, List::of(Vec::from_slice(alloc, keys)?)))
}

#[test]
fn line_keys_move_a_peg_and_round_down(rt: HostRuntime) -> Result<(), Fail> {
    let first = PegKey::new(1, 0, 0, true).ok_or("no key")?;
    let second = PegKey::new(4, -5, 10, true).ok_or("no key")?;
    let one = peg(rt.alloc(), &[first, second])?.ok_or("no peg")?;
    let other = peg(rt.alloc(), &[second, first])?.ok_or("no peg")?;
    let places = [
        (1, (0, 0)),
        (2, (-2, 3)),
        (3, (-4, 6)),
        (4, (-5, 10)),
        (5, (-5, 10)),
    ];
    for (row, place) in places {
        assert_eq!(rt; own_offset(&one, row), place, "at row {row}");
        assert_eq!(rt; own_offset(&other, row), place, "at row {row}");
    }
    Ok(())
}
