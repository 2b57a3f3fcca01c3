//! Members that move between lists.

use std::test::Fail;
use xs_chain::Chains;

#[test]
fn a_member_moves_to_the_end_of_another_list(rt: HostRuntime) -> Result<(), Fail> {
    let mut chains = Chains::new(rt.alloc(), 3, 2)?;
    chains.push_back(0, 2);
    chains.push_back(0, 0);
    assert_eq!(rt; chains.next(2), Some(0));
    chains.move_to(1, 2);
    assert_eq!(rt; chains.first(0), Some(0));
    assert_eq!(rt; chains.next(0), None);
    assert_eq!(rt; chains.first(1), Some(2));
    assert_eq!(rt; chains.next(2), None);
    assert_eq!(rt; chains.list_of(1), None);
    chains.unlink(0);
    assert_eq!(rt; chains.first(0), None);
    Ok(())
}
