//! Numbers of equal and of different expressions.

use std::test::Fail;
use xs_alias::{Interner, Key};
use xs_pixel::Op;

#[test]
fn equal_expressions_have_one_number(rt: HostRuntime) -> Result<(), Fail> {
    let mut keys = Interner::new(rt.alloc());
    let sky = keys.intern(Key::Leaf {
        drawing: 0,
        dx: 0,
        dy: 0,
    })?;
    let tree = keys.intern(Key::Leaf {
        drawing: 1,
        dx: 0,
        dy: 0,
    })?;
    let both = keys.pair(Op::Over, tree, sky)?;
    let again = keys.intern(Key::Leaf {
        drawing: 0,
        dx: 0,
        dy: 0,
    })?;
    let turned = keys.pair(Op::Over, sky, tree)?;
    let same = keys.pair(Op::Over, tree, again)?;
    assert!(rt; [sky, tree, both, again, turned, same] == [0, 1, 2, 0, 3, 2]);
    assert_eq!(rt; keys.len(), 4);
    Ok(())
}

#[test]
fn clear_inputs_vanish_from_pairs_and_blurs(rt: HostRuntime) -> Result<(), Fail> {
    let mut keys = Interner::new(rt.alloc());
    let tree = keys.intern(Key::Leaf {
        drawing: 0,
        dx: 0,
        dy: 0,
    })?;
    let nothing = keys.intern(Key::Clear)?;
    let over = keys.pair(Op::Over, nothing, tree)?;
    let product = keys.pair(Op::Mult, tree, nothing)?;
    let soft = keys.blur(2, tree)?;
    let blank = keys.blur(2, nothing)?;
    assert!(rt; [tree, nothing, over, product, soft, blank] == [0, 1, 0, 1, 2, 1]);
    assert!(rt; keys.key(soft) == Key::Blur { a: 0, radius: 2 });
    Ok(())
}
