//! Vectors from outside, which the clauses of `xs_pixel` have to mean.

use std::alloc::{AllocError, AllocFailed};
use std::test::Fail;
use xs_base::{List, Memory};
use xs_pixel::{Op, Pixel, Style, apply};

/// An operation, its upper and lower pixel, and the result.
type Vector = (Op, [u8; 4], [u8; 4], [u8; 4]);

const VECTORS: [Vector; 9] = [
    (
        Op::Over,
        [100, 0, 0, 200],
        [50, 60, 0, 100],
        [111, 13, 0, 222],
    ),
    (
        Op::Add,
        [100, 0, 0, 200],
        [50, 60, 0, 100],
        [150, 60, 0, 255],
    ),
    (Op::Sub, [100, 0, 0, 200], [50, 60, 0, 100], [0, 60, 0, 100]),
    (Op::Mult, [100, 0, 0, 200], [50, 60, 0, 100], [20, 0, 0, 78]),
    (Op::Min, [100, 0, 0, 200], [50, 60, 0, 100], [50, 0, 0, 100]),
    (
        Op::Max,
        [100, 0, 0, 200],
        [50, 60, 0, 100],
        [100, 60, 0, 200],
    ),
    (
        Op::MatteIn,
        [100, 0, 0, 200],
        [50, 60, 0, 100],
        [39, 0, 0, 78],
    ),
    (
        Op::MatteOut,
        [100, 0, 0, 200],
        [50, 60, 0, 100],
        [61, 0, 0, 122],
    ),
    (
        Op::Over,
        [128, 0, 0, 128],
        [0, 0, 255, 255],
        [128, 0, 127, 255],
    ),
];

fn bytes_of(p: Pixel) -> [u8; 4] {
    [p.r(), p.g(), p.b(), p.m()]
}

fn pixel_of([r, g, b, m]: [u8; 4]) -> Option<Pixel> {
    Pixel::new(r, g, b, m)
}

#[test]
fn operations_give_the_vectors(rt: HostRuntime) -> Result<(), Fail> {
    for (op, u, d, wanted) in VECTORS {
        let u = pixel_of(u).ok_or("the upper input is no pixel")?;
        let d = pixel_of(d).ok_or("the lower input is no pixel")?;
        assert_eq!(rt; bytes_of(apply(op, u, d)), wanted, "{op:?}");
    }
    Ok(())
}

#[test]
fn pixels_are_premultiplied(rt: HostRuntime) {
    let straight = Style {
        r: 255,
        g: 128,
        b: 0,
        a: 128,
    };
    assert_eq!(rt; bytes_of(straight.pixel()), [128, 64, 0, 128]);
    assert!(rt; Pixel::new(9, 0, 0, 8).is_none());
    assert!(rt; Pixel::new(8, 0, 0, 8).is_some());
}

#[test]
fn lists_lend_and_give_back_their_items(rt: HostRuntime) -> Result<(), Fail> {
    let list = List::of([1u8, 2, 3].to_vec(rt.alloc())?);
    assert_eq!(rt; list.items(), [1, 2, 3].as_slice());
    assert_eq!(rt; list.into_items().len(), 3);
    assert_eq!(rt; Memory::from(AllocError), Memory);
    assert_eq!(rt; Memory::from(AllocFailed { value: 7u8 }), Memory);
    Ok(())
}
