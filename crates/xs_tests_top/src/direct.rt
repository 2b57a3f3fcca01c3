//! A frame of two pixels: a drawing of one pixel over a card.

use crate::scenes::{OF_A_CARD, good_scene};
use std::alloc::Global;
use std::marker::Brand;
use std::test::Fail;
use xs_base::List;
use xs_direct::{are_drawings_held, frame_direct};
use xs_rawfile::{Drawing, Drawings, RawKind};

/// The drawing, held; none without it.
fn drawings(alloc: Global, held: bool) -> Result<Drawings<Brand>, Fail> {
    let mut drawings = Drawings::<Brand>::new(alloc, 1, List::of(Vec::new(alloc)))?;
    if held {
        let bytes = [10u8, 20, 30, 255].to_vec(alloc)?;
        let drawing = Drawing::new(1, 0, 1, 1, RawKind::Colour, List::of(bytes));
        drawings.set(0, drawing.ok_or("a drawing")?, None);
    }
    Ok(drawings)
}

#[test]
fn lays_a_drawing_over_a_card(rt: HostRuntime) -> Result<(), Fail> {
    let scene = good_scene(rt.alloc(), OF_A_CARD)?;
    let drawings = drawings(rt.alloc(), true)?;
    assert_eq!(rt;
        frame_direct(rt.alloc(), &scene, &drawings, 1)?.as_slice(),
        b"XFR1\x02\0\0\0\x01\0\0\0\x80\0\0\x80\x0a\x14\x1e\xff".as_slice()
    );
    Ok(())
}

/// Whether the drawings of a row are held: row 1 shows the drawing and row 2 the card alone.
fn is_held(alloc: Global, held: bool, row: u32) -> Result<bool, Fail> {
    let scene = good_scene(alloc, OF_A_CARD)?;
    let drawings = drawings(alloc, held)?;
    Ok(are_drawings_held(alloc, &scene, &drawings, row)?)
}

#[test]
fn a_row_wants_the_drawings_that_it_shows(rt: HostRuntime) -> Result<(), Fail> {
    let missing = is_held(rt.alloc(), false, 1)?;
    let card = is_held(rt.alloc(), false, 2)?;
    let held = is_held(rt.alloc(), true, 1)?;
    assert!(rt; !missing && card && held);
    Ok(())
}
