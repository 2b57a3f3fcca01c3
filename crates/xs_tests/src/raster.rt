//! Small tiles on a frame, with and without bytes.

use std::alloc::Global;
use std::test::Fail;
use xs_pixel::Pixel;
use xs_raster::{Raster, Tile, TileRef, paste_into};
use xs_rect::Rect;

/// A clear raster of this rectangle.
fn clear(alloc: Global, x: i32, y: i32, w: u32, h: u32) -> Result<Raster, Fail> {
    let rect = Rect::new(x, y, w, h).ok_or("in range")?;
    Ok(Raster::clear(alloc, rect)?)
}

#[test]
fn pastes_the_common_part(rt: HostRuntime) -> Result<(), Fail> {
    let red = [9u8, 0, 0, 9].to_vec(rt.alloc())?;
    let dot = Rect::new(1, 1, 1, 1).ok_or("in range")?;
    assert_eq!(rt; red.len(), 4);
    let shared = TileRef::new(rt.alloc(), Tile::new(7, Raster::from_bytes(dot, red)))?;
    let mut frame = clear(rt.alloc(), 0, 0, 2, 2)?;
    assert!(rt; frame.has_bytes());
    frame.paste(shared.share()?.tile());
    assert_eq!(rt;
        frame.bytes(),
        [0, 0, 0, 0, 0, 0, 0, 0, 0, 0, 0, 0, 9, 0, 0, 9].as_slice()
    );
    assert_eq!(rt; shared.tile().alias(), 7);
    assert!(rt; shared.tile().raster().has_bytes());
    assert_eq!(rt; shared.tile().raster().bytes(), [9, 0, 0, 9].as_slice());
    Ok(())
}

#[test]
fn a_tile_without_bytes_reads_and_pastes_as_clear(rt: HostRuntime) -> Result<(), Fail> {
    let dot = Rect::new(1, 0, 1, 2).ok_or("in range")?;
    let pair = Rect::new(1, 0, 2, 1).ok_or("in range")?;
    assert!(rt; dot.w() == 1 && dot.h() == 2 && dot.x() == 1 && dot.y() == 0);
    let blank = Raster::blank(rt.alloc(), dot);
    assert!(rt; !blank.has_bytes());
    assert_eq!(rt; blank.row(1), [0, 0, 0, 0].as_slice());
    assert_eq!(rt; blank.pixel(1, 1), Pixel::CLEAR);

    // a copy of it has no bytes either, and goes into a file as 0
    let copy = blank.copy(rt.alloc())?;
    let mut file = [5u8].to_vec(rt.alloc())?;
    copy.push_bytes(&mut file)?;
    assert!(rt; !copy.has_bytes());
    assert_eq!(rt; file.as_slice(), [5, 0, 0, 0, 0, 0, 0, 0, 0].as_slice());

    // behind a head of one byte
    let mut frame = [7u8, 1, 0, 0, 1, 2, 0, 0, 2].to_vec(rt.alloc())?;
    assert!(rt; frame.len() == 9 && pair.w() == 2 && pair.h() == 1);
    paste_into(&mut frame[1..], pair, &Tile::new(3, copy));
    assert_eq!(rt; frame.as_slice(), [7, 0, 0, 0, 0, 2, 0, 0, 2].as_slice());
    Ok(())
}
