//! A level file of one pixel, whole and with its faults, and what is made of it.

use std::alloc::Global;
use std::marker::Brand;
use std::test::Fail;
use xs_base::List;
use xs_palette::Palette;
use xs_pixel::{Pixel, Style};
use xs_raster::Raster;
use xs_rawfile::{
    Drawing, Drawings, LevelCode, LevelFault, RawKind, frame_bytes, read_level, write_level,
};
use xs_rect::Rect;

/// The file of one pixel at the origin.
const FILE: [u8; 25] = [
    88, 82, 76, 49, 0, 0, 0, 0, 0, 0, 0, 0, 0, 1, 0, 0, 0, 1, 0, 0, 0, 10, 20, 30, 255,
];

/// The file of one pixel with other bytes from a place on.
fn file_with(alloc: Global, at: u8, bytes: [u8; 4]) -> Result<Vec<u8>, Fail> {
    let at = usize::from(at);
    let mut file = FILE.get(..at).ok_or("a place")?.to_vec(alloc)?;
    file.extend_from_slice(&bytes)?;
    file.extend_from_slice(FILE.get(at + 4..).ok_or("a place")?)?;
    Ok(file)
}

#[test]
fn reads_and_writes_one_pixel(rt: HostRuntime) -> Result<(), Fail> {
    let drawing = read_level(rt.alloc(), &FILE, RawKind::Colour)
        .ok()
        .ok_or("a drawing")?;
    assert_eq!(rt; drawing.bytes(), [10, 20, 30, 255].as_slice());
    assert_eq!(rt;
        write_level(rt.alloc(), &drawing)
            .ok()
            .ok_or("memory")?
            .as_slice(),
        FILE.as_slice()
    );
    for len in 0..25 {
        let first = if len < 4 {
            LevelCode::Magic
        } else {
            LevelCode::Length
        };
        let cut = FILE.get(..len).ok_or("shorter")?;
        assert_eq!(rt;
            read_level(rt.alloc(), cut, RawKind::Colour).err(),
            Some(LevelFault::Code(first))
        );
    }
    Ok(())
}

#[test]
fn gives_the_first_fault(rt: HostRuntime) -> Result<(), Fail> {
    for (at, bytes, first) in [
        (4, [2, 0, 0, 0], Some(LevelCode::Kind)),
        (4, [1, 0, 0, 0], Some(LevelCode::KindDiffers)),
        (13, [0, 0, 0, 0], Some(LevelCode::Size)),
        (13, [255, 255, 255, 255], Some(LevelCode::Size)),
        (17, [1, 0, 0, 1], Some(LevelCode::Size)),
        (17, [255, 255, 255, 255], Some(LevelCode::Size)),
        (5, [0, 0, 1, 0], None),
        (5, [1, 0, 1, 0], Some(LevelCode::Place)),
        (9, [0, 0, 255, 255], None),
        (9, [255, 255, 254, 255], Some(LevelCode::Place)),
        (13, [2, 0, 0, 0], Some(LevelCode::Length)),
        (21, [30, 30, 30, 30], None),
        (21, [10, 20, 30, 29], Some(LevelCode::NotPremultiplied(0))),
    ] {
        let file = file_with(rt.alloc(), at, bytes)?;
        assert_eq!(rt;
            read_level(rt.alloc(), &file, RawKind::Colour).err(),
            first.map(LevelFault::Code)
        );
    }
    Ok(())
}

#[test]
fn accepts_every_word(rt: HostRuntime) -> Result<(), Fail> {
    let mut file = file_with(rt.alloc(), 21, [255; 4])?;
    if let Some(kind) = file.get_mut(4) {
        *kind = 1;
    }
    let drawing = read_level(rt.alloc(), &file, RawKind::Cm32)
        .ok()
        .ok_or("a drawing")?;
    assert_eq!(rt; drawing.bytes(), [255u8; 4].as_slice());
    Ok(())
}

#[test]
fn shows_a_held_drawing(rt: HostRuntime) -> Result<(), Fail> {
    let red = Style {
        r: 200,
        g: 0,
        b: 0,
        a: 255,
    };
    let palette = Palette::from_styles(rt.alloc(), &[red, red])?;
    let mut palettes = Vec::new(rt.alloc());
    palettes.push(palette)?;
    let mut drawings = Drawings::<Brand>::new(rt.alloc(), 2, List::of(palettes))?;
    let word = [255u8, 1, 0, 0].to_vec(rt.alloc())?;
    let drawing = Drawing::new(-1, 5, 1, 1, RawKind::Cm32, List::of(word)).ok_or("a drawing")?;
    drawings.set(1, drawing, Some(0));
    assert_eq!(rt; Some(drawings.pixel(1, -1, 5)), Pixel::new(200, 0, 0, 255));
    assert_eq!(rt; drawings.pixel(1, 0, 5), Pixel::CLEAR);
    Ok(())
}

#[test]
fn writes_a_frame(rt: HostRuntime) -> Result<(), Fail> {
    let dot = Rect::new(3, 4, 1, 1).ok_or("in range")?;
    let red = [9u8, 0, 0, 9].to_vec(rt.alloc())?;
    assert_eq!(rt; red.len(), 4);
    assert_eq!(rt;
        frame_bytes(rt.alloc(), &Raster::from_bytes(dot, red))?.as_slice(),
        b"XFR1\x01\0\0\0\x01\0\0\0\x09\0\0\x09".as_slice()
    );
    Ok(())
}
