//! The blur of a dot of one pixel, and of nothing.

use std::test::Fail;
use xs_blur::{blur, blur_plain};
use xs_pixel::Pixel;
use xs_raster::Raster;
use xs_rect::Rect;

/// A dot of one pixel spreads over the square round it. A blur of a raster without bytes has none.
#[test]
fn a_dot_spreads_over_its_square(rt: HostRuntime) -> Result<(), Fail> {
    let rect = Rect::new(0, 0, 3, 2).ok_or("in range")?;
    let wide = rect.grow(1).ok_or("in range")?;
    let mut input = Raster::clear(rt.alloc(), wide)?;
    assert!(rt; wide.x() == -1 && wide.y() == -1 && wide.w() == 5 && wide.h() == 4);
    input.put_row(0, 0, &[90, 45, 8, 99]);
    let spread = blur(rt.alloc(), &input, 1, rect)?;
    assert!(rt; spread.has_bytes());
    assert_eq!(rt;
        spread.bytes(),
        [
            10, 5, 0, 11, 10, 5, 0, 11, 0, 0, 0, 0, 10, 5, 0, 11, 10, 5, 0, 11, 0, 0, 0, 0
        ]
        .as_slice()
    );
    assert_eq!(rt;
        blur_plain(&input, 1, 1, 1),
        Pixel::new(10, 5, 0, 11).ok_or("a pixel")?
    );
    let none = blur(rt.alloc(), &Raster::blank(rt.alloc(), wide), 1, rect)?;
    assert!(rt; !none.has_bytes());
    Ok(())
}
