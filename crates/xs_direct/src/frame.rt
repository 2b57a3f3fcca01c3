ghost use Rattle.std.specs.Prelude.{◌≡◌, ◌++◌, ◌^◌, ◌<◌, ◌≤◌, Some, IfOk, OnOk, flat_map};
ghost use Rattle.std.specs.List.{range_with_len};
ghost use Rattle.xs_raster.specs.Bitmap.{bytes_of};
ghost use Rattle.xs_meaning.specs.Bounds.{IsWithin};
ghost use Rattle.xs_pixel.specs.Picture.{Pictures, ArePixels};
ghost use Rattle.xs_meaning.specs.Expressions.{drawings_of, root_of};
ghost use Rattle.xs_pixel.specs.Points.{point};
ghost use Rattle.xs_meaning.specs.RowValues.{row_of, camera_at};
ghost use Rattle.xs_direct.specs.Frames.{frame_file, frame_line};
ghost use Rattle.xs_direct.specs.Pictures.{pictures_in, AreHeld};
ghost use Rattle.xs_direct.specs.Room.{frame_reach, peg_reach};

use crate::filters::Filters;
use crate::position::Position;
use crate::walk::Walk;
use std::alloc::Global;
use xs_base::Memory;
use xs_base::limits::DEEPEST_NEST;
use xs_check::GoodScene;
use xs_meaning::expressions::only_own_drawings_count;
use xs_pixel::{Film, Pixel};
use xs_rawfile::{Drawings, FRAME_HEADER, push_frame_header};
use xs_step::row as spot_of_row;

/// The sheet whose rows are rendered.
const FIRST: u32 = 0;

/// The pixel of sheet 0's row at a point; drawings that are not held count as clear.
pub fn pixel_at<K: Film>(s: &GoodScene, drawings: &Drawings<K>, row: u32, x: i32, y: i32) -> Pixel
    requires { IsWithin (2 ^ 27) (point x y) }
    ensures { result ≡ row_of s.now (pictures_in drawings.now) 0 row (point x y) }
{
    // a checked scene has a first sheet
    s.scene();
    let walk = Walk {
        scene: s,
        drawings,
        spot: spot_of_row(FIRST, row),
        depth: DEEPEST_NEST,
        below: 0,
        filters: &Filters::Open,
    };
    walk.pixel(Position { x, y })
}

/// The frame file of a row.
pub fn frame_direct<K: Film>(
    alloc: Global,
    s: &GoodScene,
    drawings: &Drawings<K>,
    row: u32,
) -> Result<Vec<u8>, Memory>
    ensures value { IfOk result (λ v. v.items ≡ frame_file s.now (pictures_in drawings.now) row) }

    // where the film tells its pictures and the row's drawings are held, it is the frame of the pictures
    ensures told { (pictures : Pictures) → K.pictures ≡ Some pictures → ArePixels pictures
        → AreHeld drawings.now (drawings_of (root_of s.now row))
        → IfOk result (λ v. v.items ≡ frame_file s.now pictures row) }
{
    held_drawings_make_the_frame(s, drawings, row);
    let camera = &s.scene().camera;
    let shot = Shot {
        scene: s,
        drawings,
        row,
        corner: s.place(FIRST, camera.peg, row),
    };
    let pixels = camera.w as usize * camera.h as usize;
    let mut bytes = Vec::with_capacity(alloc, FRAME_HEADER + 4 * pixels)?;
    push_frame_header(&mut bytes, camera.w, camera.h)?;
    shot.push_lines(&mut bytes, camera.w, camera.h)?;
    Ok(bytes)
}

/// The frame of the drawings that are held is that of the pictures which the film tells, where those of the
/// row's expression are held: other drawings change no pixel.
pub fn held_drawings_make_the_frame<K: Film>(s: &GoodScene, drawings: &Drawings<K>, row: u32)
    ensures { (pictures : Pictures) → K.pictures ≡ Some pictures → ArePixels pictures
        → AreHeld drawings.now (drawings_of (root_of s.now row))
        → frame_file s.now (pictures_in drawings.now) row ≡ frame_file s.now pictures row }
{
    // the numbers of a checked scene are in their ranges
    s.scene();
    drawings.hold_their_pictures();
    only_own_drawings_count();
}

/// A row of a scene that is drawn, with the drawings that are held, and the place of the camera.
#[derive_where(Clone, Copy)]
struct Shot<'a, K: Film> {
    scene: &'a GoodScene,
    drawings: &'a Drawings<K>,
    row: u32,
    corner: (i32, i32),
}

impl<K: Film> Shot<'_, K> {
    /// Puts the pixels of a frame last.
    fn push_lines(&self, bytes: &mut Vec<u8>, w: u32, h: u32) -> Result<(), Memory>
        requires width { w ≤ frame_reach }
        requires height { h ≤ frame_reach }
        requires near { IsWithin peg_reach (point self.now.corner.0 self.now.corner.1) }
        requires camera { point self.now.corner.0 self.now.corner.1 ≡ camera_at self.now.scene.now self.now.row }
        ensures { OnOk result (bytes.new.items ≡ bytes.old.items ++ bytes_of (flat_map (λ y. frame_line self.now.scene.now (pictures_in self.now.drawings.now) self.now.row y w) (range_with_len 0 h))) }
    {
        for y in 0..h {
            self.push_line(bytes, w, y)?;
        }
        Ok(())
    }

    /// Puts the pixels of one line last.
    fn push_line(&self, bytes: &mut Vec<u8>, w: u32, y: u32) -> Result<(), Memory>
        requires width { w ≤ frame_reach }
        requires height { y < frame_reach }
        requires near { IsWithin peg_reach (point self.now.corner.0 self.now.corner.1) }
        requires camera { point self.now.corner.0 self.now.corner.1 ≡ camera_at self.now.scene.now self.now.row }
        ensures { OnOk result (bytes.new.items ≡ bytes.old.items ++ bytes_of (frame_line self.now.scene.now (pictures_in self.now.drawings.now) self.now.row y w)) }
    {
        for x in 0..w {
            let pixel = pixel_at(
                self.scene,
                self.drawings,
                self.row,
                x as i32 + self.corner.0,
                y as i32 + self.corner.1,
            );
            bytes.extend_from_slice(&pixel.to_bytes())?;
        }
        Ok(())
    }
}
