//! Copying the rows of tiles to their places in frames, and nothing else.

ghost use Rattle.std.specs.Prelude.{◌+◌, ◌*◌, ◌≤◌, length};

use crate::fault::Fault;
use crate::works::Work;
use std::alloc::{AllocError, Global};
use xs_base::limits::SECTION_ROWS;
use xs_plan::Plan;
use xs_rect::Rect;

/// Where the rows of a tile go in the bytes of a frame.
#[derive(Clone, Copy)]
struct Place {
    /// The first byte.
    at: usize,
    /// The bytes of a row of the tile.
    len: usize,
    /// The rows of the tile.
    rows: usize,
}

/// The rows of a section's tiles, tile by tile as they are computed, and the frame to which they are copied row by row.
#[derive(Drop)]
pub(crate) struct Copies {
    /// The bytes of a row of the frame.
    stride: usize,
    places: Vec<Place>,
    tiles: Vec<Vec<u8>>,
    /// A frame, and a row more.
    to: Vec<u8>,
}

impl Copies {
    /// Of the tiles of a plan, for frames of `w` by `h` points.
    pub(crate) fn of(alloc: Global, p: &Plan, w: u32, h: u32) -> Result<Copies, AllocError> {
        let stride = 4 * w as usize;
        let mut places = Vec::new(alloc);
        let mut tiles = Vec::new(alloc);
        for t in 0..p.tiles() {
            let place = place_of(p.tile(t), stride);
            places.push(place)?;
            for _row in 0..SECTION_ROWS {
                tiles.push(vec![in alloc; 7u8; place.len.saturating_mul(place.rows)]?)?;
            }
        }
        let to = vec![in alloc; 0u8; stride.saturating_mul(h as usize + 1)]?;
        Ok(Copies {
            stride,
            places,
            tiles,
            to,
        })
    }

    /// Copies a tile of a row of the section to its place.
    fn copy(&mut self, row: usize, t: usize) -> Result<(), Fault> {
        let number = t.saturating_mul(SECTION_ROWS as usize).saturating_add(row);
        let (Some(place), Some(tile)) = (self.places.get(t), self.tiles.get(number)) else {
            return Err(Fault::Input);
        };
        let end = place
            .at
            .saturating_add(place.rows.saturating_mul(self.stride));
        let whole = place.rows.saturating_mul(place.len);
        if place.len > self.stride || end > self.to.len() || whole > tile.len() {
            return Err(Fault::Input);
        }
        copy_rows(&mut self.to, self.stride, tile.as_slice(), *place);
        Ok(())
    }
}

impl Work for Copies {
    fn run(&mut self) -> Result<(), Fault> {
        for row in 0..SECTION_ROWS as usize {
            for t in 0..self.places.len() {
                self.copy(row, t)?;
            }
        }
        Ok(())
    }
}

/// Where the rows of a tile go in a frame whose rows have so many bytes.
fn place_of(tile: Rect, stride: usize) -> Place {
    let (x, y) = (
        tile.x().unsigned_abs() as usize,
        tile.y().unsigned_abs() as usize,
    );
    Place {
        at: y.saturating_mul(stride).saturating_add(4 * x),
        len: 4 * tile.w() as usize,
        rows: tile.h() as usize,
    }
}

/// Copies rows that stand one behind the other to their place among longer rows.
fn copy_rows(to: &mut [u8], stride: usize, tile: &[u8], place: Place)
    requires short { place.len ≤ stride }
    requires room { place.at + place.rows * stride ≤ length to.old }
    requires there { place.rows * place.len ≤ length tile.now }
{
    for i in 0..place.rows {
        copy_row(to, place.at + i * stride, tile, i * place.len, place.len);
    }
}

/// Copies so many bytes from one place to another.
fn copy_row(to: &mut [u8], at: usize, tile: &[u8], from: usize, len: usize)
    requires room { at + len ≤ length to.old }
    requires there { from + len ≤ length tile.now }
{
    to[at..at + len].copy_from_slice(&tile[from..from + len]);
}
