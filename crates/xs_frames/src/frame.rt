ghost use Rattle.std.specs.Prelude.{◌≡◌, ◌<◌, ◌≤◌, ◌*◌, [], ◌∷◌, true, length, IfOk, OnOk, OnErr};
ghost use Rattle.xs_base.specs.declared.limits.TheConstants.{LONGEST_CAMERA_SIDE};
ghost use Rattle.xs_rect.specs.Tiles.{IsCut};
ghost use Rattle.xs_rawfile.specs.Frame.{frame_file_of};
ghost use Rattle.xs_plan.specs.Record.{root_at, rows_in};
ghost use Rattle.xs_plan.specs.Reads.{root_read_of};
ghost use Rattle.xs_core.specs.Views.{Knows, entries, signed};
ghost use Rattle.xs_core.specs.Calls.{Adds, HoldsTile, Stays};
ghost use Rattle.xs_frames.specs.Rows.{MayGather, Serves, ServesSome};
ghost use Rattle.xs_frames.specs.Frames.{IsFrame, IsPainted, ShowsRow, Stands, clear_frame};

use crate::canvas::Canvas;
use crate::root::{root_read, tile_of};
use std::alloc::Global;
use std::marker::{Model, PhantomData};
use std::snapshot::Snapshot;
use xs_base::Memory;
use xs_core::Desk;
use xs_pixel::Film;
use xs_plan::Plan;
use xs_raster::Tile;
use xs_rect::Rect;

/// The frame file of one row after another, in one buffer. A tile whose alias is that of the row before stays as it
/// is. Contracts see the plan, the pixels and the alias that stands on each tile. Rows and tiles are numbered from 0.
#[derive(Drop)]
pub struct Frame<K: Film> {
    plan: Snapshot<Plan>,
    canvas: Canvas,
    /// The alias that stands on each tile, if one does.
    there: Vec<Option<u32>>,
    film: PhantomData<K>,
}

impl<K: Film> Model for Frame<K> {
    ghost use Rattle.xs_frames.specs.Frames.{FrameRecord, IsFrame, frame_of};

    ghost Value = { FrameRecord };

    ghost view = { λ f. frame_of f.plan.value f.canvas f.there.items };

    ghost invariant = { λ f. IsFrame K.pictures (frame_of f.plan.value f.canvas f.there.items) };
}

impl<K: Film> Frame<K> {
    /// A clear frame of `w` by `h` points on which nothing stands yet, with all the memory that it will ever have.
    pub fn new(alloc: Global, p: &Plan, w: u32, h: u32) -> Result<Frame<K>, Memory>
        requires wide { (1 ≤ w) × (w ≤ LONGEST_CAMERA_SIDE) }
        requires high { (1 ≤ h) × (h ≤ LONGEST_CAMERA_SIDE) }
        requires tiles { IsCut w h p.now.tiles }
        ensures { IfOk result (λ f. f ≡ clear_frame p.now w h) }
    {
        let Some(rect) = Rect::new(0, 0, w, h) else {
            unreachable!();
        };
        let canvas = Canvas::clear(alloc, rect)?;
        let there = vec![in alloc; None; p.tiles() as usize]?;
        Ok(Frame {
            plan: Snapshot::of(p),
            canvas,
            there,
            film: PhantomData,
        })
    }

    /// Makes it the frame of a row, whose reads are served then. After an error, which is want of memory, some of
    /// them are, those of the first tiles, and it is of no more use.
    pub fn advance<D: Desk<K>>(&mut self, p: &Plan, desk: &mut D, row: u32) -> Result<(), Memory>
        requires plan { p.now ≡ self.old.plan }
        requires desk { D.plan desk.old ≡ p.now }
        requires row { row < rows_in p.now }
        requires may { MayGather p.now row (D.view desk.old) }
        ensures plan { self.new.plan ≡ self.old.plan }
        ensures area { self.new.image.area ≡ self.old.image.area }
        ensures desk { D.plan desk.new ≡ p.now }
        ensures shows { OnOk result (ShowsRow K.pictures p.now row self.new.image) }
        ensures serves { OnOk result (Serves p.now row (length p.now.tiles) (D.view desk.old) (D.view desk.new)) }
        ensures some { OnErr result (ServesSome p.now row (D.view desk.old) (D.view desk.new)) }
    {
        for tile in 0..p.tiles() {
            match self.take(p, desk, row, tile) {
                Ok(()) => {}
                Err(Memory) => return Err(Memory),
            }
        }
        self.look_over();
        Ok(())
    }

    /// The bytes of the frame file. It has a pixel for each point, and the plan's tiles cut it.
    pub fn bytes(&self) -> &[u8]
        ensures file { result.now ≡ frame_file_of self.now.image }
        ensures whole { length self.now.image.pixels ≡ self.now.image.area.w * self.now.image.area.h }
        ensures painted { IsPainted self.now.plan self.now.image }
    {
        self.look_over();
        self.canvas.bytes()
    }

    /// Tells what it keeps.
    fn look_over(&self)
        ensures { IsFrame K.pictures self.now }
    {
        let _ = &self.there;
    }

    /// Reads the alias of a row's tile, puts its pixels where another one stands, and serves the read.
    fn take<D: Desk<K>>(
        &mut self,
        p: &Plan,
        desk: &mut D,
        row: u32,
        tile: u32,
    ) -> Result<(), Memory>
        requires plan { p.now ≡ self.old.plan }
        requires desk { D.plan desk.old ≡ p.now }
        requires row { row < rows_in p.now }
        requires tile { tile < length p.now.tiles }
        requires chief { (D.view desk.old).number ≡ 0 }
        requires alone { (D.view desk.old).solo ≡ true }
        requires known { Knows (D.view desk.old) (root_at p.now row tile) }
        requires unserved { entries (root_read_of p.now row tile) (D.view desk.old).served ≡ 0 }
        ensures desk { D.plan desk.new ≡ p.now }
        ensures stands { OnOk result (Stands self.old tile (root_at p.now row tile) self.new) }
        ensures serves { OnOk result
            (Adds (D.view desk.old) (D.view desk.new) [] [] [] (signed 0 (root_read_of p.now row tile) ∷ [])) }
        ensures left { OnErr result (self.new ≡ self.old) }
        ensures stays { OnErr result (Stays (D.view desk.old) (D.view desk.new)) }
    {
        let e = root_read(p, row, tile);
        match tile_of(desk, e) {
            Ok(owner) => {
                self.put(p, row, tile, owner.tile());
                desk.retire(e);
                Ok(())
            }
            Err(Memory) => Err(Memory),
        }
    }

    /// Puts the pixels of the alias of a row's tile, where another one stands.
    fn put(&mut self, p: &Plan, row: u32, tile: u32, t: &Tile)
        requires plan { p.now ≡ self.old.plan }
        requires row { row < rows_in p.now }
        requires tile { tile < length p.now.tiles }
        requires value { HoldsTile K.pictures p.now (root_at p.now row tile) t.now }
        ensures { Stands self.old tile (root_at p.now row tile) self.new }
    {
        // what may be relied on in a plan
        p.aliases();
        if self.there[tile as usize] == Some(t.alias()) {
            return;
        }
        self.canvas.paste(t);
        self.there[tile as usize] = Some(t.alias());
    }
}
