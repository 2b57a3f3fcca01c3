ghost use Rattle.std.specs.Prelude.{◌≡◌, ◌<◌, ◌≤◌, [], ◌∷◌, true, length, IfOk, OnOk, OnErr};
ghost use Rattle.xs_base.specs.declared.limits.TheConstants.{LONGEST_CAMERA_SIDE};
ghost use Rattle.xs_rect.specs.Tiles.{IsCut};
ghost use Rattle.xs_plan.specs.Record.{root_at, rows_in};
ghost use Rattle.xs_plan.specs.Reads.{root_read_of};
ghost use Rattle.xs_core.specs.Views.{Knows, entries, signed};
ghost use Rattle.xs_core.specs.Calls.{Adds, HoldsTile, Stays};
ghost use Rattle.xs_frames.specs.Rows.{MayGather, Serves, ServesSome};
ghost use Rattle.xs_frames.specs.Frames.{Gains, ShowsRow, clear_gather};

use crate::root::{root_read, tile_of};
use std::alloc::Global;
use std::marker::Model;
use std::snapshot::Snapshot;
use xs_base::Memory;
use xs_core::Desk;
use xs_pixel::Film;
use xs_plan::Plan;
use xs_raster::{Raster, Tile};
use xs_rect::Rect;

/// The raster of one row's tiles. Contracts see the plan, the row and the pixels. Rows and tiles are numbered from 0.
#[derive(Drop)]
pub struct Gather {
    plan: Snapshot<Plan>,
    row: u32,
    raster: Raster,
}

impl Model for Gather {
    ghost use Rattle.xs_frames.specs.Frames.{GatherRecord, IsGather, gather_of};

    ghost Value = { GatherRecord };

    ghost view = { λ g. gather_of g.plan.value g.row g.raster };

    ghost invariant = { λ g. IsGather (gather_of g.plan.value g.row g.raster) };
}

impl Gather {
    /// A clear raster of `w` by `h` points for a row.
    pub fn new(alloc: Global, p: &Plan, w: u32, h: u32, row: u32) -> Result<Gather, Memory>
        requires wide { (1 ≤ w) × (w ≤ LONGEST_CAMERA_SIDE) }
        requires high { (1 ≤ h) × (h ≤ LONGEST_CAMERA_SIDE) }
        requires tiles { IsCut w h p.now.tiles }
        requires row { row < rows_in p.now }
        ensures { IfOk result (λ g. g ≡ clear_gather p.now w h row) }
    {
        let Some(rect) = Rect::new(0, 0, w, h) else {
            unreachable!();
        };
        let raster = Raster::clear(alloc, rect)?;
        Ok(Gather {
            plan: Snapshot::of(p),
            row,
            raster,
        })
    }

    /// Pastes the tiles of the row, whose reads are served then. After an error, which is want of memory, some of
    /// them are, those of the first tiles, and it is of no more use.
    pub fn advance<K: Film, D: Desk<K>>(&mut self, p: &Plan, desk: &mut D) -> Result<(), Memory>
        requires plan { p.now ≡ self.old.plan }
        requires desk { D.plan desk.old ≡ p.now }
        requires may { MayGather p.now self.old.row (D.view desk.old) }
        ensures plan { self.new.plan ≡ self.old.plan }
        ensures row { self.new.row ≡ self.old.row }
        ensures area { self.new.image.area ≡ self.old.image.area }
        ensures desk { D.plan desk.new ≡ p.now }
        ensures shows { OnOk result (ShowsRow K.pictures p.now self.old.row self.new.image) }
        ensures serves { OnOk result
            (Serves p.now self.old.row (length p.now.tiles) (D.view desk.old) (D.view desk.new)) }
        ensures some { OnErr result (ServesSome p.now self.old.row (D.view desk.old) (D.view desk.new)) }
    {
        let row = self.row();
        for tile in 0..p.tiles() {
            match self.take(p, desk, row, tile) {
                Ok(()) => {}
                Err(Memory) => return Err(Memory),
            }
        }
        Ok(())
    }

    /// The raster. Takes no memory.
    pub fn into_raster(self) -> Raster
        ensures { result ≡ self.image }
    {
        let Gather { raster, .. } = self;
        raster
    }

    /// The row.
    fn row(&self) -> u32
        ensures value { result ≡ self.now.row }
        ensures within { self.now.row < rows_in self.now.plan }
    {
        self.row
    }

    /// Reads the alias of a tile of the row, puts its pixels, and serves the read.
    fn take<K: Film, D: Desk<K>>(
        &mut self,
        p: &Plan,
        desk: &mut D,
        row: u32,
        tile: u32,
    ) -> Result<(), Memory>
        requires plan { p.now ≡ self.old.plan }
        requires desk { D.plan desk.old ≡ p.now }
        requires mine { row ≡ self.old.row }
        requires row { row < rows_in p.now }
        requires tile { tile < length p.now.tiles }
        requires chief { (D.view desk.old).number ≡ 0 }
        requires alone { (D.view desk.old).solo ≡ true }
        requires known { Knows (D.view desk.old) (root_at p.now row tile) }
        requires unserved { entries (root_read_of p.now row tile) (D.view desk.old).served ≡ 0 }
        ensures desk { D.plan desk.new ≡ p.now }
        ensures gains { OnOk result (Gains K.pictures self.old tile self.new) }
        ensures serves { OnOk result
            (Adds (D.view desk.old) (D.view desk.new) [] [] [] (signed 0 (root_read_of p.now row tile) ∷ [])) }
        ensures left { OnErr result (self.new ≡ self.old) }
        ensures stays { OnErr result (Stays (D.view desk.old) (D.view desk.new)) }
    {
        let e = root_read(p, row, tile);
        match tile_of(desk, e) {
            Ok(owner) => {
                self.put::<K>(p, row, tile, owner.tile());
                desk.retire(e);
                Ok(())
            }
            Err(Memory) => Err(Memory),
        }
    }

    /// Puts the pixels of the alias of a tile of the row.
    fn put<K: Film>(&mut self, p: &Plan, row: u32, tile: u32, t: &Tile)
        requires plan { p.now ≡ self.old.plan }
        requires mine { row ≡ self.old.row }
        requires tile { tile < length p.now.tiles }
        requires value { HoldsTile K.pictures p.now (root_at p.now row tile) t.now }
        ensures { Gains K.pictures self.old tile self.new }
    {
        // what may be relied on in a plan
        p.aliases();
        self.raster.paste(t);
    }
}
