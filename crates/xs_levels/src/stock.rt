ghost use Rattle.std.specs.Prelude.{◌≡◌, ◌<◌, ◌≤◌, ◌+◌, ◌*◌, ℕ, length, IfOk, IfErr, OnOk, Some, None, true, false, IsTrue, slice_set};
ghost use Rattle.xs_base.specs.declared.limits.TheConstants.{DRAWING_LIMIT, MOST_STYLES};
ghost use Rattle.xs_pixel.specs.Picture.{Pictures};
ghost use Rattle.xs_palette.specs.Styles.{written, style_of};
ghost use Rattle.xs_rawfile.specs.Held.{held, slot_in, IsHeld, HasItsPalette, picture_of};
ghost use Rattle.xs_rawfile.specs.Level.{first_fault, raw_of};
ghost use Rattle.xs_chain.specs.Row.{head, list_at, list_with};
ghost use Rattle.xs_plan.specs.Record.{PlanRecord};
ghost use Rattle.xs_plan.specs.Sections.{sections_in};
ghost use Rattle.xs_plan.specs.Needed.{new_drawings, last_section_of, picture_bytes};
ghost use Rattle.xs_plan.specs.Needed.{held as held_in};
ghost use Rattle.xs_levels.specs.Table.{TableRecord, file_of, kind_of, raw_kind_of, palette_number};
ghost use Rattle.xs_levels.specs.Films.{Files, AreAsWritten, IsFileOf, film_of, pictures_of, fault_of, are_bytes};
ghost use Rattle.xs_levels.specs.Stocked.{IsCounted, IsLess, IsStock, MayTake, HasTaken, Holds, left_after, raw_bytes, slot_bytes, held_bytes};
ghost use Rattle.xs_levels.specs.Loading.{IsLoaded, StopsIn, AsksFor, HadFaults, IsRefused, HadFault, AsksOnce, IsUnread};

use crate::loaded::{Loaded, Refusal};
use crate::table::FileTable;
use std::alloc::Global;
use std::marker::Model;
use xs_base::limits::DRAWING_LIMIT;
use xs_base::{List, Memory};
use xs_chain::Chains;
use xs_outside::{Fetched, Library};
use xs_palette::{Palette, PaletteFault};
use xs_pixel::Film;
use xs_plan::Plan;
use xs_rawfile::{Drawing, Drawings, LevelCode, RawKind, read_level_owned};
use xs_scene::{Colours, Kind};

/// The drawings of a plan that are held, section by section: a section's drawings are loaded, and when it
/// has ended those are let go that no later section needs.
#[derive(Drop)]
pub struct Stock<K: Film> {
    drawings: Drawings<K>,
    /// The drawings that are held, in the list of the last section that needs them.
    lasts: Chains,
    /// The most bytes that may be held, and how many are.
    limit: u64,
    bytes: u64,
    /// How many sections were loaded, and how many have ended.
    loaded: u32,
    ended: u32,
}

impl<K: Film> Model for Stock<K> {
    ghost use Rattle.xs_levels.specs.Stocked.{StockRecord};

    ghost Value = { StockRecord };

    ghost view = { λ s. record {
      held = s.drawings;
      row = s.lasts;
      limit = s.limit;
      bytes = s.bytes;
      loaded = s.loaded;
      ended = s.ended;
    } };
}

impl<K: Film> Stock<K> {
    /// Nothing is held yet, of the drawings of a table that a plan needs; at most `limit` bytes will be. No
    /// later call takes memory but for files and what is read of them.
    pub fn new<F: FileTable>(
        alloc: Global,
        table: &F,
        p: &Plan,
        limit: u64,
    ) -> Result<Stock<K>, Memory>
        requires drawings { p.now.drawings ≤ length (F.told table.now).files }
        ensures stock { IfOk result (IsStock p.now (F.told table.now)) }
        ensures none { IfOk result (λ s. (s.loaded ≡ 0) × (s.ended ≡ 0)) }
        ensures limit { IfOk result (λ s. s.limit ≡ limit) }
    {
        let palettes = palettes(alloc, table)?;
        let drawings = Drawings::new(alloc, table.drawings(), palettes)?;
        let lasts = Chains::new(alloc, table.drawings(), p.sections())?;
        Ok(Stock {
            drawings,
            lasts,
            limit,
            bytes: 0,
            loaded: 0,
            ended: 0,
        })
    }

    /// Loads the drawings that a section is the first to need: asks for the file of each once, in order, and
    /// reads it and counts its bytes before the next is asked for.
    pub fn load<L: Library, F: FileTable>(
        &mut self,
        alloc: Global,
        lib: &mut L,
        table: &F,
        p: &Plan,
        s: u32,
    ) -> Loaded
        requires section { s < sections_in p.now }
        requires next { self.old.loaded ≡ s }
        requires ended { self.old.ended ≡ s }
        requires drawings { p.now.drawings ≤ length (F.told table.now).files }
        requires stock { IsStock p.now (F.told table.now) self.old }
        requires film { K.pictures ≡ film_of (L.files lib.old) (F.told table.now) }
        ensures told { (files : Files) → L.files lib.old ≡ Some files
            → IsLoaded files (F.told table.now) self.old.limit self.old.bytes (new_drawings p.now s) result }
        ensures place { StopsIn (new_drawings p.now s) result }
        ensures asked { AsksFor (F.told table.now) (new_drawings p.now s) (L.asked lib.old) (L.asked lib.new) result }
        ensures same { L.files lib.new ≡ L.files lib.old }
        ensures later { L.faults lib.old ≤ L.faults lib.new }
        ensures faults { HadFaults (L.files lib.old) (L.faults lib.old) (L.faults lib.new) result }
        ensures stock { result ≡ Loaded.Done → IsStock p.now (F.told table.now) self.new }
        ensures sections { result ≡ Loaded.Done → (self.new.loaded ≡ s + 1) × (self.new.ended ≡ s) }
        ensures holds { result ≡ Loaded.Done → Holds self.new.held (held_in p.now s) }
        ensures limit { result ≡ Loaded.Done → self.new.limit ≡ self.old.limit }
    {
        let _aliases = p.aliases();
        let news = p.new_drawings(s);
        for at in 0..news.len() as u32 {
            let d = news[at as usize];
            match self.load_drawing(alloc, lib, table, p, d) {
                Ok(()) => {}
                Err(refusal) => return refusal.answer(at, d),
            }
        }
        self.loaded = s + 1;
        Loaded::Done
    }

    /// Lets those drawings go whose last section has ended.
    pub fn end(&mut self, s: u32)
        requires counted { IsCounted self.old }
        requires section { s < length self.old.row.lists }
        requires loaded { self.old.loaded ≡ s + 1 }
        requires next { self.old.ended ≡ s }
        ensures stock { (p : PlanRecord) (t : TableRecord) → IsStock p t self.old
            → IsStock p t self.new × Holds self.new.held (left_after p s) }
        ensures loaded { self.new.loaded ≡ self.old.loaded }
        ensures ended { self.new.ended ≡ s + 1 }
        ensures limit { self.new.limit ≡ self.old.limit }
    {
        'going: while self.let_first_go(s) {}
        self.ended = self.loaded;
    }

    /// Lets the first drawing of a section's list go; false where there is none.
    fn let_first_go(&mut self, s: u32) -> bool
        requires counted { IsCounted self.old }
        requires section { s < length self.old.row.lists }
        ensures less { IsLess s self.old self.new }
        ensures shorter { IsTrue result → length (list_at self.new.row s) < length (list_at self.old.row s) }
        ensures none { result ≡ false → head (list_at self.new.row s) ≡ None }
    {
        let Some(d) = self.lasts.first(s) else {
            return false;
        };
        self.lasts.unlink(d);
        self.let_go(d);
        true
    }

    /// The drawings that are held, each as its picture where the film tells its pictures.
    pub fn drawings(&self) -> &Drawings<K>
        ensures held { result.now ≡ self.now.held }
        ensures pictures { IsHeld K.pictures self.now.held }
    {
        self.drawings.hold_their_pictures();
        &self.drawings
    }

    /// Loads a drawing: asks for its file, reads it, counts its bytes, and holds it until the last section
    /// that needs it.
    fn load_drawing<L: Library, F: FileTable>(
        &mut self,
        alloc: Global,
        lib: &mut L,
        table: &F,
        p: &Plan,
        d: u32,
    ) -> Result<(), Refusal>
        requires may { MayTake p.now (F.told table.now) d self.old }
        requires film { K.pictures ≡ film_of (L.files lib.old) (F.told table.now) }
        ensures taken { OnOk result ((bytes : ℕ) × HasTaken p.now d self.old bytes self.new
            × ((files : Files) → L.files lib.old ≡ Some files
            → (fault_of files (F.told table.now) d ≡ None) × (bytes ≡ picture_bytes (pictures_of files (F.told table.now) d)))) }
        ensures refused { IfErr result (λ r. (files : Files) → L.files lib.old ≡ Some files
            → IsRefused files (F.told table.now) self.old.limit self.old.bytes d r) }
        ensures asked { AsksOnce (file_of (F.told table.now) d) (L.asked lib.old) (L.asked lib.new) result }
        ensures faults { HadFault (L.files lib.old) (L.faults lib.old) (L.faults lib.new) result }
        ensures same { L.files lib.new ≡ L.files lib.old }
        ensures later { L.faults lib.old ≤ L.faults lib.new }
    {
        let drawing = fetch(alloc, lib, table, d)?;
        let bytes = bytes_of(&drawing);
        if bytes > self.limit - self.bytes {
            return Err(Refusal::Limit);
        }
        let palette = palette_number(table.kind(d));
        self.hold(p, d, drawing, self.bytes + bytes, palette);
        Ok(())
    }

    /// Holds a drawing until the last section that needs it.
    fn hold(&mut self, p: &Plan, d: u32, drawing: Drawing, total: u64, palette: Option<u32>)
        requires counted { IsCounted self.old }
        requires number { d < length self.old.held.slots }
        requires free { list_with self.old.row d ≡ None }
        requires last { (last : ℕ) × (last_section_of p.now d ≡ Some last) × (last < length self.old.row.lists) }
        requires total { total ≡ self.old.bytes + raw_bytes drawing }
        requires few { total ≤ self.old.limit }
        requires palette { HasItsPalette self.old.held.palettes drawing.kind palette }
        requires film { (pictures : Pictures) → K.pictures ≡ Some pictures
            → pictures d ≡ Some (picture_of self.old.held.palettes drawing palette) }
        ensures { HasTaken p.now d self.old (raw_bytes drawing) self.new }
    {
        let Some(last) = p.last_section(d) else {
            unreachable!();
        };
        self.lasts.push_back(last, d);
        self.bytes = total;
        self.drawings.set(d, drawing, palette);
    }

    /// Lets a drawing go that is in no list any more.
    fn let_go(&mut self, d: u32)
        requires number { d < length self.old.held.slots }
        requires bytes { self.old.bytes ≡ held_bytes self.old.held }
        ensures held { self.new.held ≡ held (slice_set self.old.held.slots d None) self.old.held.palettes }
        ensures bytes { self.new.bytes ≡ held_bytes self.new.held }
        ensures fewer { self.new.bytes ≤ self.old.bytes }
        ensures rest { self.new ≡ record self.old { held = self.new.held; bytes = self.new.bytes } }
    {
        let bytes = bytes_at(&self.drawings, d);
        self.bytes -= bytes;
        self.drawings.remove(d);
    }
}

/// The bytes of a drawing, four for each pixel.
fn bytes_of(drawing: &Drawing) -> u64
    ensures { result ≡ raw_bytes drawing.now }
{
    4 * (drawing.w() as u64 * drawing.h() as u64)
}

/// The bytes of the drawing with this number; none where it is not held.
fn bytes_at<K: Film>(drawings: &Drawings<K>, d: u32) -> u64
    ensures { result ≡ slot_bytes (slot_in drawings.now d) }
{
    match drawings.get(d) {
        Some(drawing) => bytes_of(drawing),
        None => 0,
    }
}

/// The kind that the files of such drawings have.
fn raw_kind(kind: Kind) -> RawKind
    ensures { result ≡ raw_kind_of kind }
{
    match kind {
        Kind::Colour => RawKind::Colour,
        Kind::Cm32(_) => RawKind::Cm32,
    }
}

/// The number of the palette of such drawings.
fn palette_number(kind: Kind) -> Option<u32>
    ensures { result ≡ palette_number kind }
{
    match kind {
        Kind::Colour => None,
        Kind::Cm32(palette) => Some(palette),
    }
}

/// Asks for the file of a drawing.
fn ask<L: Library, F: FileTable>(
    alloc: Global,
    lib: &mut L,
    table: &F,
    d: u32,
) -> Result<List<u8>, Refusal>
    requires { d < length (F.told table.now).files }
    ensures bytes { IfOk result (λ bytes. (files : Files) → L.files lib.old ≡ Some files
        → (files (file_of (F.told table.now) d) ≡ Some bytes) × (length bytes ≤ DRAWING_LIMIT)) }
    ensures refused { IfErr result (λ r. (files : Files) → L.files lib.old ≡ Some files → (limit over : ℕ)
        → IsRefused files (F.told table.now) limit over d r) }
    ensures asked { AsksOnce (file_of (F.told table.now) d) (L.asked lib.old) (L.asked lib.new) result }
    ensures faults { HadFault (L.files lib.old) (L.faults lib.old) (L.faults lib.new) result }
    ensures same { L.files lib.new ≡ L.files lib.old }
    ensures later { L.faults lib.old ≤ L.faults lib.new }
{
    match lib.get(alloc, table.file(d), DRAWING_LIMIT) {
        Fetched::Bytes(bytes) => Ok(List::of(bytes)),
        Fetched::Absent => Err(Refusal::Level(LevelCode::Absent)),
        Fetched::TooLong => Err(Refusal::Level(LevelCode::TooLong)),
        Fetched::Failed => Err(Refusal::ReadFault),
        Fetched::Memory => Err(Refusal::Memory),
    }
}

/// Bytes are numbers below 256. Nothing is done but to tell this to contracts.
fn are_bytes(bytes: &[u8])
    ensures { are_bytes bytes.now ≡ true }
{}

/// The drawing that the bytes of its file hold, which keeps them.
fn read(bytes: List<u8>, kind: RawKind) -> Result<Drawing, Refusal>
    ensures value { IfOk result (λ g. g ≡ raw_of kind bytes) }
    ensures accepted { OnOk result (first_fault kind bytes ≡ None) }
    ensures bytes { are_bytes bytes ≡ true }
    ensures unread { IfErr result (IsUnread (first_fault kind bytes)) }
{
    are_bytes(bytes.items());
    match read_level_owned(bytes.into_items(), kind) {
        Ok(drawing) => Ok(drawing),
        Err(code) => Err(Refusal::Level(code)),
    }
}

/// Asks for the file of a drawing and reads it.
fn fetch<L: Library, F: FileTable>(
    alloc: Global,
    lib: &mut L,
    table: &F,
    d: u32,
) -> Result<Drawing, Refusal>
    requires { d < length (F.told table.now).files }
    ensures drawing { IfOk result (λ g. (files : Files) → L.files lib.old ≡ Some files → IsFileOf files (F.told table.now) d g) }
    ensures faultless { OnOk result ((files : Files) → L.files lib.old ≡ Some files → fault_of files (F.told table.now) d ≡ None) }
    ensures kind { IfOk result (λ g. g.kind ≡ raw_kind_of (kind_of (F.told table.now) d)) }
    ensures refused { IfErr result (λ r. (files : Files) → L.files lib.old ≡ Some files → (limit over : ℕ)
        → IsRefused files (F.told table.now) limit over d r) }
    ensures asked { AsksOnce (file_of (F.told table.now) d) (L.asked lib.old) (L.asked lib.new) result }
    ensures faults { HadFault (L.files lib.old) (L.faults lib.old) (L.faults lib.new) result }
    ensures same { L.files lib.new ≡ L.files lib.old }
    ensures later { L.faults lib.old ≤ L.faults lib.new }
{
    let bytes = ask(alloc, lib, table, d)?;
    let drawing = read(bytes, raw_kind(table.kind(d)))?;
    Ok(drawing)
}

/// The palettes of a table as they are written.
fn palettes<F: FileTable>(alloc: Global, table: &F) -> Result<List<Palette>, Memory>
    ensures count { IfOk result (λ palettes. length palettes ≡ length (F.told table.now).palettes) }
    ensures written { IfOk result (λ palettes. AreAsWritten palettes (F.told table.now)) }
{
    let count = table.palettes();
    let mut palettes = Vec::with_capacity(alloc, count)?;
    for i in 0..count {
        palettes.push_reserved(written(alloc, table.palette(i))?);
    }
    Ok(List::of(palettes))
}

/// A palette as it is written.
fn written(alloc: Global, colours: &Colours) -> Result<Palette, Memory>
    requires { length colours.now.styles ≤ MOST_STYLES }
    ensures { IfOk result (λ palette. style_of palette ≡ style_of (written colours.now.styles)) }
{
    match Palette::from_styles(alloc, colours.styles.items()) {
        Ok(palette) => Ok(palette),
        Err(PaletteFault::Memory) => Err(Memory),
        Err(PaletteFault::TooMany) => unreachable!(),
    }
}
