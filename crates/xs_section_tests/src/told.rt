//! A seat that is alone, to the end, where the pictures are told: the tiles that its reads get hold the values.

ghost use Rattle.std.specs.Prelude.{◌≡◌, ◌<◌, ◌+◌, Some, None, IfOk, IsTrue, OnOk, length, slice_get};
ghost use Rattle.xs_rawfile.specs.declared.drawing.RawKind.TheVariants.{Colour};
ghost use Rattle.xs_rawfile.specs.Held.{plain_picture};
ghost use Rattle.xs_plan.specs.Record.{entry_at};
ghost use Rattle.xs_plan.specs.Reads.{reads_in};
ghost use Rattle.xs_bench.specs.Inputs.{HoldsInput, TileHolds};
ghost use Rattle.xs_life.specs.Alive.{Alive};
ghost use Rattle.xs_sections.specs.Drawn.{AreAllDrawn};

use std::alloc::Global;
use std::marker::Brand;
use std::process::Abort;
use std::test::Fail;
use xs_base::{List, Memory};
use xs_bench::{Bench, PlainBench};
use xs_core::Desk;
use xs_life::{put, serve_tile, squared};
use xs_pixel::Film;
use xs_plain_desk::PlainDesk;
use xs_plan::Plan;
use xs_raster::{Tile, TileRef};
use xs_rawfile::{Drawing, Drawings, RawKind};
use xs_rect::Rect;
use xs_sections::all_drawn;

/// The pixel of the drawing, and that pixel multiplied with itself.
const ONCE: [u8; 4] = [100, 50, 200, 255];

const SQUARED: [u8; 4] = [39, 10, 157, 255];

/// Whether an alias has no input at a port.
fn lacks_input<K: Film>(p: &Plan, k: u32, port: u32) -> bool
    requires { k < length p.now.entries }
    ensures { IsTrue result → HoldsInput K.pictures p.now (slice_get (entry_at p.now.entries k).inputs port) None }
{
    match p.input(k, port) {
        Some(_) => false,
        None => true,
    }
}

/// Whether an alias reads the first alias at a port, whose tile is given.
fn reads_first<K: Film>(p: &Plan, k: u32, port: u32, tile: &Tile) -> bool
    requires there { k < length p.now.entries }
    requires value { TileHolds K.pictures p.now 0 tile.now }
    ensures { IsTrue result → HoldsInput K.pictures p.now (slice_get (entry_at p.now.entries k).inputs port) (Some tile.now) }
{
    match p.input(k, port) {
        Some(input) => input == 0,
        None => false,
    }
}

/// The tile of the first alias, which reads no other.
fn first_tile<K: Film, B: Bench>(
    rt: &impl Abort,
    alloc: Global,
    p: &Plan,
    bench: &mut B,
    d: &Drawings<K>,
) -> Result<Tile, Memory>
    requires there { 0 < length p.now.entries }
    requires drawn { AreAllDrawn p.now d.now }
    ensures { IfOk result (TileHolds K.pictures p.now 0) }
{
    let alone = lacks_input::<K>(p, 0, 0) && lacks_input::<K>(p, 0, 1);
    assert!(rt; alone, "the first alias reads none");
    bench.compute(alloc, p, 0, None, None, d)
}

/// The tile of the second alias, which reads the first one at both ports.
fn second_tile<K: Film, B: Bench>(
    rt: &impl Abort,
    alloc: Global,
    p: &Plan,
    bench: &mut B,
    d: &Drawings<K>,
    first: &Tile,
) -> Result<Tile, Memory>
    requires there { 1 < length p.now.entries }
    requires drawn { AreAllDrawn p.now d.now }
    requires value { TileHolds K.pictures p.now 0 first.now }
    ensures { IfOk result (TileHolds K.pictures p.now 1) }
{
    let both = reads_first::<K>(p, 1, 0, first) && reads_first::<K>(p, 1, 1, first);
    assert!(rt; both, "the second alias reads the first one twice");
    bench.compute(alloc, p, 1, Some(first), Some(first), d)
}

/// Makes the next alias at a seat, with its tile.
fn puts<K: Film, D: Desk<K>>(
    rt: &impl Abort,
    alloc: Global,
    desk: &mut D,
    p: &Plan,
    k: u32,
    tile: Tile,
) -> Result<(), Memory>
    requires plan { p.now ≡ D.plan desk.old }
    requires there { k < length p.now.entries }
    requires value { TileHolds K.pictures p.now k tile }
    requires alive { Alive (D.view desk.old) k 0 }
    ensures plan { D.plan desk.new ≡ D.plan desk.old }
    ensures alive { OnOk result (Alive (D.view desk.new) (k + 1) 0) }
{
    let won = put(desk, p, k, TileRef::new(alloc, tile)?);
    assert!(rt; won, "alias {k} is won");
    Ok(())
}

/// Asserts the bytes of a tile.
fn shows_bytes(rt: &impl Abort, alloc: Global, tile: &Tile, wanted: [u8; 4]) -> Result<(), Memory> {
    let mut bytes = Vec::new(alloc);
    tile.raster().push_bytes(&mut bytes)?;
    assert!(rt;
        bytes.as_slice() == wanted.as_slice(),
        "the bytes of a tile"
    );
    Ok(())
}

/// Serves the next read of two aliases, and asserts the bytes of the tile that it gets.
fn shows<K: Film, D: Desk<K>>(
    rt: &impl Abort,
    alloc: Global,
    desk: &mut D,
    p: &Plan,
    e: u32,
    wanted: [u8; 4],
) -> Result<(), Memory>
    requires plan { p.now ≡ D.plan desk.old }
    requires there { e < reads_in p.now }
    requires alive { Alive (D.view desk.old) 2 e }
    ensures plan { D.plan desk.new ≡ D.plan desk.old }
    ensures alive { OnOk result (Alive (D.view desk.new) 2 (e + 1)) }
{
    match serve_tile(desk, p, 2, e) {
        Ok(Some(served)) => {
            shows_bytes(rt, alloc, served.tile.tile(), wanted)?;
            Ok(())
        }
        Ok(None) => panic!(rt; "read {e} is not served"),
        Err(error) => Err(error),
    }
}

/// Makes both aliases at a fresh seat, by a bench.
fn makes_both<K: Film, D: Desk<K>>(
    rt: &impl Abort,
    alloc: Global,
    desk: &mut D,
    p: &Plan,
    d: &Drawings<K>,
) -> Result<(), Memory>
    requires plan { p.now ≡ D.plan desk.old }
    requires two { length p.now.entries ≡ 2 }
    requires fresh { Alive (D.view desk.old) 0 0 }
    requires drawn { AreAllDrawn p.now d.now }
    ensures plan { D.plan desk.new ≡ D.plan desk.old }
    ensures alive { OnOk result (Alive (D.view desk.new) 2 0) }
{
    let mut bench = PlainBench::new(alloc);
    let first = first_tile(rt, alloc, p, &mut bench, d)?;
    let second = second_tile(rt, alloc, p, &mut bench, d, &first)?;
    puts(rt, alloc, desk, p, 0, first)?;
    puts(rt, alloc, desk, p, 1, second)?;
    Ok(())
}

/// Serves the three reads of both aliases, and asserts the bytes of the tiles.
fn shows_all<K: Film, D: Desk<K>>(
    rt: &impl Abort,
    alloc: Global,
    desk: &mut D,
    p: &Plan,
) -> Result<(), Memory>
    requires plan { p.now ≡ D.plan desk.old }
    requires three { reads_in p.now ≡ 3 }
    requires alive { Alive (D.view desk.old) 2 0 }
{
    shows(rt, alloc, desk, p, 0, ONCE)?;
    shows(rt, alloc, desk, p, 1, ONCE)?;
    shows(rt, alloc, desk, p, 2, SQUARED)?;
    Ok(())
}

/// The drawing, held, where its picture is told.
fn hold<K: Film>(alloc: Global, drawing: Drawing) -> Result<Drawings<K>, Memory>
    requires told { K.pictures ≡ Some (λ _. Some (plain_picture drawing)) }
    requires kind { drawing.kind ≡ Colour }
{
    let mut drawings = Drawings::<K>::new(alloc, 1, List::of(Vec::new(alloc)))?;
    drawings.set(0, drawing, None);
    Ok(drawings)
}

/// Makes both aliases over a drawing whose picture is told, and serves the three reads.
fn lives<K: Film>(rt: &impl Abort, alloc: Global, p: &Plan, drawing: Drawing) -> Result<(), Memory>
    requires told { K.pictures ≡ Some (λ _. Some (plain_picture drawing)) }
    requires kind { drawing.kind ≡ Colour }
{
    let d = hold::<K>(alloc, drawing)?;
    let ready = p.aliases() == 2 && p.reads() == 3 && all_drawn(p, &d);
    assert!(rt;
        ready,
        "two aliases and three reads, and the drawing is held"
    );
    let mut desk = PlainDesk::<K>::new(alloc, p)?;
    makes_both(rt, alloc, &mut desk, p, &d)?;
    shows_all(rt, alloc, &mut desk, p)?;
    assert!(rt; desk.held() == 0, "nothing is held at the end");
    Ok(())
}

/// A drawing of one pixel.
fn drawing(alloc: Global) -> Result<Drawing, Fail>
    ensures { IfOk result (λ d. d.kind ≡ Colour) }
{
    let bytes = ONCE.to_vec(alloc)?;
    let drawing = Drawing::new(0, 0, 1, 1, RawKind::Colour, List::of(bytes));
    Ok(drawing.ok_or("a drawing")?)
}

#[test]
fn tiles_hold_the_values_of_told_pictures(rt: HostRuntime) -> Result<(), Fail> {
    let alloc = rt.alloc();
    let p = squared(alloc, Rect::new(0, 0, 1, 1).ok_or("a tile")?)?;
    lives::<Brand>(&rt, alloc, &p, drawing(alloc)?)?;
    Ok(())
}
