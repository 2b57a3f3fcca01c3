//! A whole frame by the plain evaluator.

ghost use Rattle.std.specs.Prelude.{◌≡◌, length, IfOk};

use std::alloc::Global;
use std::io;
use std::marker::Brand;
use std::rt::Clock;
use std::time::Instant;
use xs_base::List;
use xs_check::{GoodScene, check};
use xs_direct::frame_direct;
use xs_rawfile::{Drawing, Drawings, RawKind};
use xs_scene_json::decode;

/// One row of four columns, each with a drawing of its own.
const SCENE: &str =
    r#"{"format":1,"camera":{"w":1920,"h":1080},"palettes":[],"levels":[{"kind":"colour","drawings":["a","b","c","d"]}],"sheets":[{"columns":[{"cells":[{"from":1,"to":1,"level":0,"drawing":0}]},{"cells":[{"from":1,"to":1,"level":0,"drawing":1}]},{"cells":[{"from":1,"to":1,"level":0,"drawing":2}]},{"cells":[{"from":1,"to":1,"level":0,"drawing":3}]}]}]}"#;

fn failed() -> io::Error {
    io::Error::from(io::ErrorKind::OutOfMemory)
}

fn scene(alloc: Global) -> io::Result<GoodScene> {
    let Ok(scene) = decode(alloc, SCENE.as_bytes()) else {
        return Err(failed());
    };
    check(alloc, scene).map_err(|_fault| failed())
}

/// A drawing as large as the frame, half see-through.
fn drawing(alloc: Global) -> io::Result<Drawing>
    ensures { IfOk result (λ d. d.kind ≡ RawKind.Colour) }
{
    let bytes = vec![in alloc; 100u8; 4 * 1920 * 1080]?;
    match Drawing::new(0, 0, 1920, 1080, RawKind::Colour, List::of(bytes)) {
        Some(drawing) => Ok(drawing),
        None => Err(failed()),
    }
}

fn hold_all(alloc: Global, drawings: &mut Drawings<Brand>) -> io::Result<()>
    requires { length drawings.old.slots ≡ 4 }
{
    for d in 0..4u32 {
        drawings.set(d, drawing(alloc)?, None);
    }
    Ok(())
}

/// Four drawings that are held.
fn held(alloc: Global) -> io::Result<Drawings<Brand>> {
    let palettes = List::of(Vec::new(alloc));
    let Ok(mut drawings) = Drawings::<Brand>::new(alloc, 4, palettes) else {
        return Err(failed());
    };
    hold_all(alloc, &mut drawings)?;
    Ok(drawings)
}

/// Prints how long the frame of the first row takes.
fn time_frame<R: Clock + Print>(
    rt: &R,
    alloc: Global,
    scene: &GoodScene,
    drawings: &Drawings<Brand>,
) -> io::Result<()> {
    let start = Instant::now(rt)?;
    let Ok(bytes) = frame_direct(alloc, scene, drawings, 1) else {
        return Err(failed());
    };
    let micros = start.elapsed(rt)?.as_micros();
    println!(rt; "frame {} bytes {micros} microseconds", bytes.len())
}

/// Holds the drawings of the scene and prints how long its frame takes.
fn time_scene<R: Clock + Print>(rt: &R, alloc: Global, scene: &GoodScene) -> io::Result<()> {
    let drawings = held(alloc)?;
    time_frame(rt, alloc, scene, &drawings)
}

/// Prints how long the frame of a row of four columns takes.
pub fn time<R: Clock + Print>(rt: &R, alloc: Global) -> io::Result<()> {
    let scene = scene(alloc)?;
    time_scene(rt, alloc, &scene)
}
