//! Scenes that the tests of several crates use.

use std::alloc::Global;
use std::test::Fail;
use xs_check::{GoodScene, check};
use xs_scene_json::decode;

/// A scene with pegs, palette keys, drawings of both kinds, an off column and a nested sheet.
pub(crate) const OF_EACH_KIND: &str =
    r#"{"format":2,"camera":{"w":4,"h":2,"peg":1},"palettes":[{"styles":[[9,9,9,9],[255,0,0,128]],"keys":[{"row":3,"style":1,"rgba":[0,255,0,255]}]}],"levels":[{"kind":"colour","drawings":["a"]},{"kind":"cm32","palette":0,"drawings":["b","c"]}],"sheets":[{"pegs":[{"keys":[{"row":5,"x":9,"y":3},{"row":1,"x":1,"y":-1,"line":true}]},{"parent":0,"keys":[{"row":2,"x":10,"y":20}]}],"columns":[{"off":true,"cells":[]},{"cells":[{"from":3,"to":4,"sheet":1,"start":7},{"from":1,"to":2,"level":1,"drawing":1}]}]},{"columns":[]}]}"#;

/// Two columns with a drawing each at row 1.
pub(crate) const OF_TWO_COLUMNS: &str =
    r#"{"format":1,"camera":{"w":8,"h":8},"palettes":[],"levels":[{"kind":"colour","drawings":["a","b"]}],"sheets":[{"columns":[{"cells":[{"from":1,"to":1,"level":0,"drawing":0}]},{"cells":[{"from":1,"to":1,"level":0,"drawing":1}]}]}]}"#;

/// A column with a drawing at row 1 over a card, before a camera of two pixels.
pub(crate) const OF_A_CARD: &str =
    r#"{"format":1,"camera":{"w":2,"h":1},"palettes":[],"levels":[{"kind":"colour","drawings":["a"]}],"sheets":[{"columns":[{"cells":[{"from":1,"to":1,"level":0,"drawing":0}]}],"nodes":[{"op":"card","rgba":[255,0,0,128]}],"out":[{"node":0},{"column":0}]}]}"#;

/// The good scene that a text says.
pub(crate) fn good_scene(alloc: Global, text: &str) -> Result<GoodScene, Fail> {
    let scene = decode(alloc, text.as_bytes()).ok().ok_or("a scene")?;
    Ok(check(alloc, scene).ok().ok_or("a good scene")?)
}
