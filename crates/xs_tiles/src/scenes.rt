//! Scenes of four columns, two of colour drawings and two of CM32 ones, each moved to a place of its own.

use crate::random::Random;
use std::alloc::{AllocError, Global};
use std::test::Fail;
use xs_check::{GoodScene, check};
use xs_scene_json::decode;

/// What a node does.
#[derive(Clone, Copy)]
pub(crate) enum Kind {
    /// An operation, by its word.
    Pair(&'static str),
    Card,
    /// A blur of at most this radius, in pixels.
    Blur(u32),
    Keep,
    Delete,
}

/// Each kind of node. The blurs are so small that many may follow one another.
pub(crate) const KINDS: [Kind; 12] = [
    Kind::Pair("over"),
    Kind::Pair("add"),
    Kind::Pair("sub"),
    Kind::Pair("mult"),
    Kind::Pair("min"),
    Kind::Pair("max"),
    Kind::Pair("in"),
    Kind::Pair("out"),
    Kind::Card,
    Kind::Blur(2),
    Kind::Keep,
    Kind::Delete,
];

const PALETTE: &str =
    "[[9,9,9,9],[255,0,0,255],[0,200,50,255],[10,20,30,128],[255,255,255,7],[1,2,3,0]]";

const LEVELS: &str =
    r#"{"kind":"colour","drawings":["a","b"]},{"kind":"cm32","palette":0,"drawings":["c","d"]}"#;

const COLUMNS: &str =
    r#"{"peg":0,"cells":[{"from":1,"to":1,"level":0,"drawing":0}]},{"peg":1,"cells":[{"from":1,"to":1,"level":0,"drawing":1}]},{"peg":2,"cells":[{"from":1,"to":1,"level":1,"drawing":0}]},{"peg":3,"cells":[{"from":1,"to":1,"level":1,"drawing":1}]}"#;

/// The good scene that a text says.
pub(crate) fn good_scene(alloc: Global, text: &str) -> Result<GoodScene, Fail> {
    let scene = decode(alloc, text.as_bytes()).ok().ok_or("a scene")?;
    Ok(check(alloc, scene).ok().ok_or("a good scene")?)
}

/// A scene with nodes of these kinds, of which `out` tells what the row shows.
pub(crate) fn scene(
    alloc: Global,
    random: &mut Random,
    kinds: &[Kind],
    out: &str,
) -> Result<GoodScene, Fail> {
    let text = text(alloc, random, kinds, out)?;
    good_scene(alloc, text.as_str())
}

fn text(
    alloc: Global,
    random: &mut Random,
    kinds: &[Kind],
    out: &str,
) -> Result<String, AllocError> {
    let (w, h) = (random.below(130) + 1, random.below(90) + 1);
    let mut text = format!(in alloc;
        "{{\"format\":2,\"camera\":{{\"w\":{w},\"h\":{h}}},\"palettes\":[{PALETTE}],\"levels\":[{LEVELS}],\"sheets\":[{{\"pegs\":["
    )?;
    push_pegs(alloc, &mut text, random)?;
    text.push_str("],\"columns\":[")?;
    text.push_str(COLUMNS)?;
    text.push_str("],\"nodes\":[")?;
    push_nodes(alloc, &mut text, random, kinds)?;
    text.push_str("],\"out\":[")?;
    text.push_str(out)?;
    text.push_str("]}]}")?;
    Ok(text)
}

/// The pegs of the four columns.
fn push_pegs(alloc: Global, text: &mut String, random: &mut Random) -> Result<(), AllocError> {
    for peg in 0..4u32 {
        if peg > 0 {
            text.push(',')?;
        }
        let (x, y) = (random.place(), random.place());
        let peg = format!(in alloc; "{{\"keys\":[{{\"row\":1,\"x\":{x},\"y\":{y}}}]}}")?;
        text.push_str(peg.as_str())?;
    }
    Ok(())
}

fn push_nodes(
    alloc: Global,
    text: &mut String,
    random: &mut Random,
    kinds: &[Kind],
) -> Result<(), AllocError> {
    let mut before = 0u32;
    for kind in kinds {
        if before > 0 {
            text.push(',')?;
        }
        let node = node(alloc, random, *kind, before)?;
        text.push_str(node.as_str())?;
        before = before.saturating_add(1).min(99);
    }
    Ok(())
}

/// A node behind so many others. What it shows is a column or one of those.
fn node(alloc: Global, random: &mut Random, kind: Kind, before: u32) -> Result<String, AllocError> {
    let input = input(alloc, random, before)?;
    match kind {
        Kind::Pair(op) => pair(alloc, random, op, input.as_str(), before),
        Kind::Card => card(alloc, random),
        Kind::Blur(most) => blur(alloc, random, input.as_str(), most),
        Kind::Keep => filter(alloc, random, "keep", input.as_str()),
        Kind::Delete => filter(alloc, random, "delete", input.as_str()),
    }
}

/// A column, or one of the nodes before.
fn input(alloc: Global, random: &mut Random, before: u32) -> Result<String, AllocError> {
    let number = random.below(before.min(99) + 4);
    if number < 4 {
        format!(in alloc; "{{\"column\":{number}}}")
    } else {
        let node = number - 4;
        format!(in alloc; "{{\"node\":{node}}}")
    }
}

fn pair(
    alloc: Global,
    random: &mut Random,
    op: &str,
    first: &str,
    before: u32,
) -> Result<String, AllocError> {
    let second = input(alloc, random, before)?;
    format!(in alloc; "{{\"op\":\"{op}\",\"first\":{first},\"second\":{second}}}")
}

fn card(alloc: Global, random: &mut Random) -> Result<String, AllocError> {
    let (r, g, b) = (random.byte(), random.byte(), random.byte());
    let a = random.byte().max(1);
    format!(in alloc; "{{\"op\":\"card\",\"rgba\":[{r},{g},{b},{a}]}}")
}

fn blur(alloc: Global, random: &mut Random, input: &str, most: u32) -> Result<String, AllocError> {
    let radius = random.below(most.clamp(1, 16)) + 1;
    format!(in alloc; "{{\"op\":\"blur\",\"input\":{input},\"radius\":{radius}}}")
}

fn filter(alloc: Global, random: &mut Random, op: &str, input: &str) -> Result<String, AllocError> {
    let style = random.below(4) + 1;
    format!(in alloc; "{{\"op\":\"{op}\",\"input\":{input},\"styles\":[{style}]}}")
}
