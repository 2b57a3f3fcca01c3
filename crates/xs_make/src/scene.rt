//! The parts of a scene that is made from a seed.

ghost use Rattle.std.specs.Prelude.{◌≡◌, ◌<◌, ◌≤◌, ◌≤ℤ◌, neg_ℤ, pos, ◌+◌, ◌*◌, [], ◌∷◌, IfOk, OnOk, IfSome};
ghost use Rattle.xs_base.specs.declared.limits.TheConstants.{MOST_GENERATED_ROWS};
ghost use Rattle.xs_scene.specs.Ranges.{IsPlain, IsReference};
ghost use Rattle.xs_make.specs.Files.{cel_name};
ghost use Rattle.xs_make.specs.Draws.{state_after};
ghost use Rattle.xs_make.specs.Scenes.{around, background_level, cel_level, column_from, columns_from, exposure_from, exposures_of, held_column, key_from, keys_of, made_levels, made_node, made_out, palette_from, peg_from, scene_of, sheet_from, style_from};

use crate::draws::Draws;
use crate::files::cel_name;
use std::alloc::Global;
use xs_base::{List, Memory};
use xs_pixel::{Op, Style};
use xs_scene::{
    Camera, Colours, Column, Exposure, Kind, Level, Name, Node, Peg, PegKey, Ref, Scene, Sheet,
    Shown,
};

/// The clear style 0.
const CLEAR: Style = Style {
    r: 0,
    g: 0,
    b: 0,
    a: 0,
};

/// An opaque style.
#[tactic(auto, unfolding(crate::specs::Draws::state_after))]
fn style(draws: &mut Draws) -> Style
    ensures style { result ≡ style_from draws.old 0 }
    ensures state { draws.new ≡ state_after draws.old 3 }
{
    let r = draws.draw(256) as u8;
    let g = draws.draw(256) as u8;
    let b = draws.draw(256) as u8;
    Style { r, g, b, a: 255 }
}

/// The palette: style 0, and seven opaque ones.
#[tactic(auto, using(crate::proofs::Drawn::none_drawn))]
pub(crate) fn palette(alloc: Global, draws: &mut Draws) -> Result<Colours, Memory>
    ensures palette { IfOk result (λ c. c ≡ palette_from draws.old) }
    ensures state { OnOk result (draws.new ≡ state_after draws.old 21) }
{
    let mut styles = vec![in alloc; CLEAR]?;
    for _style in 0..7u32 {
        styles.push(style(draws))?;
    }
    match Colours::new(List::of(styles), List::of(Vec::new(alloc))) {
        Some(colours) => Ok(colours),
        None => unreachable!(),
    }
}

/// A number from as much below 0 as above it.
#[tactic(auto, unfolding(crate::specs::Draws::state_after))]
fn around(draws: &mut Draws, most: u32) -> i32
    requires { most ≤ 16 }
    ensures number { result ≡ around draws.old 0 most }
    ensures least { neg_ℤ (pos most) ≤ℤ result }
    ensures most { result ≤ℤ pos most }
    ensures state { draws.new ≡ state_after draws.old 1 }
{
    draws.draw(2 * most + 1) as i32 - most as i32
}

/// A key of the peg; they count from 0.
fn key(draws: &mut Draws, n: u32) -> PegKey
    requires { 8 * n < MOST_GENERATED_ROWS }
    ensures key { result ≡ record (key_from draws.old 0) { row = 8 * n + 1 } }
    ensures state { draws.new ≡ state_after draws.old 2 }
{
    let x = around(draws, 16);
    let y = around(draws, 8);
    match PegKey::new(8 * n + 1, x, y, false) {
        Some(key) => key,
        None => unreachable!(),
    }
}

/// The peg, with so many keys.
#[tactic(auto, using(crate::proofs::Drawn::none_drawn))]
fn peg(alloc: Global, draws: &mut Draws, count: u32) -> Result<Peg, Memory>
    requires { count ≤ 30 }
    ensures peg { IfOk result (λ p. p ≡ peg_from draws.old count) }
    ensures state { OnOk result (draws.new ≡ state_after draws.old (2 * count)) }
{
    let mut keys = Vec::new(alloc);
    for n in 0..count {
        keys.push(key(draws, n))?;
    }
    match Peg::new(None, List::of(keys)) {
        Some(peg) => Ok(peg),
        None => unreachable!(),
    }
}

/// An exposure of a column of words: two rows, or the last one alone. They count from 0.
#[tactic(auto, unfolding(crate::specs::Draws::state_after))]
fn exposure(draws: &mut Draws, rows: u32, level: u32, j: u32) -> Exposure
    requires rows { rows ≤ MOST_GENERATED_ROWS }
    requires level { level ≤ 3 }
    requires there { 2 * j < rows }
    ensures exposure { result ≡ record (exposure_from draws.old rows level 0) { from = 2 * j + 1; to = (exposure_from draws.old rows level j).to } }
    ensures state { draws.new ≡ state_after draws.old 1 }
{
    let index = draws.draw(4);
    let to = (2 * j + 2).min(rows);
    match Exposure::new(2 * j + 1, to, Shown::Drawing { level, index }) {
        Some(exposure) => exposure,
        None => unreachable!(),
    }
}

/// A column of words, which shows drawings of a level.
#[tactic(auto, using(crate::proofs::Drawn::none_drawn))]
fn column(
    alloc: Global,
    draws: &mut Draws,
    rows: u32,
    level: u32,
    peg: Option<u32>,
) -> Result<Column, Memory>
    requires rows { rows ≤ MOST_GENERATED_ROWS }
    requires level { level ≤ 3 }
    requires peg { IfSome peg IsReference }
    ensures column { IfOk result (λ c. c ≡ column_from draws.old rows level peg) }
    ensures state { OnOk result (draws.new ≡ state_after draws.old (exposures_of rows)) }
{
    let mut cells = Vec::new(alloc);
    for j in 0..(rows + 1) / 2 {
        cells.push(exposure(draws, rows, level, j))?;
    }
    match Column::new(peg, false, List::of(cells)) {
        Some(column) => Ok(column),
        None => unreachable!(),
    }
}

/// The column of the background, which is held over all rows.
fn held_column(alloc: Global, rows: u32) -> Result<Column, Memory>
    requires least { 1 ≤ rows }
    requires most { rows ≤ MOST_GENERATED_ROWS }
    ensures { IfOk result (λ c. c ≡ held_column rows) }
{
    let shown = Shown::Drawing { level: 0, index: 0 };
    let Some(exposure) = Exposure::new(1, rows, shown) else {
        unreachable!();
    };
    let cells = vec![in alloc; exposure]?;
    match Column::new(None, false, List::of(cells)) {
        Some(column) => Ok(column),
        None => unreachable!(),
    }
}

/// The four columns.
fn columns(alloc: Global, draws: &mut Draws, rows: u32) -> Result<Vec<Column>, Memory>
    requires least { 1 ≤ rows }
    requires most { rows ≤ MOST_GENERATED_ROWS }
    ensures columns { IfOk result (λ v. v.items ≡ columns_from draws.old rows) }
{
    let held = held_column(alloc, rows)?;
    let first = column(alloc, draws, rows, 1, None)?;
    let second = column(alloc, draws, rows, 2, Some(0))?;
    let third = column(alloc, draws, rows, 3, None)?;
    Ok(vec![in alloc; held, first, second, third]?)
}

/// The one node: the second column of words inside the first.
fn nodes(alloc: Global) -> Result<Vec<Node>, Memory>
    ensures { IfOk result (λ v. v.items ≡ made_node ∷ []) }
{
    let (first, second) = (Ref::Column(2), Ref::Column(1));
    Ok(vec![in alloc;
        Node::Pair {
            op: Op::MatteIn,
            first,
            second
        },
    ]?)
}

/// What is rendered, from the bottom up.
fn out(alloc: Global) -> Result<Vec<Ref>, Memory>
    ensures { IfOk result (λ v. v.items ≡ made_out) }
{
    Ok(vec![in alloc;
        Ref::Column(0),
        Ref::Column(1),
        Ref::Node(0),
        Ref::Column(3),
    ]?)
}

/// The sheet.
pub(crate) fn sheet(alloc: Global, draws: &mut Draws, rows: u32) -> Result<Sheet, Memory>
    requires least { 1 ≤ rows }
    requires most { rows ≤ MOST_GENERATED_ROWS }
    ensures { IfOk result (λ s. s ≡ sheet_from draws.old rows) }
{
    let pegs = vec![in alloc; peg(alloc, draws, (rows + 7) / 8)?]?;
    let columns = columns(alloc, draws, rows)?;
    let nodes = nodes(alloc)?;
    let out = out(alloc)?;
    match Sheet::new(
        List::of(pegs),
        List::of(columns),
        List::of(nodes),
        Some(List::of(out)),
    ) {
        Some(sheet) => Ok(sheet),
        None => unreachable!(),
    }
}

/// The name of a drawing of words.
fn name(alloc: Global, m: u32) -> Result<Name, Memory>
    requires { m < 12 }
    ensures { IfOk result (λ n. n ≡ cel_name m) }
{
    match Name::new(cel_name(alloc, m)?) {
        Some(name) => Ok(name),
        None => unreachable!(),
    }
}

/// A level of words; they count from 0.
fn level(alloc: Global, l: u32) -> Result<Level, Memory>
    requires { l < 3 }
    ensures { IfOk result (λ r. r ≡ cel_level l) }
{
    let mut names = Vec::new(alloc);
    for j in 0..4 {
        names.push(name(alloc, 4 * l + j)?)?;
    }
    match Level::new(Kind::Cm32(0), List::of(names)) {
        Some(level) => Ok(level),
        None => unreachable!(),
    }
}

/// The level of the background.
fn background_level(alloc: Global) -> Result<Level, Memory>
    ensures { IfOk result (λ r. r ≡ background_level) }
{
    let Some(name) = Name::new(String::from_str(alloc, "bg.xrl")?) else {
        unreachable!();
    };
    match Level::new(Kind::Colour, List::of(vec![in alloc; name]?)) {
        Some(level) => Ok(level),
        None => unreachable!(),
    }
}

/// The four levels.
fn levels(alloc: Global) -> Result<Vec<Level>, Memory>
    ensures { IfOk result (λ v. v.items ≡ made_levels) }
{
    let background = background_level(alloc)?;
    let first = level(alloc, 0)?;
    let second = level(alloc, 1)?;
    let third = level(alloc, 2)?;
    Ok(vec![in alloc; background, first, second, third]?)
}

/// The scene of a palette and a sheet.
pub(crate) fn scene(alloc: Global, palette: Colours, sheet: Sheet) -> Result<Scene, Memory>
    requires { IsPlain (palette ∷ []) (sheet ∷ []) }
    ensures { IfOk result (λ s. s ≡ scene_of palette sheet) }
{
    let levels = levels(alloc)?;
    let Some(camera) = Camera::new(192, 128, None) else {
        unreachable!();
    };
    let palettes = vec![in alloc; palette]?;
    let sheets = vec![in alloc; sheet]?;
    match Scene::new(
        1,
        camera,
        List::of(palettes),
        List::of(levels),
        List::of(sheets),
    ) {
        Some(scene) => Ok(scene),
        None => unreachable!(),
    }
}
