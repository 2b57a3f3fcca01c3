//! Lists that are too long.
ghost use Rattle.std.specs.Prelude.{◌≡◌, []};
ghost use Rattle.xs_check.specs.Finding.{Finds, if_there};
ghost use Rattle.xs_base.specs.declared.limits.TheConstants.{MOST_TERMINALS};
ghost use Rattle.xs_check.specs.Passes.{length_fault, sheet_size_fault, size_fault};

use crate::finding::{Requirement, each};
use std::alloc::Global;
use xs_base::List;
use xs_base::limits::{
    LONGEST_SHUFFLE, MOST_COLUMNS, MOST_FILTER_STYLES, MOST_NODES, MOST_STYLE_KEYS, MOST_STYLES,
    MOST_TERMINALS,
};
use xs_fault::{Field, FieldFault, Path, Place, SceneCode};
use xs_scene::{Colours, Node, Ref, Scene, Sheet};

/// TooMany at a place where the list there is longer than its limit.
fn at_most<T>(alloc: Global, limit: usize, at: &Place, list: &List<T>) -> Result<(), FieldFault>
    ensures { Finds result (length_fault limit at.now list.now) }
{
    if list.items().len() <= limit {
        Ok(())
    } else {
        Err(at.fault(alloc, SceneCode::TooMany))
    }
}

/// The sizes of the lists of a palette.
#[derive(Clone, Copy)]
struct PaletteSizes;

impl Requirement<Colours> for PaletteSizes {
    ghost use Rattle.xs_check.specs.Passes.{palette_size_fault as Found};

    ghost finds = { λ _. Found };

    fn look(&self, alloc: Global, item: &Colours, at: &Place) -> Result<(), FieldFault> {
        at_most(alloc, MOST_STYLES, at, &item.styles)?;
        let path = at.path(alloc)?;
        at_most(
            alloc,
            MOST_STYLE_KEYS,
            &Place::key(&path, Field::Keys),
            &item.keys,
        )
    }
}

/// The size of the list of a node.
#[derive(Clone, Copy)]
struct NodeSizes;

impl Requirement<Node> for NodeSizes {
    ghost use Rattle.xs_check.specs.Passes.{node_size_fault as Found};

    ghost finds = { λ _. Found };

    fn look(&self, alloc: Global, item: &Node, at: &Place) -> Result<(), FieldFault> {
        let path = at.path(alloc)?;
        match item {
            Node::Shuffle { input: _, list } => {
                at_most(
                    alloc,
                    LONGEST_SHUFFLE,
                    &Place::key(&path, Field::List),
                    list,
                )
            }
            Node::Keep { input: _, styles } => {
                at_most(
                    alloc,
                    MOST_FILTER_STYLES,
                    &Place::key(&path, Field::Styles),
                    styles,
                )
            }
            Node::Delete { input: _, styles } => {
                at_most(
                    alloc,
                    MOST_FILTER_STYLES,
                    &Place::key(&path, Field::Styles),
                    styles,
                )
            }
            Node::Pair { .. } | Node::Card(_) | Node::Blur { .. } => Ok(()),
        }
    }
}

/// The size of what a sheet lists to be rendered.
fn out_size(alloc: Global, at: &Place, out: &Option<List<Ref>>) -> Result<(), FieldFault>
    ensures { Finds result (if_there (length_fault MOST_TERMINALS at.now) out.now) }
{
    match out {
        Some(list) => at_most(alloc, MOST_TERMINALS, at, list),
        None => Ok(()),
    }
}

/// The sizes of the lists of the sheet at a path.
fn of_sheet(alloc: Global, sheet: &Sheet, at: &Path) -> Result<(), FieldFault>
    ensures { Finds result (sheet_size_fault at.now sheet.now) }
{
    let columns = Place::key(at, Field::Columns);
    at_most(alloc, MOST_COLUMNS, &columns, &sheet.columns)?;
    let nodes = Place::key(at, Field::Nodes);
    at_most(alloc, MOST_NODES, &nodes, &sheet.nodes)?;
    each(alloc, &NodeSizes, sheet.nodes.items(), at, Field::Nodes)?;
    out_size(alloc, &Place::key(at, Field::Out), &sheet.out)
}

/// The sizes of the lists of a sheet.
#[derive(Clone, Copy)]
struct SheetSizes;

impl Requirement<Sheet> for SheetSizes {
    ghost use Rattle.xs_check.specs.Passes.{sheet_size_fault as Found};

    ghost finds = { λ _. Found };

    fn look(&self, alloc: Global, item: &Sheet, at: &Place) -> Result<(), FieldFault> {
        let path = at.path(alloc)?;
        of_sheet(alloc, item, &path)
    }
}

/// The first list that is too long, from the object at `top`.
fn of_scene(alloc: Global, scene: &Scene, top: &Path) -> Result<(), FieldFault>
    requires { top.now ≡ [] }
    ensures { Finds result (size_fault scene.now) }
{
    let palettes = scene.palettes.items();
    each(alloc, &PaletteSizes, palettes, top, Field::Palettes)?;
    each(alloc, &SheetSizes, scene.sheets.items(), top, Field::Sheets)
}

/// The first list that is too long.
pub fn sizes(alloc: Global, scene: &Scene) -> Result<(), FieldFault>
    ensures { Finds result (size_fault scene.now) }
{
    let top = Path::root(alloc);
    of_scene(alloc, scene, &top)
}
