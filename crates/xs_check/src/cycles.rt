//! Pegs, nodes and sheets that lead back to themselves, and chains of them that are too long.
ghost use Rattle.std.specs.Prelude.{◌≡◌, ◌<◌, []};
ghost use Rattle.xs_check.specs.Finding.{Finds};
ghost use Rattle.xs_fault.specs.Paths.{path_of};
ghost use Rattle.xs_check.specs.Passes.{peg_cycle_fault, node_cycle_fault, sheet_cycle_fault, chain_fault, cycle_fault, long_chain_fault};

use crate::finding::{Requirement, each, tell_first};
use crate::links::links_of;
use std::alloc::Global;
use xs_base::List;
use xs_base::limits::{DEEPEST_NEST, LONGEST_PEG_CHAIN};
use xs_fault::{Field, FieldFault, Path, Place, SceneCode};
use xs_graph::laws::{chains_are_told_link_by_link, cycles_are_told_node_by_node};
use xs_graph::{first_long, first_on_cycle};
use xs_scene::{Scene, Sheet};

/// The fault at the first of some things that lies on a cycle.
fn no_cycles(
    alloc: Global,
    links: &List<List<u32>>,
    code: SceneCode,
    at: &Path,
    field: Field,
) -> Result<(), FieldFault>
    ensures { Finds result (cycle_fault code links.now (path_of field at.now)) }
{
    let first = first_on_cycle(alloc, links)?;
    cycles_are_told_node_by_node();
    tell_first(alloc, first, code, at, field)
}

/// The fault at the first of some things at which a chain begins that has more than `most`.
fn no_long_chains(
    alloc: Global,
    links: &List<List<u32>>,
    most: u32,
    at: &Path,
    field: Field,
) -> Result<(), FieldFault>
    requires { 0 < most }
    ensures { Finds result (long_chain_fault most links.now (path_of field at.now)) }
{
    let first = first_long(alloc, links, most)?;
    chains_are_told_link_by_link();
    tell_first(alloc, first, SceneCode::TooMany, at, field)
}

/// The pegs of a sheet that lie on a cycle of parents.
#[derive(Clone, Copy)]
struct PegCycle;

impl Requirement<List<List<u32>>> for PegCycle {
    ghost use Rattle.xs_check.specs.Passes.{sheet_peg_cycle_fault};

    ghost finds = { λ _. sheet_peg_cycle_fault };

    fn look(&self, alloc: Global, item: &List<List<u32>>, at: &Place) -> Result<(), FieldFault> {
        let path = at.path(alloc)?;
        no_cycles(alloc, item, SceneCode::PegCycle, &path, Field::Pegs)
    }
}

/// The nodes of a sheet that lie on a cycle of inputs.
#[derive(Clone, Copy)]
struct NodeCycle;

impl Requirement<Sheet> for NodeCycle {
    ghost use Rattle.xs_check.specs.Passes.{sheet_node_cycle_fault};

    ghost finds = { λ _. sheet_node_cycle_fault };

    fn look(&self, alloc: Global, item: &Sheet, at: &Place) -> Result<(), FieldFault> {
        let path = at.path(alloc)?;
        let links = links_of(alloc, item.nodes.items())?;
        no_cycles(alloc, &links, SceneCode::NodeCycle, &path, Field::Nodes)
    }
}

/// The pegs of a sheet at which a chain of more than `LONGEST_PEG_CHAIN` pegs begins.
#[derive(Clone, Copy)]
struct LongChain;

impl Requirement<List<List<u32>>> for LongChain {
    ghost use Rattle.xs_check.specs.Passes.{sheet_chain_fault};

    ghost finds = { λ _. sheet_chain_fault };

    fn look(&self, alloc: Global, item: &List<List<u32>>, at: &Place) -> Result<(), FieldFault> {
        let path = at.path(alloc)?;
        no_long_chains(alloc, item, LONGEST_PEG_CHAIN, &path, Field::Pegs)
    }
}

/// The first peg that is its own ancestor, by the parents of the pegs of each sheet.
pub fn peg_cycles(
    alloc: Global,
    parents: &List<List<List<u32>>>,
    top: &Path,
) -> Result<(), FieldFault>
    requires { top.now ≡ [] }
    ensures { Finds result (peg_cycle_fault parents.now) }
{
    each(alloc, &PegCycle, parents.items(), top, Field::Sheets)
}

/// The first node that is among its own inputs.
pub fn node_cycles(alloc: Global, scene: &Scene, top: &Path) -> Result<(), FieldFault>
    requires { top.now ≡ [] }
    ensures { Finds result (node_cycle_fault scene.now) }
{
    each(alloc, &NodeCycle, scene.sheets.items(), top, Field::Sheets)
}

/// The first sheet that shows itself, by the sheets that each shows.
pub fn sheet_cycles(alloc: Global, nested: &List<List<u32>>, top: &Path) -> Result<(), FieldFault>
    requires { top.now ≡ [] }
    ensures { Finds result (sheet_cycle_fault nested.now) }
{
    no_cycles(alloc, nested, SceneCode::SheetCycle, top, Field::Sheets)
}

/// The first peg at which a chain of more than `LONGEST_PEG_CHAIN` pegs begins; without one, the first sheet
/// at which a chain of more than `DEEPEST_NEST` nested sheets begins.
pub fn long_chains(
    alloc: Global,
    parents: &List<List<List<u32>>>,
    nested: &List<List<u32>>,
    top: &Path,
) -> Result<(), FieldFault>
    requires { top.now ≡ [] }
    ensures { Finds result (chain_fault parents.now nested.now) }
{
    each(alloc, &LongChain, parents.items(), top, Field::Sheets)?;
    no_long_chains(alloc, nested, DEEPEST_NEST, top, Field::Sheets)
}
