//! What pegs, nodes and sheets name of their own kind.
ghost use Rattle.std.specs.Prelude.{◌≡◌, ◌++◌, ℕ, IfOk, OnOk, map, flat_map};
ghost use Rattle.std.specs.Prelude.{List as Items};
ghost use Rattle.xs_meaning.specs.Inputs.{nodes_of};
ghost use Rattle.xs_check.specs.Links.{parent_links, sheet_in};

use std::alloc::{AllocError, Global};
use xs_base::List;
use xs_scene::{Exposure, Inputs, Node, Peg, Ref, Sheet, Shown};

/// A thing that names others of its kind.
pub trait Naming {
    /// The numbers that it names.
    ghost named: { Self → Items ℕ };

    fn named(&self, alloc: Global) -> Result<Vec<u32>, AllocError>
        ensures { IfOk result (λ v. v.items ≡ named self.now) };
}

/// What each of some things names.
pub fn links_of<T: Naming>(alloc: Global, things: &[T]) -> Result<List<List<u32>>, AllocError>
    ensures { IfOk result (λ links. links ≡ map T.named things.now) }
{
    let mut links = Vec::with_capacity(alloc, things.len())?;
    for thing in things {
        links.push(List::of(thing.named(alloc)?))?;
    }
    Ok(List::of(links))
}

/// What the pegs of each sheet name.
pub fn parents_of(alloc: Global, sheets: &[Sheet]) -> Result<List<List<List<u32>>>, AllocError>
    ensures { IfOk result (λ parents. parents ≡ map parent_links sheets.now) }
{
    let mut parents = Vec::with_capacity(alloc, sheets.len())?;
    for sheet in sheets {
        let links = links_of(alloc, sheet.pegs.items())?;
        parents.push(links)?;
    }
    Ok(List::of(parents))
}

impl Naming for Peg {
    ghost use Rattle.std.specs.Option.{option_to_list};

    ghost named = { λ peg. option_to_list peg.parent };

    fn named(&self, alloc: Global) -> Result<Vec<u32>, AllocError> {
        let mut named = Vec::new(alloc);
        if let Some(parent) = self.parent {
            named.push(parent)?;
        }
        Ok(named)
    }
}

/// Adds the node that a reference names.
fn add_node(named: &mut Vec<u32>, target: Ref) -> Result<(), AllocError>
    ensures { OnOk result (named.new.items ≡ named.old.items ++ nodes_of target) }
{
    if let Ref::Node(number) = target {
        named.push(number)?;
    }
    Ok(())
}

impl Naming for Node {
    ghost use Rattle.xs_meaning.specs.Inputs.{inputs_of};

    ghost named = { inputs_of };

    fn named(&self, alloc: Global) -> Result<Vec<u32>, AllocError> {
        let mut named = Vec::new(alloc);
        match self.inputs() {
            Inputs::Zero => {}
            Inputs::One(input) => add_node(&mut named, input)?,
            Inputs::Two { first, second } => {
                add_node(&mut named, first)?;
                add_node(&mut named, second)?;
            }
        }
        Ok(named)
    }
}

/// Adds the sheets that exposures show.
fn add_sheets(named: &mut Vec<u32>, cells: &[Exposure]) -> Result<(), AllocError>
    ensures { OnOk result (named.new.items ≡ named.old.items ++ flat_map (λ e. sheet_in e.shown) cells.now) }
{
    for cell in cells {
        if let Shown::Sheet { sheet, start: _ } = cell.shown {
            named.push(sheet)?;
        }
    }
    Ok(())
}

impl Naming for Sheet {
    ghost use Rattle.xs_check.specs.Links.{sheets_in};

    ghost named = { sheets_in };

    fn named(&self, alloc: Global) -> Result<Vec<u32>, AllocError> {
        let mut named = Vec::new(alloc);
        for column in self.columns.items() {
            add_sheets(&mut named, column.cells.items())?;
        }
        Ok(named)
    }
}
