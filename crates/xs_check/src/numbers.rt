//! The numbers of the drawings of a scene.
ghost use Rattle.std.specs.Prelude.{◌≡◌, ◌<◌, ◌^◌, ◌++◌, ◌∷◌, [], length, replicate, IfOk, OnOk};
ghost use Rattle.xs_check.specs.Readers.{IsNumbering, IsOwner};

use std::alloc::{AllocError, Global};
use xs_base::Memory;
use xs_scene::Level;

/// The number of the first drawing of each level, and the level of each drawing.
#[derive(Debug, Drop)]
pub(crate) struct Numbers {
    pub(crate) firsts: Vec<u32>,
    pub(crate) owners: Vec<u32>,
}

impl Numbers {
    /// The level of a drawing, and the drawing's place in the level's list.
    pub(crate) fn owner<'s>(&self, levels: &'s [Level], d: u32) -> (&'s Level, usize)
        requires numbering { IsNumbering levels.now (length levels.now) self.now.firsts.items self.now.owners.items }
        requires below { d < length self.now.owners.items }
        ensures { IsOwner levels.now d result.1 result.0.now }
    {
        let d = d as usize;
        let owner = self.owners[d] as usize;
        let first = self.firsts[owner] as usize;
        (&levels[owner], d - first)
    }
}

/// Adds the drawings of one more level.
fn add_level(firsts: &mut Vec<u32>, owners: &mut Vec<u32>, count: usize) -> Result<(), Memory>
    ensures firsts { OnOk result (firsts.new.items ≡ firsts.old.items ++ length owners.old.items ∷ []) }
    ensures owners { OnOk result (owners.new.items ≡ owners.old.items ++ replicate count (length firsts.old.items)) }
{
    let (Ok(level), Ok(first)) = (u32::try_from(firsts.len()), u32::try_from(owners.len())) else {
        return Err(Memory);
    };
    firsts.push(first).map_err(AllocError::from)?;
    for _added in 0..count {
        owners.push(level).map_err(AllocError::from)?;
    }
    Ok(())
}

/// The numbers of all drawings. More drawings than a number can tell are want of memory.
pub(crate) fn numbers_of(alloc: Global, levels: &[Level]) -> Result<Numbers, Memory>
    ensures numbering { IfOk result (λ n. IsNumbering levels.now (length levels.now) n.firsts.items n.owners.items) }
    ensures few { IfOk result (λ n. length n.owners.items < 2 ^ 32) }
{
    let mut firsts = Vec::new(alloc);
    let mut owners = Vec::new(alloc);
    for level in levels {
        add_level(&mut firsts, &mut owners, level.drawings.items().len())?;
    }
    if owners.len() > u32::MAX as usize {
        return Err(Memory);
    }
    Ok(Numbers { firsts, owners })
}
