//! A scene that has been checked.
ghost use Rattle.std.specs.Prelude.{◌≡◌, IfOk};
ghost use Rattle.xs_check.specs.Finding.{Finds};
ghost use Rattle.xs_check.specs.Passes.{first_fault};
ghost use Rattle.xs_index.specs.Index.{IsIndexOf};

use crate::cycles::{long_chains, node_cycles, peg_cycles, sheet_cycles};
use crate::laws::scenes_without_a_fault_are_good;
use crate::links::{links_of, parents_of};
use crate::numbers::{Numbers, numbers_of};
use crate::overlaps::overlaps;
use crate::references::references;
use crate::sizes::sizes;
use std::alloc::Global;
use std::marker::Model;
use xs_fault::{FieldFault, Path};
use xs_index::Index;
use xs_scene::{Scene, Sheet};

/// A scene in which every number names a thing, nothing stands twice where one may, nothing leads back to
/// itself, and every size is within its limit.
#[derive(Debug, Drop)]
pub struct GoodScene {
    pub(crate) scene: Scene,
    pub(crate) index: Index,
    pub(crate) numbers: Numbers,
}

impl Model for GoodScene {
    ghost use Rattle.xs_scene.specs.Records.{SceneRecord};

    ghost Value = { SceneRecord };

    ghost use Rattle.xs_check.specs.Readers.{IsKept};

    ghost view = { λ g. g.scene };

    ghost invariant = { λ g. IsKept g.scene g.index g.numbers.firsts.items g.numbers.owners.items };
}

/// The index of a scene without a fault, or its first fault in the order of the passes.
fn faultless_index(alloc: Global, scene: &Scene) -> Result<Index, FieldFault>
    ensures found { Finds result (first_fault scene.now) }
    ensures index { IfOk result (IsIndexOf scene.now) }
{
    sizes(alloc, scene)?;
    references(alloc, scene)?;
    let index = Index::of(alloc, scene)?;
    overlaps(alloc, scene, &index)?;
    let top = Path::root(alloc);
    let parents = parents_of(alloc, scene.sheets.items())?;
    let nested = links_of(alloc, scene.sheets.items())?;
    peg_cycles(alloc, &parents, &top)?;
    node_cycles(alloc, scene, &top)?;
    sheet_cycles(alloc, &nested, &top)?;
    long_chains(alloc, &parents, &nested, &top)?;
    Ok(index)
}

/// The checked scene, or its first fault in the order of the passes: TooMany where a list is too long;
/// NoSuchReference where a number names nothing; Overlap where something stands where an earlier thing
/// stands; PegCycle, NodeCycle and SheetCycle for what leads back to itself; TooMany where a chain of
/// pegs or of nested sheets is too long. A refused scene is dropped.
pub fn check(alloc: Global, s: Scene) -> Result<GoodScene, FieldFault>
    ensures checked { Finds result (first_fault s) }
    ensures same { IfOk result (λ g. g ≡ s) }
{
    let index = faultless_index(alloc, &s)?;
    // The ranges that the types of the scene keep; no pass goes over every style and name.
    s.in_range();
    scenes_without_a_fault_are_good();
    let numbers = numbers_of(alloc, s.levels.items())?;
    Ok(GoodScene {
        scene: s,
        index,
        numbers,
    })
}

impl GoodScene {
    ghost use Rattle.std.specs.Prelude.{◌≡◌, ◌<◌, ℕ, length};
    ghost use Rattle.xs_scene.specs.declared.node.Ref.TheVariants.{Node as ToNode};
    ghost use Rattle.xs_meaning.specs.Ends.{NodesEnd};
    ghost use Rattle.xs_meaning.specs.Walk.{sheet_at};
    ghost use Rattle.xs_check.specs.Good.{IsGood, IsGoodSheet};

    /// The scene.
    pub fn scene(&self) -> &Scene
        ensures value { result.now ≡ self.now }
        ensures good { IsGood self.now }
    {
        &self.scene
    }

    /// The scene again, unchecked. Takes no memory.
    pub fn into_scene(self) -> Scene
        ensures { result ≡ self }
    {
        self.scene
    }

    /// The sheet with a number.
    pub fn sheet(&self, k: u32) -> &Sheet
        requires { k < length self.now.sheets }
        ensures value { result.now ≡ sheet_at self.now.sheets k }
        ensures good { IsGoodSheet self.now result.now }
        ensures ends { (n : ℕ) → n < length result.now.nodes
            → NodesEnd result.now (length result.now.nodes) (ToNode n) }
    {
        let scene = &self.scene;
        &scene.sheets.items()[k as usize]
    }
}
