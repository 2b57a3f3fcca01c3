use std::alloc::Global;
use xs_check::GoodScene;

/// What a row is entered from: its scene, the names of the drawings, and how many expressions there may be.
#[derive(Clone, Copy)]
pub(crate) struct Scope<'a> {
    pub(crate) alloc: Global,
    pub(crate) scene: &'a GoodScene,
    pub(crate) names: &'a [u32],
    pub(crate) most: u32,
}
