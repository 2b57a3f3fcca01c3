ghost use Rattle.std.specs.Prelude.{◌↔◌, IsTrue, IfOk};
ghost use Rattle.xs_meaning.specs.Expressions.{drawings_of, root_of};
ghost use Rattle.xs_direct.specs.Pictures.{AreHeld};

use std::alloc::Global;
use xs_base::Memory;
use xs_base::laws::each_number_is_taken_once;
use xs_check::GoodScene;
use xs_needs::row_drawings;
use xs_pixel::Film;
use xs_rawfile::Drawings;

/// Whether all drawings of a row's expression are held, so that its frame is that of the pictures.
pub fn are_drawings_held<K: Film>(
    alloc: Global,
    s: &GoodScene,
    drawings: &Drawings<K>,
    row: u32,
) -> Result<bool, Memory>
    ensures { IfOk result (λ held. IsTrue held ↔ AreHeld drawings.now (drawings_of (root_of s.now row))) }
{
    each_number_is_taken_once();
    let numbers = row_drawings(alloc, s, row)?;
    Ok(are_held(drawings, numbers.as_slice()))
}

/// Whether each of these drawings is held.
fn are_held<K: Film>(drawings: &Drawings<K>, numbers: &[u32]) -> bool
    ensures { IsTrue result ↔ AreHeld drawings.now numbers.now }
{
    for &number in numbers {
        if drawings.get(number).is_none() {
            return false;
        }
    }
    true
}
