ghost use Rattle.std.specs.Prelude.{◌≡◌, ℕ, ◌<◌, ◌↔◌, Option, None, Some, length, replicate, IfOk, IfSome, IsNone, IsSome, slice_get, slice_set};
ghost use Rattle.xs_rawfile.specs.Held.{Held, held, IsHeld, HasItsPalette, drawing_in, slot_in, picture_of};
ghost use Rattle.xs_pixel.specs.Picture.{Picture, pixel_at};

use crate::drawing::Drawing;
use crate::shown::pixel_under;
use std::alloc::Global;
use std::marker::{Model, PhantomData};
use xs_base::{List, Memory, crosses_threads};
use xs_palette::Palette;
use xs_pixel::{Film, Pixel};

/// The drawings of a render that are held in memory, by number, and the palettes under which CM32
/// drawings are seen. Where the film tells its pictures, each drawing that is held is its picture.
#[derive(Drop)]
pub struct Drawings<K: Film> {
    slots: Vec<Option<(Drawing, Option<u32>)>>,
    palettes: List<Palette>,
    film: PhantomData<K>,
}

impl<K: Film> Model for Drawings<K> {
    ghost use Rattle.xs_rawfile.specs.Held.{Held, held, IsHeld};

    ghost Value = { Held };

    ghost view = { λ d. held d.slots.items d.palettes };

    ghost invariant = { λ d. IsHeld K.pictures (held d.slots.items d.palettes) };
}

impl<K: Film> Drawings<K> {
    /// Room for so many drawings, of which none is held yet.
    pub fn new(alloc: Global, count: u32, palettes: List<Palette>) -> Result<Drawings<K>, Memory>
        ensures { IfOk result (λ d. d ≡ held (replicate count None) palettes) }
    {
        let mut slots = Vec::with_capacity(alloc, count as usize)?;
        for _slot in 0..count {
            slots.push_reserved(None);
        }
        Ok(Drawings {
            slots,
            palettes,
            film: PhantomData,
        })
    }

    /// Holds a drawing under its number, with the number of its palette; a CM32 drawing needs one.
    pub fn set(&mut self, d: u32, g: Drawing, palette: Option<u32>)
        requires number { d < length self.old.slots }
        requires palette { HasItsPalette self.old.palettes g.kind palette }
        requires film { (pictures : ℕ → Option Picture) → K.pictures ≡ Some pictures → pictures d ≡ Some (picture_of self.old.palettes g palette) }
        ensures { self.new ≡ held (slice_set self.old.slots d (Some (g, palette))) self.old.palettes }
    {
        // That its bytes can be lent says that the drawing is one that a file may hold.
        g.bytes();
        self.slots[d as usize] = Some((g, palette));
    }

    /// Lets a drawing go.
    pub fn remove(&mut self, d: u32)
        requires { d < length self.old.slots }
        ensures { self.new ≡ held (slice_set self.old.slots d None) self.old.palettes }
    {
        self.slots[d as usize] = None;
    }

    /// The drawing with this number; None exactly where none is held, as past the last number.
    pub fn get(&self, d: u32) -> Option<&Drawing>
        ensures none { IsNone result ↔ (drawing_in self.now d ≡ None) }
        ensures value { IfSome result (λ g. drawing_in self.now d ≡ Some g.now) }
    {
        match self.slots.get(d as usize) {
            Some(Some((drawing, _))) => Some(drawing),
            _ => None,
        }
    }

    /// What is held: drawings of files, each with a palette where it needs one, and each its picture
    /// where the film tells its pictures.
    pub fn hold_their_pictures(&self)
        ensures { IsHeld K.pictures self.now }
    {
        // To look at a field brings what all drawings that are held keep.
        let _slots = &self.slots;
    }

    /// The pixel of a drawing's picture at a point, clear beyond its box.
    pub fn pixel(&self, d: u32, x: i32, y: i32) -> Pixel
        requires { IsSome (slot_in self.now d) }
        ensures { IfSome (slot_in self.now d) (λ slot. result ≡ pixel_at (picture_of self.now.palettes slot.0 slot.1) x y) }
    {
        match &self.slots[d as usize] {
            Some((drawing, number)) => pixel_under(drawing, self.palettes.items(), *number, x, y),
            None => Pixel::CLEAR,
        }
    }

    /// The palette under which a drawing is held; None exactly where it was set with none.
    pub fn palette(&self, d: u32) -> Option<&Palette>
        requires { IsSome (slot_in self.now d) }
        ensures none { IfSome (slot_in self.now d) (λ slot. IsNone result ↔ (slot.1 ≡ None)) }
        ensures value { IfSome result (λ p. IfSome (slot_in self.now d) (λ slot. IfSome slot.1 (λ n. slice_get self.now.palettes n ≡ Some p.now))) }
    {
        match &self.slots[d as usize] {
            Some((_, number)) => named(self.palettes.items(), *number),
            None => None,
        }
    }
}

/// The palette with this number, if there is one.
fn named(palettes: &[Palette], number: Option<u32>) -> Option<&Palette>
    requires { IfSome number (λ n. n < length palettes.now) }
    ensures none { IsNone result ↔ (number ≡ None) }
    ensures value { IfSome result (λ p. IfSome number (λ n. slice_get palettes.now n ≡ Some p.now)) }
{
    match number {
        Some(n) => Some(&palettes[n as usize]),
        None => None,
    }
}

/// Drawings may be sent to another thread, and shared with it, where their film may.
pub fn drawings_cross_threads<K: Film + Send + Sync>() {
    crosses_threads::<Drawing>();
    crosses_threads::<Drawings<K>>();
}
