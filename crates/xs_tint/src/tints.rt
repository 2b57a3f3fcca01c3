ghost use Rattle.std.specs.Prelude.{◌≡◌, ◌≢◌, ◌<◌, ◌≤◌, ◌++◌, [], ◌∷◌, Some, Contains, AllPairs, IfOk, OnErr, MatchOption, map, length, slice_get};
ghost use Rattle.std.specs.List.{range_with_len};
ghost use Rattle.xs_palette.specs.Styles.{style_of};
ghost use Rattle.xs_tint.specs.Tints.{tint_of};

use indexmap::IndexMap;
use std::alloc::{AllocError, Global};
use std::marker::Model;
use xs_base::Memory;
use xs_palette::Palette;
use xs_pixel::Pixel;

/// The palettes of a render that give their styles other pixels than written, each with one number.
/// Contracts see it as the list of their tints, which differ.
#[derive(Debug, Drop)]
pub struct Tints {
    // each palette under the pixels of its tint, in the order of the numbers
    palettes: IndexMap<Vec<Pixel>, Palette>,
    alloc: Global,
}

impl Model for Tints {
    ghost use Rattle.std.specs.Prelude.{List, map, ◌≢◌, ◌<◌, ◌^◌, length, AllPairs};
    ghost use Rattle.indexmap.specs.IndexMap.{values};
    ghost use Rattle.xs_pixel.specs.Channels.{Channels};
    ghost use Rattle.xs_tint.specs.Tints.{tint_of, AreUnderTints};

    ghost Value = { List (List Channels) };

    ghost view = { λ t. map tint_of (values t.palettes) };

    ghost invariant = { λ t. AreUnderTints t.palettes.entries (λ k. k.items)
        × AllPairs (λ a b. a ≢ b) (map tint_of (values t.palettes)) × (length (values t.palettes) < 2 ^ 32) };
}

impl Tints {
    /// No palette.
    pub fn new(alloc: Global) -> Result<Tints, Memory>
        ensures { IfOk result (λ t. t ≡ []) }
    {
        Ok(Tints {
            palettes: IndexMap::new(alloc),
            alloc,
        })
    }

    /// The number of a palette: that of the one which gives every style the same pixel, or else the next
    /// number, from 0.
    pub fn intern(&mut self, p: Palette) -> Result<u32, Memory>
        ensures number { IfOk result (λ t. slice_get self.new t ≡ Some (tint_of p)) }
        ensures known { IfOk result (λ t. t < length self.old → self.new ≡ self.old) }
        ensures next { IfOk result (λ t. length self.old ≤ t → self.new ≡ self.old ++ tint_of p ∷ []) }
        ensures differ { AllPairs (λ a b. a ≢ b) self.new }
        ensures err { OnErr result (self.new ≡ self.old) }
    {
        let tint = tint_pixels(self.alloc, &p)?;
        match self.find(&tint) {
            Some(number) => Ok(number),
            None => self.add(tint, p),
        }
    }

    /// How many palettes there are.
    pub fn len(&self) -> u32
        ensures { result ≡ length self.now }
    {
        self.palettes.len() as u32
    }

    /// The palette with a number.
    pub fn palette(&self, t: u32) -> &Palette
        requires { t < length self.now }
        ensures { slice_get self.now t ≡ Some (tint_of result.now) }
    {
        &self.palettes[t as usize]
    }

    /// The number of the palette with a tint.
    fn find(&self, tint: &Vec<Pixel>) -> Option<u32>
        ensures found { MatchOption result (Contains self.now tint.now.items → ⊥) (λ t. slice_get self.now t ≡ Some tint.now.items) }
        ensures differ { AllPairs (λ a b. a ≢ b) self.now }
    {
        match self.palettes.get_index_of(tint) {
            Some(number) => Some(number as u32),
            None => None,
        }
    }

    /// Gives a palette that is new the next number.
    fn add(&mut self, tint: Vec<Pixel>, p: Palette) -> Result<u32, Memory>
        requires own { tint.items ≡ tint_of p }
        requires fresh { Contains self.old (tint_of p) → ⊥ }
        ensures number { IfOk result (λ t. slice_get self.new t ≡ Some (tint_of p)) }
        ensures next { IfOk result (λ t. t ≡ length self.old) }
        ensures added { IfOk result (λ t. self.new ≡ self.old ++ tint_of p ∷ []) }
        ensures differ { AllPairs (λ a b. a ≢ b) self.new }
        ensures err { OnErr result (self.new ≡ self.old) }
    {
        let number = self.palettes.len();
        if number >= u32::MAX as usize {
            return Err(Memory);
        }
        match self.palettes.insert(tint, p) {
            Ok(_) => Ok(number as u32),
            Err(_) => Err(Memory),
        }
    }
}

/// How many styles a palette has up to its last that is not clear.
fn styles_shown(p: &Palette) -> u32
    ensures { map (style_of p.now) (range_with_len 0 result) ≡ tint_of p.now }
{
    let mut count = (p.table().len() / 4) as u32;
    while count > 0 {
        if p.style(count - 1) != Pixel::CLEAR {
            return count;
        }
        count -= 1;
    }
    count
}

/// The pixels of a palette's first styles.
fn first_pixels(alloc: Global, p: &Palette, count: u32) -> Result<Vec<Pixel>, AllocError>
    ensures { IfOk result (λ pixels. pixels.items ≡ map (style_of p.now) (range_with_len 0 count)) }
{
    (0..count).map(|id| p.style(id)).collect(alloc)
}

/// The pixels of a palette's tint.
fn tint_pixels(alloc: Global, p: &Palette) -> Result<Vec<Pixel>, AllocError>
    ensures { IfOk result (λ tint. tint.items ≡ tint_of p.now) }
{
    first_pixels(alloc, p, styles_shown(p))
}
