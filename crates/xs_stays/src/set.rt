ghost use Rattle.std.specs.Prelude.{◌≡◌, ℕ, ◌+◌, ◌≤◌, ◌&&◌, ◌||◌, [], false, not, IfOk, length, map, take};
ghost use Rattle.std.specs.List.{range_with_len};
ghost use Rattle.xs_base.specs.declared.limits.TheConstants.{STYLE_NUMBERS};
ghost use Rattle.xs_meaning.specs.Palettes.{is_clear_pixel};
ghost use Rattle.xs_palette.specs.Styles.{style_of};
ghost use Rattle.xs_pixel.specs.Channels.{clear};
ghost use Rattle.xs_tint.specs.Filters.{dropped_by};
ghost use Rattle.xs_stays.specs.Sets.{styles_in, up_to_last};

use std::alloc::{AllocError, Global};
use std::hash::{Hash, Hasher};
use std::marker::Model;
use xs_base::Memory;
use xs_base::limits::STYLE_NUMBERS;
use xs_palette::Palette;
use xs_pixel::Pixel;
use xs_tint::Dropped;

/// A set of styles. Contracts see it as one flag for each style from 0 on, up to the last that is in it.
#[derive(Debug, Drop)]
pub struct StyleSet {
    flags: Vec<bool>,
}

impl Model for StyleSet {
    ghost use Rattle.std.specs.Prelude.{◌≤◌, List, Bool, length};
    ghost use Rattle.xs_base.specs.declared.limits.TheConstants.{STYLE_NUMBERS};
    ghost use Rattle.xs_stays.specs.Sets.{IsShort};

    ghost Value = { List Bool };

    ghost view = { λ s. s.flags.items };

    ghost invariant = { λ s. (length s.flags.items ≤ STYLE_NUMBERS) × IsShort s.flags.items };
}

/// Two are equal where they have the same styles.
impl PartialEq for StyleSet {
    ghost use Rattle.std.specs.Bool.{beq};
    ghost use Rattle.std.specs.Cmp.Lexicographic.{pointwise};
    ghost use Rattle.std.specs.Cmp.Rules.{comparing};
    ghost use Rattle.std.proofs.Common.{rules};

    ghost eq = { pointwise beq };

    ghost laws = { Prim.search (comparing, rules) };

    fn eq(&self, other: &StyleSet) -> bool {
        self.flags == other.flags
    }
}

impl Eq for StyleSet {
    ghost use Rattle.std.specs.Cmp.Rules.{comparing};
    ghost use Rattle.std.proofs.Common.{rules};

    ghost laws = { Prim.search (comparing, rules) };
}

impl Hash for StyleSet {
    ghost use Rattle.std.specs.Hash as fed;
    ghost use Rattle.std.specs.Cmp.{booleans_Decides};

    ghost hash_input = { fed.slice fed.bool };

    ghost respects_eq = { (fed.items_Alike (fed.same_Alike fed.bool booleans_Decides)).fed };

    fn hash<H: Hasher>(&self, state: &mut H) {
        self.flags.hash(state);
    }
}

impl StyleSet {
    /// No style.
    pub fn empty(alloc: Global) -> StyleSet
        ensures { result ≡ [] }
    {
        StyleSet {
            flags: Vec::new(alloc),
        }
    }

    /// The styles whose flag is set.
    fn of(mut flags: Vec<bool>) -> StyleSet
        requires { length flags.items ≤ STYLE_NUMBERS }
        ensures { result ≡ up_to_last flags.items }
    {
        let len = shown_len(&flags);
        flags.truncate(len);
        StyleSet { flags }
    }

    /// How many flags the set has.
    fn len(&self) -> u32
        ensures len { result ≡ length self.now }
        ensures few { length self.now ≤ STYLE_NUMBERS }
    {
        self.flags.len() as u32
    }

    /// The styles of a palette that are not clear.
    pub fn unclear(alloc: Global, p: &Palette) -> Result<StyleSet, Memory>
        ensures { IfOk result (λ s. styles_in s ≡ (λ style. not (is_clear_pixel (style_of p.now style)))) }
    {
        let count = styles_before_last(p);
        let flags = unclear_flags(alloc, p, count)?;
        Ok(StyleSet::of(flags))
    }

    /// Whether a style is in the set.
    pub fn has(&self, id: u32) -> bool
        ensures { result ≡ styles_in self.now id }
    {
        let id = id as usize;
        id < self.flags.len() && self.flags[id]
    }

    /// The styles of both sets together.
    pub fn with(&self, alloc: Global, other: &StyleSet) -> Result<StyleSet, Memory>
        ensures { IfOk result (λ s. styles_in s ≡ (λ style. styles_in self.now style || styles_in other.now style)) }
    {
        let count = self.len().max(other.len());
        let flags = flags_of_either(alloc, self, other, count)?;
        Ok(StyleSet::of(flags))
    }

    /// The styles that are in both sets.
    pub fn within(&self, alloc: Global, other: &StyleSet) -> Result<StyleSet, Memory>
        ensures { IfOk result (λ s. styles_in s ≡ (λ style. styles_in self.now style && styles_in other.now style)) }
    {
        let count = self.len();
        let flags = flags_of_both(alloc, self, other, count)?;
        Ok(StyleSet::of(flags))
    }

    /// The styles that are not dropped.
    pub fn less(&self, alloc: Global, f: &Dropped) -> Result<StyleSet, Memory>
        ensures { IfOk result (λ s. styles_in s ≡ (λ style. styles_in self.now style && not (dropped_by f.now style))) }
    {
        let count = self.len();
        let flags = flags_not_dropped(alloc, self, f, count)?;
        Ok(StyleSet::of(flags))
    }

    /// The styles that are dropped.
    pub fn dropped(&self, alloc: Global, f: &Dropped) -> Result<StyleSet, Memory>
        ensures { IfOk result (λ s. styles_in s ≡ (λ style. styles_in self.now style && dropped_by f.now style)) }
    {
        let count = self.len();
        let flags = flags_dropped(alloc, self, f, count)?;
        Ok(StyleSet::of(flags))
    }

    /// The set as styles that are dropped.
    pub fn as_dropped(&self, alloc: Global) -> Result<Dropped, Memory>
        ensures { IfOk result (λ d. dropped_by d ≡ styles_in self.now) }
    {
        let flags = Vec::from_slice(alloc, self.flags.as_slice())?;
        Ok(Dropped::of(flags))
    }
}

/// How many flags there are up to the last one that is set.
fn shown_len(flags: &[bool]) -> usize
    ensures few { result ≤ length flags.now }
    ensures shown { take result flags.now ≡ up_to_last flags.now }
{
    let mut len = flags.len();
    while 0 < len {
        if flags[len - 1] {
            return len;
        }
        len -= 1;
    }
    len
}

/// Whether a pixel is not clear.
pub(crate) fn is_unclear(pixel: Pixel) -> bool
    ensures { result ≡ not (is_clear_pixel pixel) }
{
    !(pixel.r() == 0 && pixel.g() == 0 && pixel.b() == 0 && pixel.m() == 0)
}

/// How many styles a palette has before its last pixel, which stands for all styles past them.
fn styles_before_last(p: &Palette) -> u32
    ensures count { result + 1 ≡ length p.now }
    ensures few { result ≤ STYLE_NUMBERS }
    ensures past { (id : ℕ) → result ≤ id → style_of p.now id ≡ clear }
{
    (p.table().len() / 4 - 1) as u32
}

/// For each of a palette's first styles whether it is not clear.
fn unclear_flags(alloc: Global, p: &Palette, count: u32) -> Result<Vec<bool>, AllocError>
    ensures { IfOk result (λ v. v.items
        ≡ map (λ id. not (is_clear_pixel (style_of p.now id))) (range_with_len 0 count)) }
{
    (0..count).map(|id| is_unclear(p.style(id))).collect(alloc)
}

/// For each of the first styles whether it is in either of two sets.
fn flags_of_either(
    alloc: Global,
    a: &StyleSet,
    b: &StyleSet,
    count: u32,
) -> Result<Vec<bool>, AllocError>
    ensures { IfOk result (λ v. v.items
        ≡ map (λ id. styles_in a.now id || styles_in b.now id) (range_with_len 0 count)) }
{
    (0..count).map(|id| a.has(id) || b.has(id)).collect(alloc)
}

/// For each of the first styles whether it is in both of two sets.
fn flags_of_both(
    alloc: Global,
    a: &StyleSet,
    b: &StyleSet,
    count: u32,
) -> Result<Vec<bool>, AllocError>
    ensures { IfOk result (λ v. v.items
        ≡ map (λ id. styles_in a.now id && styles_in b.now id) (range_with_len 0 count)) }
{
    (0..count).map(|id| a.has(id) && b.has(id)).collect(alloc)
}

/// For each of the first styles whether it is in a set and not dropped.
fn flags_not_dropped(
    alloc: Global,
    a: &StyleSet,
    f: &Dropped,
    count: u32,
) -> Result<Vec<bool>, AllocError>
    ensures { IfOk result (λ v. v.items
        ≡ map (λ id. styles_in a.now id && not (dropped_by f.now id)) (range_with_len 0 count)) }
{
    (0..count).map(|id| a.has(id) && !f.has(id)).collect(alloc)
}

/// For each of the first styles whether it is in a set and dropped.
fn flags_dropped(
    alloc: Global,
    a: &StyleSet,
    f: &Dropped,
    count: u32,
) -> Result<Vec<bool>, AllocError>
    ensures { IfOk result (λ v. v.items
        ≡ map (λ id. styles_in a.now id && dropped_by f.now id) (range_with_len 0 count)) }
{
    (0..count).map(|id| a.has(id) && f.has(id)).collect(alloc)
}
