ghost use Rattle.std.specs.Prelude.{◌≡◌, ℕ, ◌+◌, ◌*◌, ◌<◌, ◌≤◌, ◌^◌, List, length, drop, IfOk, IfErr, OnOk, None, Some, false};
ghost use Rattle.std.specs.Simd.Lanes.{Each1};
ghost use Rattle.xs_rawfile.specs.declared.drawing.RawKind.{RawKind as Kind};
ghost use Rattle.xs_rawfile.specs.Raw.{Raw, IsRaw};
ghost use Rattle.xs_rawfile.specs.Level.{Reports, level_bytes, raw_of, first_fault, number_at, lacks_magic, has_unknown_kind, has_other_kind, has_wrong_side, has_wrong_place, has_wrong_length};
ghost use Rattle.xs_rawfile.specs.Pixels.{unmultiplied_fault};

use crate::drawing::{Drawing, RawKind, is_place, is_side};
use crate::fault::{LevelCode, LevelFault};
use crate::premultiplied::first_unmultiplied;
use std::alloc::Global;
use xs_base::{List, Memory};

/// How many bytes of a file come before its pixels.
const HEADER: usize = 21;

/// The drawing that the bytes of a file hold, for a level of this kind, or their first fault. The
/// bytes are copied.
pub fn read_level(alloc: Global, bytes: &[u8], kind: RawKind) -> Result<Drawing, LevelFault>
    ensures accepted { OnOk result (first_fault kind bytes.now ≡ None) }
    ensures value { IfOk result (λ d. d ≡ raw_of kind bytes.now) }
    ensures fault { IfErr result (Reports (first_fault kind bytes.now)) }
{
    match fault_of(bytes, kind) {
        Some(code) => Err(LevelFault::Code(code)),
        None => {
            let copy = Vec::from_slice(alloc, bytes)?;
            Ok(fields_of(copy, kind))
        }
    }
}

/// The drawing that the bytes of a file hold, for a level of this kind, or their first fault. The
/// drawing keeps the bytes themselves, and no memory is asked for.
pub fn read_level_owned(bytes: Vec<u8>, kind: RawKind) -> Result<Drawing, LevelCode>
    ensures accepted { OnOk result (first_fault kind bytes.items ≡ None) }
    ensures value { IfOk result (λ d. d ≡ raw_of kind bytes.items) }
    ensures fault { IfErr result (λ code. first_fault kind bytes.items ≡ Some code) }
{
    match fault_of(bytes.as_slice(), kind) {
        Some(code) => Err(code),
        None => Ok(fields_of(bytes, kind)),
    }
}

/// The drawing that the bytes of a file without a fault hold.
fn fields_of(bytes: Vec<u8>, kind: RawKind) -> Drawing
    requires { first_fault kind bytes.items ≡ None }
    ensures { result ≡ raw_of kind bytes.items }
{
    let file = bytes.as_slice();
    holds_a_drawing(file, kind);
    let x0 = number_at(file, 5).cast_signed();
    let y0 = number_at(file, 9).cast_signed();
    let w = number_at(file, 13);
    let h = number_at(file, 17);
    let pixels = without_header(bytes);
    Drawing {
        x0,
        y0,
        w,
        h,
        kind,
        bytes: List::of(pixels),
    }
}

/// A file without a fault holds a drawing as a file may hold it. Nothing is done but to tell this to contracts.
fn holds_a_drawing(file: &[u8], kind: RawKind)
    requires { first_fault kind file.now ≡ None }
    ensures { IsRaw (raw_of kind file.now) }
{}

/// The bytes after the header, moved to the front of the memory that held the file.
fn without_header(mut bytes: Vec<u8>) -> Vec<u8>
    requires { HEADER ≤ length bytes.items }
    ensures { result.items ≡ drop HEADER bytes.items }
{
    drop(bytes.drain(..HEADER));
    bytes
}

/// The bytes of a drawing's file.
pub fn write_level(alloc: Global, d: &Drawing) -> Result<Vec<u8>, Memory>
    ensures { IfOk result (λ bytes. bytes.items ≡ level_bytes d.now) }
{
    let mut bytes = Vec::with_capacity(alloc, HEADER + d.bytes.items().len())?;
    bytes.extend_from_slice(b"XRL1")?;
    bytes.extend_from_slice(&[d.kind.byte()])?;
    bytes.extend_from_slice(&d.x0.cast_unsigned().to_le_bytes())?;
    bytes.extend_from_slice(&d.y0.cast_unsigned().to_le_bytes())?;
    bytes.extend_from_slice(&d.w.to_le_bytes())?;
    bytes.extend_from_slice(&d.h.to_le_bytes())?;
    bytes.extend_from_slice(d.bytes.items())?;
    Ok(bytes)
}

/// The format of level files: the file of each drawing has no fault and holds that drawing, and a
/// file without a fault is the file of the drawing that it holds.
pub fn level_format()
    ensures accepted { (d : Raw) → IsRaw d → first_fault d.kind (level_bytes d) ≡ None }
    ensures read_back { (d : Raw) → IsRaw d → raw_of d.kind (level_bytes d) ≡ d }
    ensures no_other { (kind : Kind) (bytes : List ℕ) → Each1 (λ b. b < 256) bytes → first_fault kind bytes ≡ None → level_bytes (raw_of kind bytes) ≡ bytes }
{}

/// The first fault of a file of a level of this kind.
#[tactic(auto, unfolding(crate::specs::Level::first_fault))]
fn fault_of(bytes: &[u8], kind: RawKind) -> Option<LevelCode>
    ensures { result ≡ first_fault kind bytes.now }
{
    if lacks_magic(bytes) {
        return Some(LevelCode::Magic);
    }
    if has_unknown_kind(bytes) {
        return Some(LevelCode::Kind);
    }
    if has_other_kind(bytes, kind) {
        return Some(LevelCode::KindDiffers);
    }
    if has_wrong_side(bytes) {
        return Some(LevelCode::Size);
    }
    if has_wrong_place(bytes) {
        return Some(LevelCode::Place);
    }
    if has_wrong_length(bytes) {
        return Some(LevelCode::Length);
    }
    unmultiplied_fault(pixel_bytes(bytes), kind)
}

/// The fault of the first pixel of which a colour exceeds the matte.
fn unmultiplied_fault(bytes: &[u8], kind: RawKind) -> Option<LevelCode>
    requires { length bytes.now < 2 ^ 32 }
    ensures { result ≡ unmultiplied_fault kind bytes.now }
{
    match kind {
        RawKind::Colour => match first_unmultiplied(bytes) {
            Some(pixel) => Some(LevelCode::NotPremultiplied(pixel as u32)),
            None => None,
        },
        RawKind::Cm32 => None,
    }
}

#[tactic(auto, unfolding(crate::specs::Level::lacks_magic))]
fn lacks_magic(bytes: &[u8]) -> bool
    ensures { result ≡ lacks_magic bytes.now }
{
    !bytes.starts_with(b"XRL1")
}

#[tactic(auto, unfolding(crate::specs::Level::has_unknown_kind))]
fn has_unknown_kind(bytes: &[u8]) -> bool
    ensures { result ≡ has_unknown_kind bytes.now }
{
    bytes.len() > 4 && bytes[4] > 1
}

#[tactic(auto, unfolding(crate::specs::Level::has_other_kind))]
fn has_other_kind(bytes: &[u8], kind: RawKind) -> bool
    ensures { result ≡ has_other_kind kind bytes.now }
{
    bytes.len() > 4 && bytes[4] != kind.byte()
}

#[tactic(auto, unfolding(crate::specs::Level::has_wrong_side))]
fn has_wrong_side(bytes: &[u8]) -> bool
    ensures { result ≡ has_wrong_side bytes.now }
{
    bytes.len() >= HEADER && !(is_side(number_at(bytes, 13)) && is_side(number_at(bytes, 17)))
}

#[tactic(auto, unfolding(crate::specs::Level::has_wrong_place))]
fn has_wrong_place(bytes: &[u8]) -> bool
    ensures { result ≡ has_wrong_place bytes.now }
{
    bytes.len() >= HEADER
        && !(is_place(number_at(bytes, 5).cast_signed())
            && is_place(number_at(bytes, 9).cast_signed()))
}

#[tactic(auto, unfolding(crate::specs::Level::has_wrong_side, crate::specs::Level::has_wrong_length))]
fn has_wrong_length(bytes: &[u8]) -> bool
    requires { has_wrong_side bytes.now ≡ false }
    ensures { result ≡ has_wrong_length bytes.now }
{
    if bytes.len() < HEADER {
        return true;
    }
    bytes.len() != HEADER + 4 * (number_at(bytes, 13) as usize * number_at(bytes, 17) as usize)
}

/// The bytes after the header.
fn pixel_bytes(bytes: &[u8]) -> &[u8]
    requires { HEADER ≤ length bytes.now }
    ensures { result.now ≡ drop HEADER bytes.now }
{
    &bytes[HEADER..]
}

/// The number of the four bytes from a place on, the lowest first.
fn number_at(bytes: &[u8], at: usize) -> u32
    requires { at + 4 ≤ length bytes.now }
    ensures { result ≡ number_at bytes.now at }
{
    u32::from_le_bytes([bytes[at], bytes[at + 1], bytes[at + 2], bytes[at + 3]])
}
