//! Many lines of aliases at a time.

ghost use Rattle.std.specs.Prelude.{◌≡◌, ◌<◌, ◌≤◌, ◌-◌, ◌++◌, ◌∷◌, [], IfOk, length};
ghost use Rattle.xs_lines.specs.Lines.{alias_line, alias_lines, with_ends};
ghost use Rattle.xs_lines.specs.Parts.{EndsWith, tail_text};

use crate::buffer::LineBuffer;
use crate::line::{LONGEST_TAIL, put_head, put_tail};
use xs_base::Memory;
use xs_plan::Plan;

/// How many bytes of lines are enough for one piece: behind them no further line is begun.
const PIECE_BYTES: usize = 262_144;

/// Fills a text with the lines of aliases from `from` on, in order, as many as make a piece of some 256 KiB or as there
/// are; each but the last has its end, `\n`. Answers the number of the alias behind them. What the text held is dropped,
/// its memory is used again.
pub fn fill_lines(text: &mut Vec<u8>, p: &Plan, from: u32) -> Result<u32, Memory>
    requires { from < length p.now.entries }
    ensures next { IfOk result (λ next. (from < next) × (next ≤ length p.now.entries)) }
    ensures lines { IfOk result (λ next. text.new.items ++ 10 ∷ [] ≡ with_ends (alias_lines p.now from (next - from))) }
{
    let aliases = p.aliases();
    let mut line = LineBuffer::new();
    put_tail(&mut line, p, from);
    let mut tail = line.len();
    put_head(&mut line, p, from);
    text.clear();
    text.extend_from_slice(line.bytes())?;
    let mut next = from + 1;
    while next < aliases && text.len() < PIECE_BYTES {
        tail = put_next(&mut line, tail, p, next);
        text.extend_from_slice(line.bytes())?;
        next += 1;
    }
    Ok(next)
}

/// Puts the line of an alias behind an end of a line, in place of the line of the alias before, whose tail has so many
/// bytes. Answers how long the new tail is.
fn put_next(line: &mut LineBuffer, tail: usize, p: &Plan, k: u32) -> usize
    requires there { k < length p.now.entries }
    requires later { 0 < k }
    requires short { tail ≤ LONGEST_TAIL }
    requires tail { EndsWith line.old tail (tail_text p.now (k - 1)) }
    ensures text { line.new ≡ 10 ∷ alias_line p.now k }
    ensures short { result ≤ LONGEST_TAIL }
    ensures tail { EndsWith line.new result (tail_text p.now k) }
{
    let tail = put_next_tail(line, tail, p, k);
    put_head(line, p, k);
    line.put_text("\n");
    tail
}

/// Leaves of the line of the alias before only its tail, of so many bytes, if this alias has the same, or puts that of
/// this one in its place. Answers how long it is.
fn put_next_tail(line: &mut LineBuffer, tail: usize, p: &Plan, k: u32) -> usize
    requires there { k < length p.now.entries }
    requires later { 0 < k }
    requires short { tail ≤ LONGEST_TAIL }
    requires tail { EndsWith line.old tail (tail_text p.now (k - 1)) }
    ensures text { line.new ≡ tail_text p.now k }
    ensures len { result ≡ length line.new }
    ensures short { result ≤ LONGEST_TAIL }
{
    if p.rect(k) == p.rect(k - 1) && p.readers(k) == p.readers(k - 1) {
        line.keep_last(tail);
    } else {
        line.clear();
        put_tail(line, p, k);
    }
    line.len()
}
