//! The printed line of an alias.

ghost use Rattle.std.specs.Prelude.{◌≡◌, ◌<◌, ◌≤◌, ◌+◌, ◌++◌, [], IfOk, codes, decimal, length};
ghost use Rattle.xs_scene_text.specs.SceneData.{op_word};
ghost use Rattle.xs_plan.specs.Record.{entry_at};
ghost use Rattle.xs_plan.specs.Values.{input_at};
ghost use Rattle.xs_lines.specs.Lines.{alias_line, drawing_text, pixel_text, job_text, rect_text};
ghost use Rattle.xs_lines.specs.Parts.{head_text, tail_text};

use crate::buffer::{LONGEST_LINE, LineBuffer};
use std::alloc::Global;
use xs_base::Memory;
use xs_pixel::{Op, Pixel};
use xs_plan::{Job, Plan};
use xs_rect::Rect;
use xs_scene_text::op_word;

/// No tail of a line, which tells the rectangle and the readers, has more bytes.
pub(crate) const LONGEST_TAIL: usize = 80;

/// No job has more bytes.
const LONGEST_JOB: usize = 60;

/// The line of an alias without its end: `K: JOB; tile X Y W H; readers N`. A job is `clear`, `leaf D at DX DY`,
/// `tinted D at DX DY by T`, `card R G B M`, the word of an operation with its two inputs, or `blur N A`.
pub fn alias_text(alloc: Global, p: &Plan, k: u32) -> Result<Vec<u8>, Memory>
    requires { k < length p.now.entries }
    ensures { IfOk result (λ line. line.items ≡ alias_line p.now k) }
{
    let mut line = LineBuffer::new();
    put_tail(&mut line, p, k);
    put_head(&mut line, p, k);
    let text = Vec::from_slice(alloc, line.bytes())?;
    Ok(text)
}

/// Puts the tail of the line of an alias: its rectangle, and how often it is read.
#[tactic(auto, unfolding(crate::specs::Parts::tail_text))]
pub(crate) fn put_tail(line: &mut LineBuffer, p: &Plan, k: u32)
    requires there { k < length p.now.entries }
    requires empty { line.old ≡ [] }
    ensures text { line.new ≡ tail_text p.now k }
    ensures len { length line.new ≤ LONGEST_TAIL }
{
    line.put_number(p.readers(k));
    line.put_text("; readers ");
    put_rect(line, p.rect(k));
    line.put_text("; tile ");
}

/// Puts the head of the line of an alias, its number and its job, in front of a tail.
#[tactic(auto, unfolding(crate::specs::Parts::head_text))]
pub(crate) fn put_head(line: &mut LineBuffer, p: &Plan, k: u32)
    requires there { k < length p.now.entries }
    requires room { length line.old ≤ LONGEST_TAIL }
    ensures text { line.new ≡ head_text p.now k ++ line.old }
    ensures len { length line.new < LONGEST_LINE }
{
    put_job(line, p.job(k), input(p, k, 0), input(p, k, 1));
    line.put_text(": ");
    line.put_number(k);
}

/// The alias that an alias reads at a port, and 0 where it has none.
fn input(p: &Plan, k: u32, port: u32) -> u32
    requires { k < length p.now.entries }
    ensures { result ≡ input_at (entry_at p.now.entries k).inputs port }
{
    p.input(k, port).unwrap_or(0)
}

/// Puts a job, with the numbers of the aliases that it reads at ports 0 and 1.
fn put_job(line: &mut LineBuffer, job: Job, first: u32, second: u32)
    requires { LONGEST_JOB + length line.old ≤ LONGEST_LINE }
    ensures text { line.new ≡ job_text job first second ++ line.old }
    ensures len { length line.new ≤ LONGEST_JOB + length line.old }
{
    match job {
        Job::Clear => line.put_text("clear"),
        Job::Leaf { drawing, dx, dy } => put_leaf(line, drawing, dx, dy),
        Job::Tinted {
            drawing,
            dx,
            dy,
            tint,
        } => put_tinted(line, drawing, dx, dy, tint),
        Job::Card(pixel) => put_card(line, pixel),
        Job::Pair(op) => put_pair(line, op, first, second),
        Job::Blur(radius) => put_blur(line, radius, first),
    }
}

fn put_leaf(line: &mut LineBuffer, drawing: u32, dx: i32, dy: i32)
    requires { LONGEST_JOB + length line.old ≤ LONGEST_LINE }
    ensures text { line.new ≡ (codes "leaf " ++ drawing_text drawing dx dy) ++ line.old }
    ensures len { length line.new ≤ LONGEST_JOB + length line.old }
{
    put_drawing(line, drawing, dx, dy);
    line.put_text("leaf ");
}

fn put_tinted(line: &mut LineBuffer, drawing: u32, dx: i32, dy: i32, tint: u32)
    requires { LONGEST_JOB + length line.old ≤ LONGEST_LINE }
    ensures text { line.new
        ≡ (codes "tinted " ++ drawing_text drawing dx dy ++ codes " by " ++ decimal tint) ++ line.old }
    ensures len { length line.new ≤ LONGEST_JOB + length line.old }
{
    line.put_number(tint);
    line.put_text(" by ");
    put_drawing(line, drawing, dx, dy);
    line.put_text("tinted ");
}

fn put_card(line: &mut LineBuffer, pixel: Pixel)
    requires { LONGEST_JOB + length line.old ≤ LONGEST_LINE }
    ensures text { line.new ≡ (codes "card " ++ pixel_text pixel) ++ line.old }
    ensures len { length line.new ≤ LONGEST_JOB + length line.old }
{
    line.put_number(pixel.m() as u32);
    put_before(line, pixel.b() as u32);
    put_before(line, pixel.g() as u32);
    put_before(line, pixel.r() as u32);
    line.put_text("card ");
}

fn put_pair(line: &mut LineBuffer, op: Op, first: u32, second: u32)
    requires { LONGEST_JOB + length line.old ≤ LONGEST_LINE }
    ensures text { line.new
        ≡ (op_word op ++ codes " " ++ decimal first ++ codes " " ++ decimal second) ++ line.old }
    ensures len { length line.new ≤ LONGEST_JOB + length line.old }
{
    line.put_number(second);
    put_before(line, first);
    line.put_text(" ");
    line.put_text(op_word(op));
}

fn put_blur(line: &mut LineBuffer, radius: u32, input: u32)
    requires { LONGEST_JOB + length line.old ≤ LONGEST_LINE }
    ensures text { line.new ≡ (codes "blur " ++ decimal radius ++ codes " " ++ decimal input) ++ line.old }
    ensures len { length line.new ≤ LONGEST_JOB + length line.old }
{
    line.put_number(input);
    put_before(line, radius);
    line.put_text("blur ");
}

/// Puts a drawing and its offset.
fn put_drawing(line: &mut LineBuffer, drawing: u32, dx: i32, dy: i32)
    requires { 37 + length line.old ≤ LONGEST_LINE }
    ensures text { line.new ≡ drawing_text drawing dx dy ++ line.old }
    ensures len { length line.new ≤ 37 + length line.old }
{
    line.put_signed(dy);
    line.put_text(" ");
    line.put_signed(dx);
    line.put_text(" at ");
    line.put_number(drawing);
}

/// Puts a rectangle: its corner and its sides.
fn put_rect(line: &mut LineBuffer, rect: Rect)
    requires { 45 + length line.old ≤ LONGEST_LINE }
    ensures text { line.new ≡ rect_text rect ++ line.old }
    ensures len { length line.new ≤ 45 + length line.old }
{
    line.put_number(rect.h());
    put_before(line, rect.w());
    line.put_text(" ");
    line.put_signed(rect.y());
    line.put_text(" ");
    line.put_signed(rect.x());
}

/// Puts a number and a space behind it.
fn put_before(line: &mut LineBuffer, n: u32)
    requires { 11 + length line.old ≤ LONGEST_LINE }
    ensures text { line.new ≡ (decimal n ++ codes " ") ++ line.old }
    ensures len { length line.new ≤ 11 + length line.old }
{
    line.put_text(" ");
    line.put_number(n);
}
