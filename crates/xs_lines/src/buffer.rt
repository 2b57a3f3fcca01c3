//! A line that is written from its end.

ghost use Rattle.std.specs.Prelude.{◌≡◌, ◌+◌, ◌-◌, ◌≤◌, ◌++◌, [], decimal, drop, length};
ghost use Rattle.std.specs.Fmt.{signed_decimal};

use itoa::write_digits;
use std::marker::Model;

/// No line has more bytes, even behind the end of the line before.
pub(crate) const LONGEST_LINE: usize = 160;

/// The back part of a line. It grows at its front: so digits are written where they stay, though it is not known before
/// how many there are. Contracts see its bytes.
#[derive(Drop)]
pub(crate) struct LineBuffer {
    bytes: [u8; LONGEST_LINE],
    /// Where what is written begins.
    start: usize,
}

impl Model for LineBuffer {
    ghost use Rattle.std.specs.Prelude.{◌≤◌, ℕ, List, drop};
    ghost use Rattle.xs_lines.specs.declared.buffer.TheConstants.{LONGEST_LINE};

    ghost Value = { List ℕ };

    ghost view = { λ b. drop b.start b.bytes };

    ghost invariant = { λ b. b.start ≤ LONGEST_LINE };
}

impl LineBuffer {
    /// Nothing is written.
    pub(crate) fn new() -> LineBuffer
        ensures { result ≡ [] }
    {
        LineBuffer {
            bytes: [0; LONGEST_LINE],
            start: LONGEST_LINE,
        }
    }

    /// Nothing is written again.
    pub(crate) fn clear(&mut self)
        ensures { self.new ≡ [] }
    {
        self.start = LONGEST_LINE;
    }

    /// Only so many bytes at the end stay written.
    pub(crate) fn keep_last(&mut self, n: usize)
        requires { n ≤ length self.old }
        ensures text { self.new ≡ drop (length self.old - n) self.old }
        ensures len { length self.new ≡ n }
    {
        self.start += self.len() - n;
    }

    /// How many bytes are written.
    pub(crate) fn len(&self) -> usize
        ensures { result ≡ length self.now }
    {
        LONGEST_LINE - self.start
    }

    /// What is written.
    pub(crate) fn bytes(&self) -> &[u8]
        ensures { result.now ≡ self.now }
    {
        &self.bytes[self.start..]
    }

    /// Puts a text in front.
    #[inline(always)]
    pub(crate) fn put_text(&mut self, text: &str)
        requires { length text.now + length self.old ≤ LONGEST_LINE }
        ensures text { self.new ≡ text.now ++ self.old }
        ensures len { length self.new ≤ length text.now + length self.old }
    {
        let start = self.start - text.len();
        self.bytes[start..self.start].copy_from_slice(text.as_bytes());
        self.start = start;
    }

    /// Puts a number in front.
    #[inline]
    pub(crate) fn put_number(&mut self, n: u32)
        requires { 10 + length self.old ≤ LONGEST_LINE }
        ensures text { self.new ≡ decimal n ++ self.old }
        ensures len { length self.new ≤ 10 + length self.old }
    {
        self.start = write_digits(n as u64, &mut self.bytes, self.start);
    }

    /// Puts a number with its sign, if it is below 0, in front.
    #[inline]
    pub(crate) fn put_signed(&mut self, n: i32)
        requires { 11 + length self.old ≤ LONGEST_LINE }
        ensures text { self.new ≡ signed_decimal n ++ self.old }
        ensures len { length self.new ≤ 11 + length self.old }
    {
        self.put_number(n.unsigned_abs());
        if n < 0 {
            self.put_text("-");
        }
    }
}
