ghost use Rattle.std.specs.Prelude.{◌≡◌, ℕ};
ghost use Rattle.std.specs.Io.{ReadsAtMost};
ghost use Rattle.std.specs.Io.KnownBytes.{ReadConsumes};
ghost use Rattle.std.specs.Io.Take.{take_inner};
ghost use Rattle.xs_host.specs.Opening.{CountsRead};

use std::io;
use std::io::{ErrorKind, Read, Take};

/// A reader that counts its faults.
pub(crate) trait CountsFaults {
    /// How many reads failed: a number below 2^64.
    ghost faults: { Self → ℕ };

    /// How many reads failed so far.
    fn faults_so_far(&self) -> u64
        ensures { result ≡ faults self.now };
}

/// A reader with a count of the reads of it that failed, which starts at 0 and stands still at
/// 2^64 - 1. A read that was interrupted is tried again and is no fault.
#[derive(Drop)]
pub(crate) struct Counted<R> {
    reader: R,
    faults: u64,
}

impl<R: Read> Counted<R> {
    /// This reader, with no fault yet.
    pub(crate) fn new(reader: R) -> Counted<R>
        ensures { result ≡ record { reader = reader; faults = 0 } }
    {
        Counted { reader, faults: 0 }
    }
}

impl<R: Read> CountsFaults for Counted<R> {
    ghost faults = { λ c. c.faults };

    fn faults_so_far(&self) -> u64 {
        self.faults
    }
}

impl<R: CountsFaults> CountsFaults for Take<R> {
    ghost faults = { λ front. R.faults (take_inner front) };

    fn faults_so_far(&self) -> u64 {
        self.get_ref().faults_so_far()
    }
}

impl<R: Read> Read for Counted<R> {
    ghost remaining = { λ c. R.remaining c.reader };

    fn read(&mut self, buffer: &mut [u8]) -> io::Result<usize>
        ensures bound { ReadsAtMost result buffer.new }
        ensures bytes { ReadConsumes (R.remaining self.old.reader) (R.remaining self.new.reader) result buffer.new }
        ensures counts { CountsRead self.old.faults self.new.faults result }
    {
        let answer = self.reader.read(buffer);
        if let Err(error) = &answer {
            if error.kind() != ErrorKind::Interrupted {
                self.faults = self.faults.saturating_add(1);
            }
        }
        answer
    }
}
