//! The word of an alias, bit by bit.
ghost use Rattle.std.specs.Prelude.{◌≡◌, ◌≢◌, ◌<◌, ◌^◌, ◌/◌, ℕ, Bool, true, false};
ghost use Rattle.xs_core.specs.Counts.{one_if};
ghost use Rattle.xs_word_desk.specs.Words.{Shape, Unclaimed, Taken, GivenUp, Finished, encode, IsClaimAnswer, IsLookAnswer};

use xs_core::{Claim, Look};

/// The word of an alias that nobody has claimed.
pub(crate) const UNCLAIMED: u64 = 0;

/// The word of an alias that a seat has claimed and is at.
pub(crate) const TAKEN: u64 = 1;

/// The word of an alias that a seat has claimed and given up.
pub(crate) const GIVEN_UP: u64 = 2;

/// The bit of a finished word that says that a seat has the tile in turn.
pub(crate) const TURN: u64 = 4;

/// The bit of a finished word that says that the tile was let go after the last read.
pub(crate) const CLEARED: u64 = 8;

/// One open read, in a finished word.
pub(crate) const ONE_READ: u64 = 16;

/// The word of an alias that was finished just now, with so many readers.
pub(crate) fn finished(readers: u32) -> u64
    ensures { result ≡ encode (Finished false false readers) }
{
    readers as u64 * ONE_READ + 3
}

/// How many reads are open.
pub(crate) fn open_reads(word: u64) -> u64
    ensures { (turn cleared : Bool) (reads : ℕ)
        → word ≡ encode (Finished turn cleared reads) → result ≡ reads }
{
    word / ONE_READ
}

/// Whether a seat has the tile in turn.
pub(crate) fn is_in_turn(word: u64) -> bool
    ensures { (turn cleared : Bool) (reads : ℕ)
        → word ≡ encode (Finished turn cleared reads) → result ≡ turn }
{
    word / TURN % 2 == 1
}

/// What a seat is answered that claims an alias with this word.
pub(crate) fn claim_answer(word: u64) -> Claim
    ensures { (shape : Shape) → word ≡ encode shape → IsClaimAnswer shape result }
{
    match word {
        UNCLAIMED => Claim::Won,
        TAKEN => Claim::Busy,
        GIVEN_UP => Claim::Lost,
        _ => Claim::Ready,
    }
}

/// What a seat is answered that looks at an alias with this word.
pub(crate) fn look_answer(word: u64) -> Look
    ensures { (shape : Shape) → word ≡ encode shape → IsLookAnswer shape result }
{
    match word {
        UNCLAIMED => Look::Idle,
        TAKEN => Look::Busy,
        GIVEN_UP => Look::Lost,
        _ => Look::Ready,
    }
}
