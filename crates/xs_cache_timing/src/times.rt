use std::rt::Clock;

/// How long the calls of seats took, in nanoseconds; how many aliases and how many reads they were for; and how many
/// tiles were let go.
#[derive(Clone, Copy, Debug, PartialEq, Eq)]
pub struct Times {
    pub aliases: u32,
    pub reads: u32,
    pub claim: u128,
    pub finish: u128,
    pub read: u128,
    pub retire: u128,
    pub let_go: u32,
}

impl Times {
    /// The times of seats that were at work at once: of each call the longest time, and the counts of both.
    pub fn beside(self, other: Times) -> Times {
        Times {
            aliases: self.aliases.saturating_add(other.aliases),
            reads: self.reads.saturating_add(other.reads),
            claim: self.claim.max(other.claim),
            finish: self.finish.max(other.finish),
            read: self.read.max(other.read),
            retire: self.retire.max(other.retire),
            let_go: self.let_go.saturating_add(other.let_go),
        }
    }

    /// The lesser time of each call in two runs of the same work, and the counts of this one.
    pub fn least(self, other: Times) -> Times {
        Times {
            claim: self.claim.min(other.claim),
            finish: self.finish.min(other.finish),
            read: self.read.min(other.read),
            retire: self.retire.min(other.retire),
            ..self
        }
    }
}

/// What a clock that never goes back shows, in nanoseconds; 0 where it can't be read.
pub(crate) fn now(rt: &impl Clock) -> u128 {
    match rt.monotonic() {
        Ok(time) => time.as_nanos(),
        Err(_) => 0,
    }
}
