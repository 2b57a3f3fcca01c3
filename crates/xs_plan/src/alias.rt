ghost use Rattle.std.specs.Prelude.{◌≡◌, ◌≤◌, None, length, slice_get};
ghost use Rattle.xs_plan.specs.Record.{inputs_from};

use crate::job::Job;
use std::marker::Model;
use xs_rect::Rect;

/// An alias: what it is made of, its rectangle, and the numbers of the aliases that it reads.
#[derive(Debug, Drop)]
pub(crate) struct Alias {
    job: Job,
    rect: Rect,
    first: Option<u32>,
    second: Option<u32>,
}

impl Model for Alias {
    ghost use Rattle.std.specs.Prelude.{◌≡◌, None};
    ghost use Rattle.xs_plan.specs.Record.{Entry, inputs_from};

    ghost Value = { Entry };

    ghost view = { λ a. record { job = a.job; rect = a.rect; inputs = inputs_from a.first a.second } };

    ghost invariant = { λ a. a.first ≡ None → a.second ≡ None };
}

impl Alias {
    /// The alias that reads these aliases, `first` at port 0 and `second` at port 1.
    pub(crate) fn new(job: Job, rect: Rect, first: Option<u32>, second: Option<u32>) -> Alias
        requires { first ≡ None → second ≡ None }
        ensures { result ≡ record { job = job; rect = rect; inputs = inputs_from first second } }
    {
        Alias {
            job,
            rect,
            first,
            second,
        }
    }

    pub(crate) fn job(&self) -> Job
        ensures { result ≡ self.now.job }
    {
        self.job
    }

    pub(crate) fn rect(&self) -> Rect
        ensures { result ≡ self.now.rect }
    {
        self.rect
    }

    /// The alias that is read at a port.
    pub(crate) fn input(&self, port: u32) -> Option<u32>
        ensures { result ≡ slice_get self.now.inputs port }
    {
        match port {
            0 => self.first,
            1 => self.second,
            _ => None,
        }
    }

    /// How many aliases it reads.
    pub(crate) fn ports(&self) -> u32
        ensures count { result ≡ length self.now.inputs }
        ensures few { result ≤ 2 }
    {
        match (self.first, self.second) {
            (None, _) => 0,
            (Some(_), None) => 1,
            (Some(_), Some(_)) => 2,
        }
    }
}
