ghost use Rattle.std.specs.Prelude.{◌≡◌, ◌<◌, ℕ, [], ◌∷◌, IfOk, OnOk, OnErr};
ghost use Rattle.xs_worker.specs.Piles.{top_of, below_top};

use std::alloc::Global;
use std::marker::Model;
use xs_base::Memory;

/// Aliases that are claimed, of which only the last may be taken off. Contracts see them as a list, the last first,
/// and for how many more there is room.
#[derive(Debug, Drop)]
pub(crate) struct Stack {
    items: Vec<u32>,
}

impl Model for Stack {
    ghost use Rattle.std.specs.Prelude.{◌-◌, reverse, vec_len, vec_capacity};
    ghost use Rattle.xs_worker.specs.Piles.{Pile};

    ghost Value = { Pile };

    ghost view = { λ s. record { items = reverse s.items.items; room = vec_capacity s.items - vec_len s.items } };
}

impl Stack {
    /// Nothing is on it.
    pub(crate) fn new(alloc: Global) -> Stack
        ensures { result.items ≡ [] }
    {
        Stack {
            items: Vec::new(alloc),
        }
    }

    /// The alias on the top.
    pub(crate) fn top(&self) -> Option<u32>
        ensures { result ≡ top_of self.now.items }
    {
        self.items.last().copied()
    }

    /// Makes room for one more.
    pub(crate) fn make_room(&mut self) -> Result<(), Memory>
        ensures same { self.new.items ≡ self.old.items }
        ensures room { OnOk result (0 < self.new.room) }
    {
        self.items.reserve(1)?;
        Ok(())
    }

    /// Puts one more on the top.
    pub(crate) fn push(&mut self, k: u32)
        requires { 0 < self.old.room }
        ensures { self.new.items ≡ k ∷ self.old.items }
    {
        self.items.push_reserved(k);
    }

    /// Takes the top off.
    pub(crate) fn pop(&mut self)
        ensures { self.new.items ≡ below_top self.old.items }
    {
        self.items.pop();
    }
}
