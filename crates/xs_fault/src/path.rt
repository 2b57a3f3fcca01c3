ghost use Rattle.std.specs.Prelude.{◌≡◌, [], IfOk};
ghost use Rattle.xs_fault.specs.Paths.{key_at, index_at};

use itoa::Buffer;
use std::alloc::Global;
use std::marker::Model;
use xs_base::Memory;

/// Where a value stands in a text: empty for the whole, and a slash and a key or a list number for
/// each step from there, as in `/sheets/0/columns/1`.
#[derive(Debug, Drop)]
pub struct Path {
    text: String,
}

impl Model for Path {
    ghost use Rattle.std.specs.Prelude.{List, ℕ, string_bytes};

    ghost Value = { List ℕ };

    ghost view = { λ p. string_bytes p.text };
}

impl Path {
    /// The path of the whole text. Takes no memory.
    pub fn root(alloc: Global) -> Path
        ensures { result ≡ [] }
    {
        Path {
            text: String::new(alloc),
        }
    }

    /// The path of the member `k` of the object here.
    #[tactic(auto, unfolding(crate::specs::Paths::key_at))]
    pub fn key(&self, alloc: Global, k: &str) -> Result<Path, Memory>
        ensures { IfOk result (λ p. p ≡ key_at self.now k.now) }
    {
        let mut text = String::from_str(alloc, self.text.as_str())?;
        text.push('/')?;
        text.push_str(k)?;
        Ok(Path { text })
    }

    /// The path of the element `i`, counted from 0, of the list here.
    #[tactic(auto, unfolding(crate::specs::Paths::index_at))]
    pub fn index(&self, alloc: Global, i: u32) -> Result<Path, Memory>
        ensures { IfOk result (λ p. p ≡ index_at self.now i) }
    {
        let mut digits = Buffer::new();
        self.key(alloc, digits.format(i))
    }

    /// The same path again.
    pub fn copy(&self, alloc: Global) -> Result<Path, Memory>
        ensures { IfOk result (λ p. p ≡ self.now) }
    {
        Ok(Path {
            text: String::from_str(alloc, self.text.as_str())?,
        })
    }

    /// The path as it is printed.
    pub fn text(&self) -> &str
        ensures { result.now ≡ self.now }
    {
        self.text.as_str()
    }
}
