ghost use Rattle.std.specs.Prelude.{◌≡◌, IfOk, string_bytes, slice_get};
ghost use Rattle.std.specs.List.{list_all};
ghost use Rattle.std.specs.Option.{SomeIff};
ghost use Rattle.xs_scene.specs.Names.{is_name_byte, begins_name, is_name, IsName};

use std::alloc::Global;
use std::marker::Model;
use xs_base::Memory;
use xs_base::limits::LONGEST_NAME;

/// A name of a file of the working folder: 1 to 200 ASCII letters, digits, spaces, `_`, `-` and `.`, the
/// first neither `.` nor a space.
#[derive(Debug, Drop)]
pub struct Name {
    text: String,
}

impl Model for Name {
    ghost use Rattle.std.specs.Prelude.{ℕ, List, string_bytes};
    ghost use Rattle.xs_scene.specs.Names.{IsName};

    ghost Value = { List ℕ };

    ghost view = { λ n. string_bytes n.text };

    ghost invariant = { λ n. IsName (string_bytes n.text) };
}

fn is_byte_of_name(byte: u8) -> bool
    ensures { result ≡ is_name_byte byte }
{
    byte.is_ascii_alphanumeric() || byte == b' ' || byte == b'_' || byte == b'-' || byte == b'.'
}

fn begins_name(text: &[u8]) -> bool
    ensures { result ≡ begins_name (slice_get text.now 0) }
{
    match text.first() {
        Some(&first) => first != b'.' && first != b' ',
        None => false,
    }
}

fn has_only_name_bytes(text: &[u8]) -> bool
    ensures { result ≡ list_all is_name_byte text.now }
{
    text.iter().all(|&byte| is_byte_of_name(byte))
}

#[tactic(auto, unfolding(crate::specs::Names::is_name))]
fn is_name(text: &[u8]) -> bool
    ensures { result ≡ is_name text.now }
{
    begins_name(text) && text.len() <= LONGEST_NAME && has_only_name_bytes(text)
}

impl Name {
    /// The name with this text; None exactly where the text is no name.
    pub fn new(text: String) -> Option<Name>
        ensures { SomeIff result (IsName (string_bytes text)) (string_bytes text) }
    {
        if is_name(text.as_bytes()) {
            Some(Name { text })
        } else {
            None
        }
    }

    /// The text of the name.
    pub fn text(&self) -> &str
        ensures value { result.now ≡ self.now }
        ensures name { IsName self.now }
    {
        self.text.as_str()
    }

    /// A second name with the same text.
    pub fn copy(&self, alloc: Global) -> Result<Name, Memory>
        ensures { IfOk result (λ n. n ≡ self.now) }
    {
        let text = String::from_str(alloc, self.text())?;
        Ok(Name { text })
    }
}
