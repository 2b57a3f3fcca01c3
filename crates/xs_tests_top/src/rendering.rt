//! Runs over libraries, shelves and notes in memory.

ghost use Rattle.std.specs.Prelude.{◌≡◌, [], All, None, length};
ghost use Rattle.xs_base.specs.declared.limits.TheConstants.{MOST_WORKERS};

use std::alloc::Global;
use std::test::Fail;
use xs_bench::Bench;
use xs_outside::{MemLibrary, MemNotes, MemShelf};
use xs_top::{run, status_number};
use xs_word_desk::Closed;

/// What a run leaves: its status, and what stands on the shelf and in the notes.
#[derive(Drop)]
pub(crate) struct Left {
    pub(crate) status: u8,
    pub(crate) shelf: MemShelf,
    pub(crate) notes: MemNotes,
}

/// A run of these words, parted by blanks, by benches over a library and an empty shelf.
pub(crate) fn run_by<B: Bench>(
    alloc: Global,
    line: &str,
    mut library: MemLibrary,
    mut shelf: MemShelf,
    benches: &mut Vec<B>,
    end: &mut Option<Closed>,
) -> Result<Left, Fail>
    requires benches { length benches.old.items ≡ MOST_WORKERS }
    requires unused { All (λ bench. B.made bench ≡ []) benches.old.items }
    requires open { end.old ≡ None }
{
    let mut words = Vec::new(alloc);
    for word in line.split_whitespace() {
        words.push(String::from_str(alloc, word)?)?;
    }
    let mut notes = MemNotes::new(alloc, Vec::new(alloc));
    let status = run(
        alloc,
        &words,
        &mut library,
        &mut shelf,
        &mut notes,
        benches,
        end,
    );
    Ok(Left {
        status: status_number(&status),
        shelf,
        notes,
    })
}

/// Whether two shelves have the same objects.
pub(crate) fn are_equal(one: &MemShelf, other: &MemShelf) -> bool {
    if one.objects().len() != other.objects().len() {
        return false;
    }
    for (x, y) in one.objects().iter().zip(other.objects()) {
        if x.name.items() != y.name.items() || x.bytes.items() != y.bytes.items() {
            return false;
        }
    }
    true
}
