//! A library, a shelf and notes in memory, of which one call fails.

use std::alloc::{AllocError, Global};
use std::test::Fail;
use xs_base::Memory;
use xs_outside::{
    Fetched, Library, MemLibrary, MemNotes, MemShelf, Noted, Notes, Object, Put, QuietLibrary,
    Shelf,
};

/// Two files of one name, with one byte and with two.
fn two_files(alloc: Global) -> Result<Vec<Object>, Memory> {
    let mut files = Vec::new(alloc);
    let first = Object::new(alloc, "a", b"1")?;
    files.push(first).map_err(AllocError::from)?;
    let second = Object::new(alloc, "a", b"22")?;
    files.push(second).map_err(AllocError::from)?;
    Ok(files)
}

#[test]
fn a_library_in_memory_answers(rt: HostRuntime) -> Result<(), Fail> {
    let alloc = rt.alloc();
    let files = two_files(alloc)?;
    let mut library = QuietLibrary::new(MemLibrary::new(alloc, files, vec![in alloc; 2]?));
    let asked = [("a", 1), ("a", 1), ("b", 1), ("a", 0)];
    for (k, (name, limit)) in asked.iter().enumerate() {
        let answer = library.get(alloc, name, *limit);
        assert!(rt;
            matches!(
                (k, &answer),
                (0, Fetched::Bytes(_))
                    | (1, Fetched::Failed)
                    | (2, Fetched::Absent)
                    | (3, Fetched::TooLong)
            ),
            "call {k}"
        );
        assert_eq!(rt; library.faults(), k as u64);
    }
    Ok(())
}

#[test]
fn a_shelf_and_notes_in_memory_answer(rt: HostRuntime) -> Result<(), Fail> {
    let alloc = rt.alloc();
    let mut shelf = MemShelf::new(alloc, vec![in alloc; 2]?);
    let mut notes = MemNotes::new(alloc, vec![in alloc; 2]?);
    assert_eq!(rt; shelf.put(alloc, "f", b"12"), Put::Done);
    assert_eq!(rt; shelf.put(alloc, "g", b"3"), Put::Failed);
    assert_eq!(rt; shelf.objects().len(), 1);
    assert_eq!(rt; notes.line(alloc, b"ab"), Noted::Done);
    assert_eq!(rt; notes.line(alloc, b"cd"), Noted::Failed);
    assert_eq!(rt; notes.bytes(), b"ab\nc".as_slice());
    Ok(())
}
