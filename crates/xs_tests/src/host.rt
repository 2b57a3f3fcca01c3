//! A file and a line in the folder in which the test runs.

use std::test::Fail;
use std::{fs, io};
use xs_host::{FolderLibrary, FolderShelf, OutNotes};
use xs_outside::{Fetched, Library, Noted, Notes, Put, Shelf};

/// The bytes that the working folder has under this name, or why there are none.
fn text_of(rt: &HostRuntime, name: &str, limit: u64) -> io::Result<String> {
    let mut library = FolderLibrary::new(rt);
    match library.get(rt.alloc(), name, limit) {
        Fetched::Bytes(bytes) => Ok(String::from_utf8_lossy(rt.alloc(), bytes.as_slice())?),
        Fetched::Absent => Ok(String::from_str(rt.alloc(), "absent")?),
        Fetched::TooLong => Ok(String::from_str(rt.alloc(), "too long")?),
        Fetched::Failed => Ok(String::from_str(rt.alloc(), "failed")?),
        Fetched::Memory => Ok(String::from_str(rt.alloc(), "memory")?),
    }
}

#[test]
fn a_file_comes_back_as_it_was_put(rt: HostRuntime) -> Result<(), Fail> {
    let mut shelf = FolderShelf::new(&rt);
    assert_eq!(rt;
        shelf.put(rt.alloc(), "f.0001.xfr", b"old frame"),
        Put::Done
    );
    assert_eq!(rt; shelf.put(rt.alloc(), "f.0001.xfr", b"frame"), Put::Done);
    fs::create_dir(&rt, "folder")?;
    assert_eq!(rt; shelf.put(rt.alloc(), "folder", b"frame"), Put::Failed);
    let rows = [
        ("f.0001.xfr", 5, "frame"),
        ("f.0001.xfr", 4, "too long"),
        ("f.0002.xfr", 5, "absent"),
        (".folder.part", 5, "absent"),
        ("folder", 5, "failed"),
    ];
    for (name, limit, answer) in rows {
        let text = text_of(&rt, name, limit)?;
        assert_eq!(rt; text.as_str(), answer, "of {name}");
    }
    Ok(())
}

#[test]
fn a_file_of_many_buffers_comes_back_whole(rt: HostRuntime) -> Result<(), Fail> {
    let bytes: Vec<u8> = (0..300_000_u32)
        .map(|i| (i % 251) as u8)
        .collect(rt.alloc())?;
    let mut shelf = FolderShelf::new(&rt);
    assert_eq!(rt;
        shelf.put(rt.alloc(), "f.0001.xfr", bytes.as_slice()),
        Put::Done
    );
    let mut library = FolderLibrary::new(&rt);
    let Fetched::Bytes(read) = library.get(rt.alloc(), "f.0001.xfr", 300_000) else {
        return Err("the file does not come back")?;
    };
    assert_eq!(rt; read.as_slice(), bytes.as_slice());
    let one_less = library.get(rt.alloc(), "f.0001.xfr", 299_999);
    assert!(rt; matches!(one_less, Fetched::TooLong));
    Ok(())
}

#[test]
fn a_line_is_written(rt: HostRuntime) {
    let mut notes = OutNotes::new(&rt);
    assert_eq!(rt; notes.line(rt.alloc(), b"rendered 1 rows"), Noted::Done);
}
