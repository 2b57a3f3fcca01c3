//! The files that a render may ask for, and the calls of the outside that fail.

use std::alloc::Global;
use std::rt::Files;
use std::{fs, io};
use xs_outside::{MemLibrary, Object};

/// The files that a render may ask for.
#[derive(Debug, Drop)]
pub struct Outside {
    files: Vec<(String, Vec<u8>)>,
}

/// The numbers of the calls that fail; 0 is none.
#[derive(Clone, Copy, Debug)]
pub struct Failing {
    pub get: u64,
    pub put: u64,
    pub note: u64,
}

impl Failing {
    /// No call fails.
    pub const NONE: Failing = Failing {
        get: 0,
        put: 0,
        note: 0,
    };

    /// The call of this kind with this number fails.
    pub fn at(kind: &str, number: u64) -> Failing {
        match kind {
            "get" => Failing {
                get: number,
                ..Failing::NONE
            },
            "put" => Failing {
                put: number,
                ..Failing::NONE
            },
            _ => Failing {
                note: number,
                ..Failing::NONE
            },
        }
    }
}

/// The bytes that a word names: those of a file, or, behind a `+`, so many zeros.
fn bytes_of<R: Files + AllocGlobal>(rt: &R, word: &str) -> io::Result<Vec<u8>> {
    let Some(Ok(count)) = word.strip_prefix('+').map(|count| count.parse::<u32>()) else {
        return fs::read(rt, word);
    };
    Ok(vec![in rt.alloc(); 0u8; count as usize]?)
}

impl Outside {
    /// No files.
    pub fn empty(alloc: Global) -> Outside {
        Outside {
            files: Vec::new(alloc),
        }
    }

    /// Holds these files, and no others: each word is a name, or a name, `=` and what its bytes are.
    pub fn hold<R: Files + AllocGlobal>(&mut self, rt: &R, words: &str) -> io::Result<()> {
        self.files.clear();
        for word in words.split_whitespace() {
            let (name, file) = word.split_once('=').unwrap_or((word, word));
            let bytes = bytes_of(rt, file)?;
            self.files
                .push((String::from_str(rt.alloc(), name)?, bytes))?;
        }
        Ok(())
    }

    /// A library of these files, of which one call fails.
    pub fn library(&self, alloc: Global, fails: u64) -> io::Result<MemLibrary> {
        let mut files = Vec::new(alloc);
        for (name, bytes) in self.files.iter() {
            let Ok(object) = Object::new(alloc, name.as_str(), bytes) else {
                return Err(io::Error::from(io::ErrorKind::OutOfMemory));
            };
            files.push(object)?;
        }
        Ok(MemLibrary::new(alloc, files, vec![in alloc; fails]?))
    }
}
