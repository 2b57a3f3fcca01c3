//! Command lines with the command or the first fault that they have, and the names in them.

use std::alloc::{AllocError, Global};
use std::test::Fail;
use xs_scene::Name;
use xs_words::{Command, Usage, WordsFault, read_words};

fn words_of(alloc: Global, line: &str) -> Result<Vec<String>, AllocError> {
    let mut words = Vec::new(alloc);
    for word in line.split_whitespace() {
        words.push(String::from_str(alloc, word)?)?;
    }
    Ok(words)
}

fn fault_of(alloc: Global, line: &str) -> Result<Option<WordsFault>, AllocError> {
    let words = words_of(alloc, line)?;
    Ok(read_words(alloc, words.as_slice()).err())
}

const FAULTS: [(&str, Usage); 27] = [
    ("", Usage::NoCommand),
    ("paint", Usage::Unknown),
    ("render one.json 1", Usage::Count),
    ("render one.json x 1 0 f", Usage::Number(3)),
    ("render one.json 1 0000000001 1 f", Usage::Number(4)),
    ("render one.json +1 1 1 f", Usage::Number(3)),
    ("render one.json 0 0 0 f", Usage::Range(3)),
    ("render one.json 2 1 1 f", Usage::Range(4)),
    ("render one.json 1 4097 1 f", Usage::Range(4)),
    ("render one.json 9999 10000 1 f", Usage::Range(4)),
    ("render one.json 1 1 0 f", Usage::Range(5)),
    ("render one.json 1 1 65 f", Usage::Range(5)),
    ("render a/b 1 1 1 .f", Usage::Name(2)),
    ("render one.json 1 1 1 .f", Usage::Name(6)),
    ("dry one.json 1", Usage::Count),
    ("dry one.json 1 x", Usage::Number(4)),
    ("dry one.json 10000 1", Usage::Range(3)),
    ("dry .one 1 1", Usage::Name(2)),
    ("show", Usage::Count),
    ("show ../a", Usage::Name(2)),
    ("make 1 1", Usage::Count),
    ("make x 1 y", Usage::Number(2)),
    ("make 0 241 1", Usage::Range(3)),
    ("again a b 1 1 1", Usage::Count),
    ("again a b 1 1 x f", Usage::Number(6)),
    ("again a b 1 2049 1 f", Usage::Range(5)),
    ("again a ../b 1 1 1 f", Usage::Name(3)),
];

const COMMANDS: [&str; 7] = [
    "render one.json 1 1 1 f",
    "render one.json 1 4096 64 f",
    "dry one.json 9999 9999",
    "show one.json",
    "make 999999999 240 64",
    "make 0 1 1",
    "again one.json two.json 1 2048 1 f",
];

#[test]
fn the_first_fault_is_told(rt: HostRuntime) -> Result<(), Fail> {
    for (line, usage) in FAULTS {
        let fault = fault_of(rt.alloc(), line)?;
        assert_eq!(rt; fault, Some(WordsFault::Usage(usage)), "{line}");
    }
    Ok(())
}

#[test]
fn each_command_is_read(rt: HostRuntime) -> Result<(), Fail> {
    for line in COMMANDS {
        assert_eq!(rt; fault_of(rt.alloc(), line)?, None, "{line}");
    }
    Ok(())
}

#[test]
fn numbers_may_begin_with_zeros(rt: HostRuntime) -> Result<(), Fail> {
    let words = words_of(rt.alloc(), "dry one.json 0007 000000012")?;
    let Command::Dry { scene, from, to } = read_words(rt.alloc(), words.as_slice())? else {
        return Err(Fail::from("another command"));
    };
    assert_eq!(rt; scene.text(), "one.json");
    assert_eq!(rt; (from, to), (7, 12));
    Ok(())
}

#[test]
fn a_name_is_copied(rt: HostRuntime) -> Result<(), Fail> {
    let text = String::from_str(rt.alloc(), "one.json")?;
    let name = Name::new(text).ok_or("the text is a name")?;
    assert_eq!(rt; name.copy(rt.alloc())?.text(), "one.json");
    Ok(())
}
