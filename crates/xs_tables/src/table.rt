use crate::outside::Outside;
use crate::{apart, level, render, scene};
use std::alloc::Global;
use std::io;
use std::rt::Files;

/// The state between the lines of a table: the files that a render may ask for.
#[derive(Debug, Drop)]
pub struct Table {
    outside: Outside,
}

impl Table {
    /// No files yet.
    pub fn new(alloc: Global) -> Table {
        Table {
            outside: Outside::empty(alloc),
        }
    }

    /// Carries out one line, and prints it with what came out.
    pub fn carry_out<R: Files + Print + AllocGlobal>(
        &mut self,
        rt: &R,
        line: &str,
    ) -> io::Result<()> {
        if line.is_empty() || line.starts_with('#') {
            return println!(rt; "{line}");
        }
        let (command, words) = line.split_once(' ').unwrap_or((line, ""));
        if command == "files" {
            self.outside.hold(rt, words)?;
            return println!(rt; "{line}");
        }
        let told = self.told(rt, command, words)?;
        println!(rt; "{line}: {told}")
    }

    /// What comes out of a call.
    fn told<R: Files + AllocGlobal>(
        &self,
        rt: &R,
        command: &str,
        words: &str,
    ) -> io::Result<String> {
        match command {
            "check" => scene::check_file(rt, words),
            "prefixes" => scene::check_prefixes(rt, words),
            "nested" => scene::check_nested(rt.alloc(), words),
            "with" => scene::check_with(rt, words),
            "many" => scene::check_many(rt, words),
            "lists" => apart::check_lists(rt, words),
            "show" => scene::show_file(rt, words),
            "level" => level::read_file(rt, words),
            "cuts" => level::read_cuts(rt, words),
            _ => render::told(rt.alloc(), &self.outside, command, words),
        }
    }
}
