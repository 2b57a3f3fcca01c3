ghost use Rattle.std.specs.Prelude.{◌≡◌, ◌≤◌, ◌++◌, None, IfOk, codes, string_bytes};
ghost use Rattle.std.specs.Result.{OnOk};
ghost use Rattle.std.specs.Io.KnownBytes.{Appends};
ghost use Rattle.xs_outside.specs.Told.{Rose};
ghost use Rattle.xs_outside.specs.Answers.{IsPut, KeepsPut};
ghost use Rattle.xs_outside.specs.Counts.{CountsPut};

use std::alloc::{AllocError, Global};
use std::io::Write;
use std::marker::Model;
use std::rt::Files;
use std::{fs, io};
use xs_outside::{Put, Shelf};

/// The working folder as a place for finished files; a file that is there already is replaced. It
/// tells nothing. Contracts see it as its count of faults, which starts at 0, rises at Failed, and
/// stands still at 2^64 - 1.
#[derive(Drop)]
pub struct FolderShelf<'a, R: Files> {
    rt: &'a R,
    faults: u64,
}

impl<'a, R: Files> Model for FolderShelf<'a, R> {
    ghost use Rattle.std.specs.Prelude.{ℕ};

    ghost Value = { ℕ };

    ghost view = { λ s. s.faults };
}

impl<'a, R: Files> FolderShelf<'a, R> {
    /// The working folder of the process that `rt` stands for.
    pub fn new(rt: &'a R) -> FolderShelf<'a, R>
        ensures { result ≡ 0 }
    {
        FolderShelf { rt, faults: 0 }
    }
}

/// The name of the file in which one of this name is written at first. It begins with a dot, as no
/// name of a scene, a drawing or a frame does.
fn name_beside(alloc: Global, name: &str) -> Result<String, AllocError>
    ensures { IfOk result (λ beside. string_bytes beside ≡ codes "." ++ (name.now ++ codes ".part")) }
{
    format!(in alloc; ".{name}.part")
}

/// Writes a file of this name, or replaces it, as a whole: the bytes go to a file beside it, which
/// then takes the name, so nobody ever finds a part of them under the name. After a fault the old
/// file is as it was and the one beside it is removed.
fn replace_file<R: Files>(rt: &R, beside: &str, name: &str, bytes: &[u8]) -> io::Result<()> {
    let written = write_and_rename(rt, beside, name, bytes);
    if written.is_err() {
        let _ = fs::remove_file(rt, beside);
    }
    written
}

/// Writes these bytes to a file, and lets it take its name once it holds all of them, never before.
fn write_then_name<W: Write + Drop, N: FnOnce(W) -> io::Result<()>>(
    mut file: W,
    bytes: &[u8],
    take_name: N,
) -> io::Result<()>
    requires { (whole : W) → Appends (W.contents file) (W.contents whole) bytes.now → N.pre take_name whole }
    ensures { OnOk result ((whole : W) × Appends (W.contents file) (W.contents whole) bytes.now × N.post take_name whole result) }
{
    file.write_all(bytes)?;
    take_name(file)
}

/// Writes these bytes to the file `beside`, and gives it the name.
fn write_and_rename<R: Files>(rt: &R, beside: &str, name: &str, bytes: &[u8]) -> io::Result<()> {
    let file = fs::create(rt, beside)?;
    write_then_name(file, bytes, |file| {
        drop(file);
        fs::rename(rt, beside, name)
    })
}

#[tactic(auto, unfolding(xs_outside::specs::Told::more))]
impl<R: Files> Shelf for FolderShelf<'_, R> {
    ghost objects = { λ _. None };

    ghost faults = { λ s. s };

    fn put(&mut self, alloc: Global, name: &str, bytes: &[u8]) -> Put
        ensures answer { IsPut None None (record { name = name.now; bytes = bytes.now }) (Rose self.old self.new) result }
        ensures later { self.old ≤ self.new }
        ensures keeps { KeepsPut self.old self.new result }
        ensures counts { CountsPut self.old self.new result }
    {
        let Ok(beside) = name_beside(alloc, name) else {
            return Put::Memory;
        };
        if replace_file(self.rt, beside.as_str(), name, bytes).is_err() {
            self.faults = self.faults.saturating_add(1);
            return Put::Failed;
        }
        Put::Done
    }
}
