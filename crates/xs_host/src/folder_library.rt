ghost use Rattle.std.specs.Prelude.{◌≡◌, ◌≤◌, ◌+◌, ℕ, List, [], length, Option, None, Some, IfSome, ⊤};
ghost use Rattle.std.specs.IoError.{error_kind};
ghost use Rattle.xs_outside.specs.Told.{Rose};
ghost use Rattle.xs_outside.specs.Answers.{IsFetched, IsAsked, KeepsFetch};
ghost use Rattle.xs_outside.specs.Counts.{CountsFetch};
ghost use Rattle.xs_host.specs.Opening.{opening_answer, reading_answer, IsReading};

use crate::counted::{Counted, CountsFaults};
use std::alloc::Global;
use std::fs::OpenFile;
use std::io::{ErrorKind, Read};
use std::marker::Model;
use std::rt::Files;
use std::{fs, io};
use xs_outside::{Fetched, Library};

/// The files of the working folder. It tells nothing. Contracts see it as its count of faults, which
/// starts at 0, rises at Failed, Absent and TooLong, and stands still at 2^64 - 1.
#[derive(Drop)]
pub struct FolderLibrary<'a, R: Files> {
    rt: &'a R,
    faults: u64,
}

impl<'a, R: Files> Model for FolderLibrary<'a, R> {
    ghost use Rattle.std.specs.Prelude.{ℕ};

    ghost Value = { ℕ };

    ghost view = { λ l. l.faults };
}

impl<'a, R: Files> FolderLibrary<'a, R> {
    /// The working folder of the process that `rt` stands for.
    pub fn new(rt: &'a R) -> FolderLibrary<'a, R>
        ensures { result ≡ 0 }
    {
        FolderLibrary { rt, faults: 0 }
    }
}

/// The answer to a fault of opening a file.
fn opening_fault(error: &io::Error) -> Fetched
    ensures value { result ≡ opening_answer (error_kind error.now) }
    ensures within { IsFetched None [] 0 ⊤ result }
{
    match error.kind() {
        ErrorKind::NotFound => Fetched::Absent,
        ErrorKind::OutOfMemory => Fetched::Memory,
        _ => Fetched::Failed,
    }
}

/// The answer to a fault of reading a file that is open.
fn reading_fault(error: &io::Error) -> Fetched
    ensures value { result ≡ reading_answer (error_kind error.now) }
    ensures answer { (limit before now : ℕ) → Rose before now → IsReading limit (Rose before now) result }
    ensures of_any_file { (files : Option (List ℕ → Option (List ℕ))) (limit before now : ℕ) → Rose before now
        → IsFetched files [] limit (Rose before now) result }
{
    match error.kind() {
        ErrorKind::OutOfMemory => Fetched::Memory,
        _ => Fetched::Failed,
    }
}

/// For how many bytes room is made before a file is read: its length and one byte more, at which its
/// end is seen, but none where its length can't be had. A hint, since a file may grow or shrink.
fn room_for<F: OpenFile>(file: &F, limit: u64) -> usize
    ensures { result ≤ limit + 1 }
{
    match file.metadata() {
        Ok(metadata) => metadata.len().min(limit).saturating_add(1) as usize,
        Err(_) => 0,
    }
}

/// The bytes that a reader gives to its end, if there are at most `limit`. It gives no more than one
/// byte past the limit. There is room for so many bytes from the start.
fn read_front<F: Read + CountsFaults>(
    front: &mut F,
    alloc: Global,
    room: usize,
    limit: u64,
) -> Fetched
    requires { IfSome (F.remaining front.old) (λ bytes. length bytes ≤ limit + 1) }
    ensures answer { IsReading limit (Rose (F.faults front.old) (F.faults front.new)) result }
    ensures whole { IfSome (F.remaining front.old) (λ bytes.
        IsFetched (Some (λ _. Some bytes)) [] limit (Rose (F.faults front.old) (F.faults front.new)) result) }
{
    let before = front.faults_so_far();
    let Ok(mut bytes) = Vec::with_capacity(alloc, room) else {
        return Fetched::Memory;
    };
    match front.read_to_end(&mut bytes) {
        Ok(_) if bytes.len() as u64 <= limit => Fetched::Bytes(bytes),
        Ok(_) => Fetched::TooLong,
        Err(error) if front.faults_so_far() > before => reading_fault(&error),
        Err(_) => Fetched::Memory,
    }
}

/// The bytes of an open file, if there are at most `limit`, and the file. At most `limit + 1` of them
/// are read, so that a file without end is too long.
fn read_open<F: Read + CountsFaults + Drop>(
    file: F,
    alloc: Global,
    room: usize,
    limit: u64,
) -> (Fetched, F)
    ensures answer { IsReading limit (Rose (F.faults file) (F.faults result.1)) result.0 }
    ensures whole { IfSome (F.remaining file) (λ bytes.
        IsFetched (Some (λ _. Some bytes)) [] limit (Rose (F.faults file) (F.faults result.1)) result.0) }
{
    let mut front = file.take(limit.saturating_add(1));
    let answer = read_front(&mut front, alloc, room, limit);
    (answer, front.into_inner())
}

/// The bytes of the file of this name, if there are at most `limit`.
fn read_file<R: Files>(rt: &R, alloc: Global, name: &str, limit: u64) -> Fetched
    ensures { IsFetched None name.now limit ⊤ result }
{
    match fs::open(rt, name) {
        Ok(file) => {
            let room = room_for(&file, limit);
            read_open(Counted::new(file), alloc, room, limit).0
        }
        Err(error) => opening_fault(&error),
    }
}

#[tactic(auto, unfolding(xs_outside::specs::Told::more))]
impl<R: Files> Library for FolderLibrary<'_, R> {
    ghost files = { λ _. None };

    ghost asked = { λ _. None };

    ghost faults = { λ l. l };

    fn get(&mut self, alloc: Global, name: &str, limit: u64) -> Fetched
        ensures answer { IsFetched None name.now limit (Rose self.old self.new) result }
        ensures asked { IsAsked None None name.now result }
        ensures later { self.old ≤ self.new }
        ensures keeps { KeepsFetch self.old self.new result }
        ensures counts { CountsFetch self.old self.new result }
    {
        let answer = read_file(self.rt, alloc, name, limit);
        match &answer {
            Fetched::Bytes(_) | Fetched::Memory => {}
            Fetched::Absent | Fetched::TooLong | Fetched::Failed => {
                self.faults = self.faults.saturating_add(1);
            }
        }
        answer
    }
}
