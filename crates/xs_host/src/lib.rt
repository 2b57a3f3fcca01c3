//! The outside of the real program: files of the working folder, and standard output. These few
//! lines are trusted to read and write what they say; they are proved to answer as the traits of
//! xs_outside demand, and to tell nothing of what a folder or a terminal holds.
#![tactic(auto)]

mod counted;
mod folder_library;
mod folder_shelf;
mod out_notes;

pub use folder_library::FolderLibrary;
pub use folder_shelf::FolderShelf;
pub use out_notes::OutNotes;
