//! The file names of the drawings of a scene: no two are the same.
ghost use Rattle.std.specs.Prelude.{◌≡◌, ◌≢◌, ◌++◌, [], IfOk, OnOk, All, map, length, take, slice_index_or};
ghost use Rattle.xs_check.specs.Finding.{Finds};
ghost use Rattle.xs_check.specs.Good.{files_of as names_of};
ghost use Rattle.xs_check.specs.Passes.{file_path as path_by_number, drawing_path as path_by_place, file_fault};
ghost use Rattle.xs_base.specs.First.{IsFirstWithout};

use std::alloc::{AllocError, Global};
use std::collections::BTreeMap;
use xs_base::Memory;
use xs_fault::{Field, FieldFault, Path, Place, SceneCode, SceneFault};
use xs_scene::{Level, Name};

/// Adds the names of the drawings of a level.
fn add_files<'s>(files: &mut Vec<&'s str>, drawings: &'s [Name]) -> Result<(), AllocError>
    ensures { OnOk result (map (λ f. f.now) files.new.items ≡ map (λ f. f.now) files.old.items ++ drawings.now) }
{
    for drawing in drawings {
        files.push(drawing.text())?;
    }
    Ok(())
}

/// The names of all drawings, by the drawings' numbers.
fn files_of<'s>(alloc: Global, levels: &'s [Level]) -> Result<Vec<&'s str>, AllocError>
    ensures { IfOk result (λ files. map (λ f. f.now) files.items ≡ names_of levels.now) }
{
    let mut files = Vec::new(alloc);
    for level in levels {
        add_files(&mut files, level.drawings.items())?;
    }
    Ok(files)
}

/// The first text that an earlier one repeats.
fn first_repeated(alloc: Global, files: &[&str]) -> Result<Option<usize>, AllocError>
    ensures { let names = map (λ f. f.now) files.now in
        IfOk result (IsFirstWithout (λ d. All (λ earlier. earlier ≢ slice_index_or names d []) (take d names)) (length names)) }
{
    let mut known: BTreeMap<&str, ()> = BTreeMap::new(alloc);
    for (d, file) in files.iter().enumerate() {
        if known.insert(*file, ())?.is_some() {
            return Ok(Some(d));
        }
    }
    Ok(None)
}

/// The path of the name of a drawing by its level and its place in the level's list.
fn drawing_path(alloc: Global, levels: &Path, level: usize, index: usize) -> Result<Path, Memory>
    ensures { IfOk result (λ path. path ≡ path_by_place levels.now level index) }
{
    let (Ok(level), Ok(index)) = (u32::try_from(level), u32::try_from(index)) else {
        return Err(Memory);
    };
    let at = levels.index(alloc, level)?;
    let drawings = Place::key(&at, Field::Drawings).path(alloc)?;
    drawings.index(alloc, index)
}

/// The path of the name of a drawing by its number.
fn file_path(alloc: Global, levels: &[Level], d: usize) -> Result<Path, Memory>
    ensures { IfOk result (λ path. path ≡ path_by_number 0 levels.now d) }
{
    let top = Path::root(alloc);
    let at = Place::key(&top, Field::Levels).path(alloc)?;
    let mut left = d;
    for (i, level) in levels.iter().enumerate() {
        let count = level.drawings.items().len();
        if left < count {
            return drawing_path(alloc, &at, i, left);
        }
        left -= count;
    }
    Ok(top)
}

/// The first drawing with the file name of an earlier one.
#[tactic(auto, unfolding(crate::specs::Passes::file_fault))]
pub fn files_apart(alloc: Global, levels: &[Level]) -> Result<(), FieldFault>
    ensures { Finds result (file_fault levels.now) }
{
    let files = files_of(alloc, levels)?;
    match first_repeated(alloc, &files)? {
        Some(d) => {
            let path = file_path(alloc, levels, d)?;
            Err(FieldFault::Fault(SceneFault {
                code: SceneCode::Overlap,
                path,
            }))
        }
        None => Ok(()),
    }
}
