//! What stands where something earlier stands.
ghost use Rattle.std.specs.Prelude.{Bool};
ghost use Rattle.std.specs.Bool.{Decides};
ghost use Rattle.xs_check.specs.Finding.{Finds};
ghost use Rattle.xs_check.specs.Passes.{apart_fault, overlap_fault};
ghost use Rattle.xs_fault.specs.Paths.{path_of};
ghost use Rattle.xs_index.specs.Index.{IsIndexOf};

use crate::files::files_apart;
use crate::finding::{Requirement, each, tell_first};
use crate::shared::{first_shared, index_apart};
use std::alloc::Global;
use xs_fault::{Field, FieldFault, Path, Place, SceneCode};
use xs_index::{HasRow, Index};
use xs_scene::{Colours, Column, Peg, Scene, Sheet};

/// The first element of the list under a field of the object at `at` that does not stand apart from each
/// earlier one.
fn each_apart<T: HasRow>(
    alloc: Global,
    items: &[T],
    at: &Path,
    field: Field,
) -> Result<(), FieldFault>
    ensures { (apart : T → T → Bool) → ((a b : T) → Decides (apart a b) (T.apart a b))
        → Finds result (apart_fault apart (path_of field at.now) items.now) }
{
    let first = first_shared(alloc, items)?;
    tell_first(alloc, first, SceneCode::Overlap, at, field)
}

/// The keys of a palette.
#[derive(Clone, Copy)]
struct PaletteOverlaps;

impl Requirement<Colours> for PaletteOverlaps {
    ghost use Rattle.xs_check.specs.Passes.{palette_overlap_fault as Found};

    ghost finds = { λ _. Found };

    fn look(&self, alloc: Global, item: &Colours, at: &Place) -> Result<(), FieldFault> {
        let path = at.path(alloc)?;
        each_apart(alloc, item.keys.items(), &path, Field::Keys)
    }
}

/// The keys of a peg.
#[derive(Clone, Copy)]
struct PegOverlaps;

impl Requirement<Peg> for PegOverlaps {
    ghost use Rattle.xs_check.specs.Passes.{peg_overlap_fault as Found};

    ghost finds = { λ _. Found };

    fn look(&self, alloc: Global, item: &Peg, at: &Place) -> Result<(), FieldFault> {
        let path = at.path(alloc)?;
        each_apart(alloc, item.keys.items(), &path, Field::Keys)
    }
}

/// The cells of a column.
#[derive(Clone, Copy)]
struct ColumnOverlaps;

impl Requirement<Column> for ColumnOverlaps {
    ghost use Rattle.xs_check.specs.Passes.{column_overlap_fault as Found};

    ghost finds = { λ _. Found };

    fn look(&self, alloc: Global, item: &Column, at: &Place) -> Result<(), FieldFault> {
        let path = at.path(alloc)?;
        each_apart(alloc, item.cells.items(), &path, Field::Cells)
    }
}

/// The pegs and the columns of a sheet.
#[derive(Clone, Copy)]
struct SheetOverlaps;

impl Requirement<Sheet> for SheetOverlaps {
    ghost use Rattle.xs_check.specs.Passes.{sheet_overlap_fault as Found};

    ghost finds = { λ _. Found };

    fn look(&self, alloc: Global, item: &Sheet, at: &Place) -> Result<(), FieldFault> {
        let path = at.path(alloc)?;
        each(alloc, &PegOverlaps, item.pegs.items(), &path, Field::Pegs)?;
        each(
            alloc,
            &ColumnOverlaps,
            item.columns.items(),
            &path,
            Field::Columns,
        )
    }
}

/// The first thing that stands where an earlier one stands, found list by list.
fn first_overlap(alloc: Global, scene: &Scene) -> Result<(), FieldFault>
    ensures { Finds result (overlap_fault scene.now) }
{
    let top = Path::root(alloc);
    each(
        alloc,
        &PaletteOverlaps,
        scene.palettes.items(),
        &top,
        Field::Palettes,
    )?;
    files_apart(alloc, scene.levels.items())?;
    each(
        alloc,
        &SheetOverlaps,
        scene.sheets.items(),
        &top,
        Field::Sheets,
    )
}

/// The first thing that stands where an earlier one stands. The index of the scene tells whether cells or keys
/// do: only then is the first of them looked for.
pub fn overlaps(alloc: Global, scene: &Scene, index: &Index) -> Result<(), FieldFault>
    requires { IsIndexOf scene.now index.now }
    ensures { Finds result (overlap_fault scene.now) }
{
    if index_apart(index) {
        files_apart(alloc, scene.levels.items())
    } else {
        first_overlap(alloc, scene)
    }
}
