//! Numbers that name nothing.
ghost use Rattle.std.specs.Prelude.{◌≡◌, nat_lt, length, []};
ghost use Rattle.xs_check.specs.Finding.{Finds, unless, or_else, in_list, if_there};
ghost use Rattle.xs_check.specs.Good.{level_at};
ghost use Rattle.xs_check.specs.Passes.{naming_fault, target_fault, input_reference_fault, sheet_reference_fault, reference_fault};
ghost use Rattle.xs_fault.specs.Paths.{path_of};
ghost use Rattle.xs_meaning.specs.Walk.{sheet_at};

use crate::finding::{Requirement, each};
use std::alloc::Global;
use xs_fault::{Field, FieldFault, Path, Place, SceneCode};
use xs_scene::{
    Colours, Column, Exposure, Inputs, Kind, Level, Node, Peg, Ref, Scene, Sheet, Shown, StyleKey,
};

/// NoSuchReference at a field of the object at a place, unless its number names one of some things.
fn names<T>(
    alloc: Global,
    at: &Place,
    field: Field,
    things: &[T],
    number: u32,
) -> Result<(), FieldFault>
    ensures { Finds result (naming_fault (path_of field at.now) things.now number) }
{
    if (number as usize) < things.len() {
        return Ok(());
    }
    let path = at.path(alloc)?;
    Err(Place::key(&path, field).fault(alloc, SceneCode::NoSuchReference))
}

/// The same for a field that may be absent.
fn may_name<T>(
    alloc: Global,
    at: &Place,
    field: Field,
    things: &[T],
    number: Option<u32>,
) -> Result<(), FieldFault>
    ensures { Finds result (if_there (naming_fault (path_of field at.now) things.now) number) }
{
    match number {
        Some(number) => names(alloc, at, field, things, number),
        None => Ok(()),
    }
}

/// The style that a palette key sets is one of the palette's.
#[derive(Clone, Copy)]
struct KeyReferences<'s> {
    palette: &'s Colours,
}

impl Requirement<StyleKey> for KeyReferences<'_> {
    ghost use Rattle.xs_check.specs.Passes.{naming_fault};
    ghost use Rattle.xs_fault.specs.Paths.{path_of};
    ghost use Rattle.xs_fault.specs.declared.field.Field.TheVariants as fields;

    ghost finds = { λ required at key. naming_fault (path_of fields.Style at) required.palette.now.styles key.style };

    fn look(&self, alloc: Global, item: &StyleKey, at: &Place) -> Result<(), FieldFault> {
        let palette = self.palette;
        names(alloc, at, Field::Style, palette.styles.items(), item.style)
    }
}

/// The styles that the keys of a palette set.
#[derive(Clone, Copy)]
struct PaletteReferences;

impl Requirement<Colours> for PaletteReferences {
    ghost use Rattle.xs_check.specs.Passes.{palette_reference_fault as Found};

    ghost finds = { λ _. Found };

    fn look(&self, alloc: Global, item: &Colours, at: &Place) -> Result<(), FieldFault> {
        let path = at.path(alloc)?;
        each(
            alloc,
            &KeyReferences { palette: item },
            item.keys.items(),
            &path,
            Field::Keys,
        )
    }
}

/// The palette of a level.
#[derive(Clone, Copy)]
struct LevelReferences<'s> {
    scene: &'s Scene,
}

impl Requirement<Level> for LevelReferences<'_> {
    ghost use Rattle.xs_check.specs.Passes.{level_reference_fault};

    ghost finds = { λ required. level_reference_fault required.scene.now };

    #[tactic(auto, unfolding(crate::specs::Passes::level_reference_fault))]
    fn look(&self, alloc: Global, item: &Level, at: &Place) -> Result<(), FieldFault> {
        let scene = self.scene;
        match item.kind {
            Kind::Colour => Ok(()),
            Kind::Cm32(palette) => {
                names(alloc, at, Field::Palette, scene.palettes.items(), palette)
            }
        }
    }
}

/// The level and the drawing that an exposure shows.
fn drawing(
    alloc: Global,
    levels: &[Level],
    at: &Place,
    level: u32,
    index: u32,
) -> Result<(), FieldFault>
    ensures { Finds result (or_else (naming_fault (path_of Field.Level at.now) levels.now level) (naming_fault (path_of Field.Drawing at.now) (level_at levels.now level).drawings index)) }
{
    names(alloc, at, Field::Level, levels, level)?;
    let level = &levels[level as usize];
    names(alloc, at, Field::Drawing, level.drawings.items(), index)
}

/// The drawing or the sheet that an exposure shows.
#[derive(Clone, Copy)]
struct ShownReferences<'s> {
    scene: &'s Scene,
}

impl Requirement<Exposure> for ShownReferences<'_> {
    ghost use Rattle.xs_check.specs.Passes.{cell_reference_fault as Found};

    ghost finds = { λ required. Found required.scene.now };

    #[tactic(auto, unfolding(crate::specs::Passes::cell_reference_fault))]
    fn look(&self, alloc: Global, item: &Exposure, at: &Place) -> Result<(), FieldFault> {
        let scene = self.scene;
        match item.shown {
            Shown::Drawing { level, index } => {
                drawing(alloc, scene.levels.items(), at, level, index)
            }
            Shown::Sheet { sheet, start: _ } => {
                names(alloc, at, Field::Sheet, scene.sheets.items(), sheet)
            }
        }
    }
}

/// The parent of a peg.
#[derive(Clone, Copy)]
struct PegReferences<'s> {
    sheet: &'s Sheet,
}

impl Requirement<Peg> for PegReferences<'_> {
    ghost use Rattle.xs_check.specs.Passes.{peg_reference_fault};

    ghost finds = { λ required. peg_reference_fault required.sheet.now };

    fn look(&self, alloc: Global, item: &Peg, at: &Place) -> Result<(), FieldFault> {
        let sheet = self.sheet;
        may_name(alloc, at, Field::Parent, sheet.pegs.items(), item.parent)
    }
}

/// The peg of a column, and what its exposures show.
#[derive(Clone, Copy)]
struct ColumnReferences<'s> {
    scene: &'s Scene,
    sheet: &'s Sheet,
}

impl Requirement<Column> for ColumnReferences<'_> {
    ghost use Rattle.xs_check.specs.Passes.{column_reference_fault as Found};

    ghost finds = { λ required. Found required.scene.now required.sheet.now };

    fn look(&self, alloc: Global, item: &Column, at: &Place) -> Result<(), FieldFault> {
        let (scene, sheet) = (self.scene, self.sheet);
        may_name(alloc, at, Field::Peg, sheet.pegs.items(), item.peg)?;
        let shown = ShownReferences { scene };
        let path = at.path(alloc)?;
        each(alloc, &shown, item.cells.items(), &path, Field::Cells)
    }
}

/// The column or node that a reference names.
#[derive(Clone, Copy)]
struct RefReferences<'s> {
    sheet: &'s Sheet,
}

impl Requirement<Ref> for RefReferences<'_> {
    ghost use Rattle.xs_check.specs.Passes.{target_fault};

    ghost finds = { λ required. target_fault required.sheet.now };

    fn look(&self, alloc: Global, item: &Ref, at: &Place) -> Result<(), FieldFault> {
        let sheet = self.sheet;
        match *item {
            Ref::Column(number) => names(alloc, at, Field::Column, sheet.columns.items(), number),
            Ref::Node(number) => names(alloc, at, Field::Node, sheet.nodes.items(), number),
        }
    }
}

/// What the inputs of the node at a path name.
fn of_inputs(alloc: Global, sheet: &Sheet, inputs: Inputs, at: &Path) -> Result<(), FieldFault>
    ensures { Finds result (input_reference_fault sheet.now at.now inputs) }
{
    let target = RefReferences { sheet };
    match inputs {
        Inputs::Zero => Ok(()),
        Inputs::One(input) => target.look(alloc, &input, &Place::key(at, Field::Input)),
        Inputs::Two { first, second } => {
            target.look(alloc, &first, &Place::key(at, Field::First))?;
            target.look(alloc, &second, &Place::key(at, Field::Second))
        }
    }
}

/// The inputs of a node.
#[derive(Clone, Copy)]
struct NodeReferences<'s> {
    sheet: &'s Sheet,
}

impl Requirement<Node> for NodeReferences<'_> {
    ghost use Rattle.xs_check.specs.Passes.{node_reference_fault as Found};

    ghost finds = { λ required. Found required.sheet.now };

    #[tactic(auto, unfolding(crate::specs::Passes::node_reference_fault))]
    fn look(&self, alloc: Global, item: &Node, at: &Place) -> Result<(), FieldFault> {
        let path = at.path(alloc)?;
        of_inputs(alloc, self.sheet, item.inputs(), &path)
    }
}

/// What the list of what is rendered of a sheet names.
fn terminals(alloc: Global, sheet: &Sheet, at: &Path) -> Result<(), FieldFault>
    ensures { Finds result (if_there (in_list (path_of Field.Out at.now) (target_fault sheet.now)) sheet.now.out) }
{
    match &sheet.out {
        Some(list) => each(
            alloc,
            &RefReferences { sheet },
            list.items(),
            at,
            Field::Out,
        ),
        None => Ok(()),
    }
}

/// What the parts of the sheet at a path name.
fn of_sheet(alloc: Global, scene: &Scene, sheet: &Sheet, at: &Path) -> Result<(), FieldFault>
    ensures { Finds result (sheet_reference_fault scene.now at.now sheet.now) }
{
    let pegs = PegReferences { sheet };
    each(alloc, &pegs, sheet.pegs.items(), at, Field::Pegs)?;
    let columns = ColumnReferences { scene, sheet };
    each(alloc, &columns, sheet.columns.items(), at, Field::Columns)?;
    let nodes = NodeReferences { sheet };
    each(alloc, &nodes, sheet.nodes.items(), at, Field::Nodes)?;
    terminals(alloc, sheet, at)
}

/// What the parts of a sheet name.
#[derive(Clone, Copy)]
struct SheetReferences<'s> {
    scene: &'s Scene,
}

impl Requirement<Sheet> for SheetReferences<'_> {
    ghost use Rattle.xs_check.specs.Passes.{sheet_reference_fault as Found};

    ghost finds = { λ required. Found required.scene.now };

    fn look(&self, alloc: Global, item: &Sheet, at: &Place) -> Result<(), FieldFault> {
        let path = at.path(alloc)?;
        of_sheet(alloc, self.scene, item, &path)
    }
}

/// The peg of the camera, which is one of the first sheet.
fn camera(alloc: Global, scene: &Scene, at: &Place) -> Result<(), FieldFault>
    ensures { Finds result (if_there (naming_fault (path_of Field.Peg at.now) (sheet_at scene.now.sheets 0).pegs) scene.now.camera.peg) }
{
    let camera = &scene.camera;
    let peg = camera.peg;
    match scene.sheets.items().first() {
        Some(sheet) => may_name(alloc, at, Field::Peg, sheet.pegs.items(), peg),
        None => may_name::<Peg>(alloc, at, Field::Peg, &[], peg),
    }
}

/// NoSuchReference at a place, unless there is a sheet.
fn has_sheet(alloc: Global, scene: &Scene, at: &Place) -> Result<(), FieldFault>
    ensures { Finds result (unless SceneCode.NoSuchReference at.now (nat_lt 0 (length scene.now.sheets))) }
{
    if scene.sheets.items().is_empty() {
        Err(at.fault(alloc, SceneCode::NoSuchReference))
    } else {
        Ok(())
    }
}

/// What the parts of a scene name, from the object at `top`.
fn of_scene(alloc: Global, scene: &Scene, top: &Path) -> Result<(), FieldFault>
    requires { top.now ≡ [] }
    ensures { Finds result (reference_fault scene.now) }
{
    camera(alloc, scene, &Place::key(top, Field::Camera))?;
    let palettes = scene.palettes.items();
    each(alloc, &PaletteReferences, palettes, top, Field::Palettes)?;
    let levels = LevelReferences { scene };
    each(alloc, &levels, scene.levels.items(), top, Field::Levels)?;
    has_sheet(alloc, scene, &Place::key(top, Field::Sheets))?;
    let sheets = SheetReferences { scene };
    each(alloc, &sheets, scene.sheets.items(), top, Field::Sheets)
}

/// The first number that names nothing; a scene without a sheet is one such place.
pub fn references(alloc: Global, scene: &Scene) -> Result<(), FieldFault>
    ensures { Finds result (reference_fault scene.now) }
{
    let top = Path::root(alloc);
    of_scene(alloc, scene, &top)
}
