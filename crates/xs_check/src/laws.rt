//! Laws of checking.
ghost use Rattle.std.specs.Prelude.{◌≡◌, ◌↔◌, ◌<◌, ℕ, true, Option, None, Some, [], ◌∷◌, All, length};
ghost use Rattle.std.specs.Prelude.{List as Items};
ghost use Rattle.xs_fault.specs.declared.code.SceneCode.{SceneCode};
ghost use Rattle.xs_fault.specs.declared.fault.SceneFault.{SceneFault};
ghost use Rattle.xs_scene.specs.InRange.{IsInRange};
ghost use Rattle.xs_scene.specs.Records.{SceneRecord, StyleKeyRecord, ColumnRecord};
ghost use Rattle.xs_scene.specs.declared.node.Node.{Node};
ghost use Rattle.xs_scene.specs.declared.node.Node.TheVariants.{Shuffle};
ghost use Rattle.xs_pixel.specs.declared.style.Style.{Style};
ghost use Rattle.xs_base.specs.declared.limits.TheConstants.{MOST_STYLES, MOST_STYLE_KEYS, LONGEST_SHUFFLE, MOST_COLUMNS, MOST_NODES, MOST_TERMINALS};
ghost use Rattle.xs_meaning.specs.Ends.{AllEnd};
ghost use Rattle.xs_meaning.specs.Expressions.{drawings_of, root_of};
ghost use Rattle.xs_check.specs.Codes.{is_of_checking};
ghost use Rattle.xs_check.specs.Good.{IsGood, files_of};
ghost use Rattle.xs_check.specs.Passes.{Checking, first_fault};
ghost use Rattle.xs_check.specs.Told.{Tells, HasNoFault, IsFirstFault, palette_path, level_path, sheet_path, peg_path, column_path, cell_path, node_path};
ghost use Rattle.xs_check.specs.Samples.{naming, standing, listing};
ghost use Rattle.xs_fault.specs.Paths.{index_at, path_of};
ghost use Rattle.xs_fault.specs.declared.code.SceneCode.TheVariants as codes;
ghost use Rattle.xs_fault.specs.declared.field.Field.TheVariants as fields;
ghost use Rattle.xs_scene.specs.declared.node.Ref.{Ref};
ghost use Rattle.xs_scene.specs.declared.node.Ref.TheVariants.{Column as ToColumn, Node as ToNode};
ghost use Rattle.xs_check.specs.Finding.{Finding, in_list};

use xs_graph::laws::{
    chains_are_told_link_by_link, chains_without_a_cycle_are_short, cycles_are_told_node_by_node,
};

/// Checking finds in each scene its first fault or nothing, and no second thing.
pub fn checking_finds_one_thing()
    ensures there { (s : SceneRecord) → (found : Option SceneFault) × Checking s found }
    ensures one { (s : SceneRecord) (found other : Option SceneFault) → Checking s found → Checking s other
        → found ≡ other }
{}

/// A fault that checking finds has one of the codes of checking.
pub fn checking_finds_its_codes()
    ensures { (s : SceneRecord) (fault : SceneFault) → Checking s (Some fault) → is_of_checking fault.code ≡ true }
{
    faults_tell_what_is_wrong_first();
}

/// A scene without a fault is good where its values are in their ranges, and the walks over it end.
pub fn scenes_without_a_fault_are_good()
    ensures good { (s : SceneRecord) → first_fault s ≡ None → IsInRange s → IsGood s }
    ensures ends { (s : SceneRecord) → first_fault s ≡ None → AllEnd s.sheets }
{
    cycles_are_told_node_by_node();
    chains_are_told_link_by_link();
    chains_without_a_cycle_are_short();
}

/// The drawings of a row of a good scene are drawings of its levels.
pub fn drawings_of_rows_are_there()
    ensures { (s : SceneRecord) → IsGood s → (row : ℕ) → All (λ d. d < length (files_of s.levels)) (drawings_of (root_of s row)) }
{}

/// Each code is told exactly where its own fault is the first that is looked for: what is told is wrong at its
/// path, and nothing is that is looked for before.
pub fn faults_tell_what_is_wrong_first()
    ensures tells { (s : SceneRecord) (fault : SceneFault) → first_fault s ≡ Some fault → Tells s fault.code fault.path }
    ensures told { (s : SceneRecord) (code : SceneCode) (at : Items ℕ) → Tells s code at
        → (fault : SceneFault) × (first_fault s ≡ Some fault) × (fault.code ≡ code) }
    ensures one { (s : SceneRecord) (code : SceneCode) (at : Items ℕ) → Tells s code at
        → ((other : Items ℕ) → Tells s code other → other ≡ at) → first_fault s ≡ Some (record { code = code; path = at }) }
    ensures none { (s : SceneRecord) → (first_fault s ≡ None) ↔ HasNoFault s }
{
    cycles_are_told_node_by_node();
    chains_are_told_link_by_link();
}

/// What is told of a list is the fault of its first element that has one.
pub fn lists_tell_their_first_fault<T>()
    ensures { (at : Items ℕ) (find : Items ℕ → T → Finding) (xs : Items T) (fault : SceneFault) → in_list at find xs ≡ Some fault
        → IsFirstFault at find xs fault }
{}

/// Of numbers that name nothing the first is told in this order: of the camera, of a palette, of a level, and in a
/// sheet of a peg, of a column and its cells, of a node and of what is rendered.
pub fn references_are_told_in_order()
    ensures camera { (style palette parent peg level : ℕ) (input out : Ref)
        → first_fault (naming 1 style palette parent peg level input out)
        ≡ Some (record { code = codes.NoSuchReference; path = path_of fields.Peg (path_of fields.Camera []) }) }
    ensures palette { (palette parent peg level : ℕ) (input out : Ref) → first_fault (naming 0 1 palette parent peg level input out)
        ≡ Some (record { code = codes.NoSuchReference; path = path_of fields.Style (index_at (path_of fields.Keys (palette_path 0)) 0) }) }
    ensures level { (parent peg level : ℕ) (input out : Ref) → first_fault (naming 0 0 1 parent peg level input out)
        ≡ Some (record { code = codes.NoSuchReference; path = path_of fields.Palette (level_path 0) }) }
    ensures peg { (peg level : ℕ) (input out : Ref) → first_fault (naming 0 0 0 1 peg level input out)
        ≡ Some (record { code = codes.NoSuchReference; path = path_of fields.Parent (peg_path 0 0) }) }
    ensures column { (level : ℕ) (input out : Ref) → first_fault (naming 0 0 0 0 1 level input out)
        ≡ Some (record { code = codes.NoSuchReference; path = path_of fields.Peg (column_path 0 0) }) }
    ensures cell { (input out : Ref) → first_fault (naming 0 0 0 0 0 1 input out)
        ≡ Some (record { code = codes.NoSuchReference; path = path_of fields.Level (cell_path 0 0 0) }) }
    ensures node { (out : Ref) → first_fault (naming 0 0 0 0 0 0 (ToColumn 1) out)
        ≡ Some (record { code = codes.NoSuchReference; path = path_of fields.Column (path_of fields.Input (node_path 0 0)) }) }
    ensures out { first_fault (naming 0 0 0 0 0 0 (ToColumn 0) (ToNode 1))
        ≡ Some (record { code = codes.NoSuchReference; path = path_of fields.Node (index_at (path_of fields.Out (sheet_path 0)) 0) }) }
{}

/// Of what stands where an earlier thing stands the first is told in this order: the keys of palettes, the drawings,
/// and in a sheet the keys of pegs and the cells of columns.
pub fn overlaps_are_told_in_order()
    ensures palette { (file peg_row cell_row : ℕ) → first_fault (standing 1 file peg_row cell_row)
        ≡ Some (record { code = codes.Overlap; path = index_at (path_of fields.Keys (palette_path 0)) 1 }) }
    ensures drawing { (peg_row cell_row : ℕ) → first_fault (standing 2 1 peg_row cell_row)
        ≡ Some (record { code = codes.Overlap; path = index_at (path_of fields.Drawings (level_path 0)) 1 }) }
    ensures peg { (cell_row : ℕ) → first_fault (standing 2 2 1 cell_row)
        ≡ Some (record { code = codes.Overlap; path = index_at (path_of fields.Keys (peg_path 0 0)) 1 }) }
    ensures cell { first_fault (standing 2 2 2 1) ≡ Some (record { code = codes.Overlap; path = cell_path 0 0 1 }) }
{}

/// Of lists that are too long the first is told in this order: the styles and the keys of a palette, and in a sheet its
/// columns, its nodes, the entries of a node and what is rendered.
pub fn lengths_are_told_in_order()
    ensures styles { (styles : Items Style) (keys : Items StyleKeyRecord) (columns : Items ColumnRecord) (nodes : Items Node) (out : Items Ref)
        → MOST_STYLES < length styles
        → first_fault (listing styles keys columns nodes out) ≡ Some (record { code = codes.TooMany; path = palette_path 0 }) }
    ensures keys { (keys : Items StyleKeyRecord) (columns : Items ColumnRecord) (nodes : Items Node) (out : Items Ref)
        → MOST_STYLE_KEYS < length keys
        → first_fault (listing [] keys columns nodes out) ≡ Some (record { code = codes.TooMany; path = path_of fields.Keys (palette_path 0) }) }
    ensures columns { (columns : Items ColumnRecord) (nodes : Items Node) (out : Items Ref) → MOST_COLUMNS < length columns
        → first_fault (listing [] [] columns nodes out) ≡ Some (record { code = codes.TooMany; path = path_of fields.Columns (sheet_path 0) }) }
    ensures nodes { (nodes : Items Node) (out : Items Ref) → MOST_NODES < length nodes
        → first_fault (listing [] [] [] nodes out) ≡ Some (record { code = codes.TooMany; path = path_of fields.Nodes (sheet_path 0) }) }
    ensures entries { (input : Ref) (list : Items ℕ) (out : Items Ref) → LONGEST_SHUFFLE < length list
        → first_fault (listing [] [] [] (Shuffle input list ∷ []) out)
        ≡ Some (record { code = codes.TooMany; path = path_of fields.List (node_path 0 0) }) }
    ensures out { (out : Items Ref) → MOST_TERMINALS < length out
        → first_fault (listing [] [] [] [] out) ≡ Some (record { code = codes.TooMany; path = path_of fields.Out (sheet_path 0) }) }
{}
