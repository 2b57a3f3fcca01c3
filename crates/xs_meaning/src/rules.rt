//! Laws of values, rows and places: the rules as they are told, without a bound of depth.

ghost use Rattle.std.specs.Prelude.{◌≡◌, ℕ, false, ◌+◌, ◌-◌, ◌*◌, ◌<◌, ◌≤◌, ℤ, pos, Option, Some, List, length, slice_index_or, All, MatchOption, Contains, find};
ghost use Rattle.xs_base.specs.declared.limits.TheConstants.{DEEPEST_NEST};
ghost use Rattle.xs_pixel.specs.Channels.{Channels};
ghost use Rattle.xs_meaning.specs.Cells.{cell_at, covers, shown_after};
ghost use Rattle.xs_meaning.specs.Chosen.{IsOnlyAt, IsKeyInForce, IsKeyAfter, HasDistinctRows};
ghost use Rattle.xs_pixel.specs.Picture.{Pictures};
ghost use Rattle.xs_meaning.specs.Ends.{AllEnd, SeenHas, SheetsEnd};
ghost use Rattle.xs_meaning.specs.Expressions.{by_offsets, row_expr, root_of};
ghost use Rattle.xs_meaning.specs.Palettes.{Dropped};
ghost use Rattle.xs_meaning.specs.Places.{own_offset, on_line, LiesBetween, peg_at, place_of, key_in_force, key_after};
ghost use Rattle.xs_pixel.specs.Points.{Point, point, plus};
ghost use Rattle.xs_meaning.specs.RowValues.{by_points, row_of, row_under, value_under, camera_at, frame_of, frame_pixel};
ghost use Rattle.xs_meaning.specs.Tables.{ColumnsFollow, NodesFollow, RowsFollow};
ghost use Rattle.xs_meaning.specs.Walk.{sheet_at, column_at, whole_row, row_walk, walk, depth_of};
ghost use Rattle.xs_scene.specs.Records.{SceneRecord, SheetRecord, PegKeyRecord, ColumnRecord, ExposureRecord};
ghost use Rattle.xs_scene.specs.declared.seen.Seen.TheVariants as Seen;
ghost use Rattle.xs_scene.specs.declared.node.Ref.{Ref};

/// The values of columns, nodes and rows are those of the tables, which know no depth. Those of nodes and
/// rows need that every way through the scene ends, as checking finds.
pub fn values_follow_the_tables()
    ensures columns { (s : SceneRecord) (pictures : Pictures) → ColumnsFollow s pictures }
    ensures nodes { (s : SceneRecord) (pictures : Pictures) → AllEnd s.sheets → NodesFollow s pictures }
    ensures rows { (s : SceneRecord) (pictures : Pictures) → AllEnd s.sheets → RowsFollow s pictures }
{}

/// A column shows at a row what one of its exposures shows there, or nothing: the exposure whose rows
/// contain the row, where there is only one, and nothing in a gap.
pub fn cells_are_chosen_by_row()
    ensures own { (column : ColumnRecord) (row : ℕ)
        → MatchOption (find (covers row) column.cells) (cell_at column row ≡ Seen.Empty)
        (λ e. Contains column.cells e × (cell_at column row ≡ shown_after (row - e.from) e.shown)) }
    ensures shown { (column : ColumnRecord) (row : ℕ) (e : ExposureRecord) → IsOnlyAt column row e
        → cell_at column row ≡ shown_after (row - e.from) e.shown }
    ensures gap { (column : ColumnRecord) (row : ℕ) → All (λ e. covers row e ≡ false) column.cells
        → cell_at column row ≡ Seen.Empty }
{}

/// A peg stands at a row between the last key at or before it and the first key after it; without the
/// former all keys come later, and without the latter none does.
pub fn keys_are_chosen_by_row()
    ensures in_force { (keys : List PegKeyRecord) (row : ℕ)
        → MatchOption (key_in_force keys row) (All (λ k. row < k.row) keys) (IsKeyInForce keys row) }
    ensures after { (keys : List PegKeyRecord) (row : ℕ)
        → MatchOption (key_after keys row) (All (λ k. k.row ≤ row) keys) (IsKeyAfter keys row) }

    // no other key is so, where no two have the same row
    ensures only_in_force { (keys : List PegKeyRecord) (row : ℕ) (a : PegKeyRecord) → HasDistinctRows keys
        → IsKeyInForce keys row a → key_in_force keys row ≡ Some a }
    ensures only_after { (keys : List PegKeyRecord) (row : ℕ) (b : PegKeyRecord) → HasDistinctRows keys
        → IsKeyAfter keys row b → key_after keys row ≡ Some b }
{}

/// On the straight line from one key to the next a coordinate lies between those of the two keys.
pub fn lines_stay_between_their_keys()
    ensures { (from to : ℤ) (done whole : ℕ) → done ≤ whole → 0 < whole → LiesBetween from to (on_line from to done whole) }
{}

/// The place of a peg is its own offset plus the place of its parent.
pub fn place_adds_the_parents_place()
    ensures { (s : SceneRecord) → AllEnd s.sheets → (k i row : ℕ) → i < length (sheet_at s.sheets k).pegs
        → place_of (sheet_at s.sheets k) (Some i) row
        ≡ plus (own_offset (peg_at (sheet_at s.sheets k) i).keys row) (place_of (sheet_at s.sheets k) (peg_at (sheet_at s.sheets k) i).parent row) }
{}

/// A frame has one pixel for each point that the camera sees, in rows from the lowest up and each from left
/// to right.
pub fn frames_go_row_by_row()
    ensures count { (s : SceneRecord) (pictures : Pictures) (row : ℕ)
        → length (frame_of s pictures row) ≡ s.camera.h * s.camera.w }
    ensures order { (s : SceneRecord) (pictures : Pictures) (row x y : ℕ) (outside : Channels)
        → x < s.camera.w → y < s.camera.h
        → slice_index_or (frame_of s pictures row) (y * s.camera.w + x) outside
        ≡ frame_pixel s pictures row (point (pos x) (pos y)) }
{}

/// Where each way from a sheet through exposures has at most so many sheets, each from a sheet that one of
/// its columns sees has one fewer.
pub fn seen_sheets_end_sooner()
    ensures { (sheets : List SheetRecord) (d k c row : ℕ) → SheetsEnd sheets (d + 1) k
        → SeenHas (SheetsEnd sheets d) (cell_at (column_at (sheet_at sheets k) c) row) }
{}

/// To follow nested sheets or nodes further than the bounds of the definitions changes nothing.
pub fn more_depth_changes_nothing()
    ensures row_values { (s : SceneRecord) (pictures : Pictures) → AllEnd s.sheets → (more k row : ℕ) (f : Dropped)
        → row_walk (by_points s pictures) s.sheets (DEEPEST_NEST + more) k row f
        ≡ row_under s pictures k row f }
    ensures row_exprs { (s : SceneRecord) → AllEnd s.sheets → (more k row : ℕ) (f : Dropped)
        → row_walk (by_offsets s) s.sheets (DEEPEST_NEST + more) k row f ≡ row_expr s k row f }
    ensures values { (s : SceneRecord) (pictures : Pictures) → AllEnd s.sheets
        → (more k : ℕ) (n : Ref) (row : ℕ) (f : Dropped)
        → walk (by_points s pictures) (whole_row (by_points s pictures) s.sheets) (sheet_at s.sheets k) (depth_of (sheet_at s.sheets k) + more) n row f
        ≡ value_under s pictures k n row f }
{}

/// A scene of format 1 has in format 2 the same places, rows and root expressions.
pub fn migration_changes_nothing()
    ensures places { (s : SceneRecord) (k : ℕ) (peg : Option ℕ) (row : ℕ)
        → let migrated = record s { format = 2 } in
        place_of (sheet_at migrated.sheets k) peg row ≡ place_of (sheet_at s.sheets k) peg row }
    ensures cameras { (s : SceneRecord) (row : ℕ) → camera_at (record s { format = 2 }) row ≡ camera_at s row }
    ensures rows { (s : SceneRecord) (pictures : Pictures) (k row : ℕ) (p : Point)
        → row_of (record s { format = 2 }) pictures k row p ≡ row_of s pictures k row p }
    ensures roots { (s : SceneRecord) (row : ℕ) → root_of (record s { format = 2 }) row ≡ root_of s row }
{}
