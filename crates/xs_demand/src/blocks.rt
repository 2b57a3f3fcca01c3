//! Laws of blocks: every tile of a row gains the same expressions, so that the number of an alias is
//! arithmetic.

ghost use Rattle.std.specs.Prelude.{◌≡◌, ◌≢◌, ◌<◌, ◌≤◌, ◌+◌, ◌-◌, ◌*◌, ◌++◌, ℕ, false, Some, List, [], All, AllPairs, Contains, length, map, slice_get, take};
ghost use Rattle.xs_pixel.specs.declared.operation.Op.{Op};
ghost use Rattle.xs_rect.specs.Area.{Area};
ghost use Rattle.xs_rect.specs.Tiles.{tile_areas};
ghost use Rattle.xs_meaning.specs.Expressions.{Expr, Pair, Blur};
ghost use Rattle.xs_demand.specs.Aliases.{alias, aliases_of, inputs_of, inputs_in};
ghost use Rattle.xs_demand.specs.Limits.{root_in, aliases_through};
ghost use Rattle.xs_demand.specs.Blocks.{GrowApart, Spread, spread, enter, enter_rows, put, has_blur, IsClosed, new_of, alias_on, block, blocks, number_on, inputs_under, inputs_entered};
ghost use Rattle.xs_demand.specs.Shown.{ends_of, tints_in, tints_of};

/// The tiles of a frame, grown by any numbers of points, are equal only where tile and growth are.
pub fn frame_tiles_grow_apart()
    ensures { (w h : ℕ) → GrowApart (tile_areas w h) }
{}

/// The aliases of rows are one block after another, since all tiles of a row gain the same expressions; and
/// after a row and tile there are the blocks of the earlier rows and that row's on the tiles up to this one.
pub fn demand_goes_in_blocks()
    ensures all { (tiles : List Area) (roots : List Expr) → GrowApart tiles
        → aliases_of tiles roots ≡ blocks tiles roots [] }
    ensures through { (tiles : List Area) (roots : List Expr) (row tile : ℕ) → GrowApart tiles
        → aliases_through tiles roots row tile
        ≡ blocks tiles (take row roots) []
        ++ block (take (tile + 1) tiles) (new_of (root_in roots row) (enter_rows (take row roots) [])) }
{}

/// The number of an alias is told by the place of its expression among all that rows enter and by its tile:
/// all tiles count for each expression of an earlier row, and in its own row the earlier tiles for each of
/// the row's new expressions. Its inputs are those of the expression, on the same tile.
pub fn numbers_in_blocks()
    ensures numbers { (tiles : List Area) (roots : List Expr) (j t : ℕ) (tile : Area) (x : Spread)
        → GrowApart tiles → slice_get tiles t ≡ Some tile → slice_get (enter_rows roots []) j ≡ Some x
        → slice_get (aliases_of tiles roots) (number_on (length tiles) roots [] j t) ≡ Some (alias_on tile x) }
    ensures inputs { (tile : Area) (x : Spread)
        → inputs_of (alias_on tile x) ≡ map (alias_on tile) (inputs_under x.expr x.growth) }
    ensures number_of_row { (tiles : ℕ) (roots : List Expr) (row j t : ℕ) → row < length roots
        → length (enter_rows (take row roots) []) ≤ j → j < length (enter_rows (take (row + 1) roots) [])
        → number_on tiles roots [] j t
        ≡ tiles * length (enter_rows (take row roots) [])
        + (t * length (new_of (root_in roots row) (enter_rows (take row roots) []))
        + (j - length (enter_rows (take row roots) []))) }
{}

/// How many aliases there are, and how many inputs they have, after a row and tile and in all; and how many
/// there are after each row.
pub fn counts_in_blocks()
    ensures aliases_through { (tiles : List Area) (roots : List Expr) (row tile : ℕ) → GrowApart tiles
        → tile < length tiles
        → length (aliases_through tiles roots row tile)
        ≡ length tiles * length (enter_rows (take row roots) [])
        + (tile + 1) * length (new_of (root_in roots row) (enter_rows (take row roots) [])) }
    ensures inputs_through { (tiles : List Area) (roots : List Expr) (row tile : ℕ) → GrowApart tiles
        → tile < length tiles
        → inputs_in (aliases_through tiles roots row tile)
        ≡ length tiles * inputs_entered (enter_rows (take row roots) [])
        + (tile + 1) * inputs_entered (new_of (root_in roots row) (enter_rows (take row roots) [])) }
    ensures ends { (tiles : List Area) (roots : List Expr) (row : ℕ) → GrowApart tiles → row < length roots
        → slice_get (ends_of tiles roots []) row
        ≡ Some (length tiles * length (enter_rows (take (row + 1) roots) [])) }
    ensures aliases { (tiles : List Area) (roots : List Expr) → GrowApart tiles
        → length (aliases_of tiles roots) ≡ length tiles * length (enter_rows roots []) }
    ensures inputs { (tiles : List Area) (roots : List Expr) → GrowApart tiles
        → inputs_in (aliases_of tiles roots) ≡ length tiles * inputs_entered (enter_rows roots []) }
{}

/// Where the inputs of all that was entered stand in the list too, an expression's inputs are entered
/// first and then the expression itself, where it is not there: nothing need be known of it before. Lists of
/// rows are of this kind, and an expression that was entered changes nothing.
pub fn entering_needs_no_look_before_the_inputs()
    ensures pair { (op : Op) (a b : Expr) (g : ℕ) (l : List Spread) → IsClosed l
        → enter (Pair op a b) g l ≡ put (spread (Pair op a b) g) (enter b g (enter a g l)) }
    ensures blur { (n : ℕ) (a : Expr) (g : ℕ) (l : List Spread) → IsClosed l
        → enter (Blur n a) g l ≡ put (spread (Blur n a) g) (enter a (g + n) l) }
    ensures closed { (e : Expr) (g : ℕ) (l : List Spread) → IsClosed l → IsClosed (enter e g l) }
    ensures closed_rows { (roots : List Expr) → IsClosed (enter_rows roots []) }
    ensures entered { (e : Expr) (g : ℕ) (l : List Spread) → IsClosed l → Contains (enter e g l) (spread e g) }
    ensures kept { (e : Expr) (g : ℕ) (l : List Spread) (x : Spread) → Contains l x → Contains (enter e g l) x }
    ensures again { (e : Expr) (g : ℕ) (l : List Spread) → Contains l (spread e g) → enter e g l ≡ l }
{}

/// What rows enter, they enter once; and where no row has a blur, no tile is grown, so that a row's block
/// is its new expressions on each tile.
pub fn no_spread_stands_twice()
    ensures once { (roots : List Expr) → AllPairs (λ x y. x ≢ y) (enter_rows roots []) }
    ensures ungrown { (roots : List Expr) → All (λ e. has_blur e ≡ false) roots
        → All (λ x. x.growth ≡ 0) (enter_rows roots []) }
    ensures on_tiles { (tile : Area) (x : Spread) → x.growth ≡ 0 → alias_on tile x ≡ alias x.expr tile }
{}

/// The tints of all aliases are those of the expressions that rows enter, in the order in which they are
/// entered first.
pub fn tints_come_by_first_visit()
    ensures { (tiles : List Area) (roots : List Expr) → 0 < length tiles → GrowApart tiles
        → tints_of (aliases_of tiles roots) ≡ tints_in (map (λ x. x.expr) (enter_rows roots [])) }
{}
