//! The numbers of aliases, by arithmetic alone.

ghost use Rattle.std.specs.Prelude.{◌≡◌, ◌<◌, ◌≤◌, ◌+◌, ◌*◌, ◌-◌, ◌^◌, ◌++◌, ◌∷◌, List, [], OnOk, length, map, replicate, slice_index};
ghost use Rattle.std.specs.List.{range_with_len};
ghost use Rattle.xs_meaning.specs.Expressions.{Expr};
ghost use Rattle.xs_demand.specs.Blocks.{enter, enter_rows, number_on};
ghost use Rattle.xs_dryrun.specs.Numbers.{AreNumbers};

use std::alloc::Global;
use xs_base::Memory;

/// Where the aliases of what rows enter stand: each tile of a row has the row's new expressions in order.
#[derive(Drop)]
pub(crate) struct Rows {
    pub(crate) tiles: u32,
    // the number of each expression's alias on tile 0
    pub(crate) firsts: Vec<u32>,
    // how many numbers further on its alias on the next tile stands
    pub(crate) strides: Vec<u32>,
}

impl Rows {
    /// No row yet; each will have so many tiles.
    pub(crate) fn new(alloc: Global, tiles: u32) -> Rows
        ensures tiles { result.tiles ≡ tiles }
        ensures numbers { AreNumbers tiles [] result.firsts.items result.strides.items }
    {
        Rows {
            tiles,
            firsts: Vec::new(alloc),
            strides: Vec::new(alloc),
        }
    }

    /// Adds a row, after which so many expressions were entered.
    pub(crate) fn add(&mut self, entered: u32) -> Result<(), Memory>
        requires more { length self.old.firsts.items ≤ entered }
        requires some { 1 ≤ self.old.tiles }
        requires room { self.old.tiles * entered < 2 ^ 31 }
        ensures tiles { self.new.tiles ≡ self.old.tiles }
        ensures numbers { OnOk result ((roots : List Expr) (e : Expr)
            → AreNumbers self.old.tiles roots self.old.firsts.items self.old.strides.items
            → entered ≡ length (enter e 0 (enter_rows roots []))
            → AreNumbers self.old.tiles (roots ++ e ∷ []) self.new.firsts.items self.new.strides.items) }
    {
        let before = self.firsts.len() as u32;
        self.extend(self.tiles * before, entered - before)
    }

    /// Adds a row of so many new expressions, the first of which has this number on tile 0.
    fn extend(&mut self, first: u32, stride: u32) -> Result<(), Memory>
        requires { first + stride < 2 ^ 32 }
        ensures tiles { self.new.tiles ≡ self.old.tiles }
        ensures firsts { OnOk result (self.new.firsts.items
            ≡ self.old.firsts.items ++ map (λ k. first + k) (range_with_len 0 stride)) }
        ensures strides { OnOk result (self.new.strides.items ≡ self.old.strides.items ++ replicate stride stride) }
    {
        for i in 0..stride {
            self.firsts.push(first + i)?;
            self.strides.push(stride)?;
        }
        Ok(())
    }

    /// The number of the alias of an expression on a tile.
    pub(crate) fn number(&self, j: u32, tile: u32) -> u32
        requires there { j < length self.now.firsts.items }
        requires many { length self.now.strides.items ≡ length self.now.firsts.items }
        requires fits { slice_index self.now.firsts.items j + tile * slice_index self.now.strides.items j < 2 ^ 32 }
        ensures is { result ≡ slice_index self.now.firsts.items j + tile * slice_index self.now.strides.items j }
        ensures number { (roots : List Expr) → AreNumbers self.now.tiles roots self.now.firsts.items self.now.strides.items
            → result ≡ number_on self.now.tiles roots [] j tile }
    {
        self.firsts[j as usize] + tile * self.strides[j as usize]
    }
}
