//! What is looked up by row.
ghost use Rattle.std.specs.Prelude.{◌≡◌, ◌≤◌, ◌↔◌, ℕ};
ghost use Rattle.std.specs.Prelude.{List as Items};

use xs_scene::{Colours, Column, Exposure, Peg, PegKey, StyleKey};

/// An item that stands in rows and is looked up by them. Items of one group are looked up together, and no two
/// of them may share a row.
pub trait HasRow: Copy {
    ghost use Rattle.xs_index.specs.Apart.{ShareNoRow};

    ghost group_of: { Self → ℕ };

    ghost row_of: { Self → ℕ };

    /// The last row in which an item stands.
    ghost last_of: { Self → ℕ };

    /// Two stand apart.
    ghost apart: { Self → Self → Type 0 };

    /// The group in which the item is looked up.
    fn group(&self) -> u32
        ensures { result ≡ group_of self.now };

    /// The row from which on the item holds.
    fn row(&self) -> u32
        ensures { result ≡ row_of self.now };

    /// The first and the last row in which the item stands.
    fn rows(&self) -> (u32, u32)
        ensures first { result.0 ≡ row_of self.now }
        ensures last { result.1 ≡ last_of self.now }
        ensures span { result.0 ≤ result.1 };

    ghost told: { (a b : Self) → apart a b ↔ ShareNoRow group_of row_of last_of a b };
}

/// The exposures of a column are one group.
impl HasRow for Exposure {
    ghost use Rattle.xs_index.specs.Apart.{AreApart};
    ghost use Rattle.xs_index.specs.ApartTold.{cells_told};

    ghost group_of = { λ _. 0 };

    ghost row_of = { λ e. e.from };

    ghost last_of = { λ e. e.to };

    ghost apart = { AreApart };

    ghost told = { cells_told };

    fn group(&self) -> u32 {
        0
    }

    fn row(&self) -> u32 {
        self.from
    }

    fn rows(&self) -> (u32, u32) {
        (self.from, self.to)
    }
}

/// The keys of a peg are one group.
impl HasRow for PegKey {
    ghost use Rattle.xs_index.specs.Apart.{DifferInRow};
    ghost use Rattle.xs_index.specs.ApartTold.{peg_keys_told};

    ghost group_of = { λ _. 0 };

    ghost row_of = { λ k. k.row };

    ghost last_of = { λ k. k.row };

    ghost apart = { DifferInRow };

    ghost told = { peg_keys_told };

    fn group(&self) -> u32 {
        0
    }

    fn row(&self) -> u32 {
        self.row
    }

    fn rows(&self) -> (u32, u32) {
        (self.row, self.row)
    }
}

/// The keys of a palette are a group for each style.
impl HasRow for StyleKey {
    ghost use Rattle.xs_index.specs.Apart.{DifferInRowOrStyle};
    ghost use Rattle.xs_index.specs.ApartTold.{style_keys_told};

    ghost group_of = { λ k. k.style };

    ghost row_of = { λ k. k.row };

    ghost last_of = { λ k. k.row };

    ghost apart = { DifferInRowOrStyle };

    ghost told = { style_keys_told };

    fn group(&self) -> u32 {
        self.style
    }

    fn row(&self) -> u32 {
        self.row
    }

    fn rows(&self) -> (u32, u32) {
        (self.row, self.row)
    }
}

/// A thing with a list of such items.
pub(crate) trait HasItems {
    type Item: HasRow;

    ghost items_of: { Self → Items Self.Item };

    /// Its items as they stand.
    fn items(&self) -> &[Self::Item]
        ensures { result.now ≡ items_of self.now };
}

impl HasItems for Column {
    type Item = Exposure;

    ghost items_of = { λ column. column.cells };

    fn items(&self) -> &[Exposure] {
        self.cells.items()
    }
}

impl HasItems for Peg {
    type Item = PegKey;

    ghost items_of = { λ peg. peg.keys };

    fn items(&self) -> &[PegKey] {
        self.keys.items()
    }
}

impl HasItems for Colours {
    type Item = StyleKey;

    ghost items_of = { λ palette. palette.keys };

    fn items(&self) -> &[StyleKey] {
        self.keys.items()
    }
}
