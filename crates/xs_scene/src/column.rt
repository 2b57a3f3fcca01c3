use crate::in_range::each_in_range;
use crate::range::{is_reference, is_reference_or_none, is_row};
use std::marker::Model;
use xs_base::List;

/// What an exposure shows. Levels, drawings and sheets have numbers from 0.
#[derive(Clone, Copy, Debug, PartialEq, Eq)]
pub enum Shown {
    /// Drawing `index` of the level, held over all rows of the exposure.
    Drawing { level: u32, index: u32 },
    /// The rows of the sheet from `start` on, one for each row of the exposure.
    Sheet { sheet: u32, start: u32 },
}

impl Shown {
    ghost use Rattle.std.specs.Prelude.{◌↔◌, IsTrue};
    ghost use Rattle.xs_scene.specs.Ranges.{IsShown};

    pub(crate) fn is_in_range(self) -> bool
        ensures { IsTrue result ↔ IsShown self }
    {
        match self {
            Shown::Drawing { level, index } => is_reference(level) && is_reference(index),
            Shown::Sheet { sheet, start } => is_reference(sheet) && is_row(start),
        }
    }
}

/// The cells of a column that show one drawing, or one run of rows of a sheet: rows `from` to `to`, both
/// included.
#[derive(Clone, Copy, Debug, PartialEq, Eq)]
pub struct Exposure {
    pub from: u32,
    pub to: u32,
    pub shown: Shown,
}

impl Model for Exposure {
    ghost use Rattle.xs_scene.specs.Records.{ExposureRecord};

    ghost Value = { ExposureRecord };

    ghost use Rattle.xs_scene.specs.Ranges.{IsExposure};

    ghost view = { λ e. record { from = e.from; to = e.to; shown = e.shown } };

    ghost invariant = { λ e. IsExposure (record { from = e.from; to = e.to; shown = e.shown }) };

    ghost inverse = { λ e. record { from = e.from; to = e.to; shown = e.shown } };
}

impl Exposure {
    ghost use Rattle.std.specs.Option.{SomeIff};
    ghost use Rattle.xs_scene.specs.Records.{ExposureRecord};
    ghost use Rattle.xs_scene.specs.Ranges.{IsExposure};

    /// The exposure with these fields; None exactly where one is out of its range or `to` is less than
    /// `from`.
    pub fn new(from: u32, to: u32, shown: Shown) -> Option<Exposure>
        ensures { let cell : ExposureRecord = record { from = from; to = to; shown = shown } in
            SomeIff result (IsExposure cell) cell }
    {
        if is_row(from) && is_row(to) && from <= to && shown.is_in_range() {
            Some(Exposure { from, to, shown })
        } else {
            None
        }
    }
}

/// A column of the exposure sheet, with the peg of the sheet that it hangs on, if any. A column that is
/// `off` is left out where the sheet doesn't list what it renders. The exposures stand in any order.
#[derive(Debug, Drop)]
pub struct Column {
    pub peg: Option<u32>,
    pub off: bool,
    pub cells: List<Exposure>,
}

impl Model for Column {
    ghost use Rattle.xs_scene.specs.Records.{ColumnRecord};

    ghost Value = { ColumnRecord };

    ghost use Rattle.xs_scene.specs.InRange.{ColumnInRange};

    ghost view = { λ c. record { peg = c.peg; off = c.off; cells = c.cells } };

    ghost invariant = { λ c. ColumnInRange (record { peg = c.peg; off = c.off; cells = c.cells }) };
}

impl Column {
    ghost use Rattle.std.specs.Prelude.{IfSome};
    ghost use Rattle.std.specs.Option.{SomeIff};
    ghost use Rattle.xs_scene.specs.Ranges.{IsReference};

    /// The column with these fields; None exactly where the peg's number is out of its range.
    pub fn new(peg: Option<u32>, off: bool, cells: List<Exposure>) -> Option<Column>
        ensures { SomeIff result (IfSome peg IsReference) (record { peg = peg; off = off; cells = cells }) }
    {
        if is_reference_or_none(peg) {
            each_in_range(&cells);
            Some(Column { peg, off, cells })
        } else {
            None
        }
    }
}
