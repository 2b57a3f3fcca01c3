ghost use Rattle.std.specs.Prelude.{◌≡◌, not};

use std::marker::Model;
use xs_scene::{Column, Ref, Sheet};

/// Where terminals are taken from.
#[derive(Clone, Copy)]
pub(crate) enum Rest<'s> {
    /// Listed columns and nodes.
    Listed(&'s [Ref]),
    /// Those of the columns that are not off. The first column has this number.
    On(u32, &'s [Column]),
}

/// Columns and nodes of a sheet from bottom to top, lent by the scene.
#[derive(Drop)]
pub struct Terminals<'s> {
    rest: Rest<'s>,
}

impl<'s> Model for Terminals<'s> {
    ghost use Rattle.std.specs.Prelude.{List};
    ghost use Rattle.xs_scene.specs.declared.node.Ref.{Ref};
    ghost use Rattle.xs_step.specs.Terminals.{terminals_in, HasNumbers};

    ghost Value = { List Ref };

    ghost view = { λ t. terminals_in t.rest };

    ghost invariant = { λ t. HasNumbers t.rest };
}

impl<'s> Terminals<'s> {
    ghost use Rattle.std.specs.Prelude.{◌≡◌, ◌≤◌, ◌+◌, ◌^◌, ◌++◌, [], ◌∷◌, length, MatchOption};
    ghost use Rattle.xs_base.specs.declared.limits.TheConstants.{MOST_COLUMNS};
    ghost use Rattle.xs_meaning.specs.Walk.{terminals_of};
    ghost use Rattle.xs_step.specs.Terminals.{columns_on};

    /// The terminals of a sheet: its `out`, or without one every column that is not off, from left to
    /// right.
    #[tactic(auto, unfolding(xs_meaning::specs::Walk::terminals_of))]
    pub fn of(sheet: &'s Sheet) -> Terminals<'s>
        requires { length sheet.now.columns ≤ MOST_COLUMNS }
        ensures { result ≡ terminals_of sheet.now }
    {
        let rest = match &sheet.out {
            Some(out) => Rest::Listed(out.items()),
            None => Rest::On(0, sheet.columns.items()),
        };
        Terminals { rest }
    }

    /// The lowest one, and those above it.
    pub fn split_first(&self) -> Option<(Ref, Terminals<'s>)>
        ensures { MatchOption result (self.now ≡ []) (λ t. self.now ≡ t.0 ∷ t.1) }
    {
        match self.rest {
            Rest::Listed(terminals) => {
                let (&first, above) = terminals.split_first()?;
                Some((
                    first,
                    Terminals {
                        rest: Rest::Listed(above),
                    },
                ))
            }
            Rest::On(number, columns) => Terminals::first_on(number, columns),
        }
    }

    /// The topmost one, and those below it.
    pub fn split_last(&self) -> Option<(Ref, Terminals<'s>)>
        ensures { MatchOption result (self.now ≡ []) (λ t. self.now ≡ t.1 ++ t.0 ∷ []) }
    {
        match self.rest {
            Rest::Listed(terminals) => {
                let (&last, below) = terminals.split_last()?;
                Some((
                    last,
                    Terminals {
                        rest: Rest::Listed(below),
                    },
                ))
            }
            Rest::On(number, columns) => Terminals::last_on(number, columns),
        }
    }

    /// The first column that is not off, and those after it.
    fn first_on(number: u32, columns: &'s [Column]) -> Option<(Ref, Terminals<'s>)>
        requires { number + length columns.now ≤ MOST_COLUMNS }
        ensures { MatchOption result (columns_on number columns.now ≡ []) (λ t. columns_on number columns.now ≡ t.0 ∷ t.1) }
    {
        let mut next = number;
        let mut rest = columns;
        while let Some((first, above)) = rest.split_first() {
            if is_on(first) {
                return Some((
                    Ref::Column(next),
                    Terminals {
                        rest: Rest::On(next + 1, above),
                    },
                ));
            }
            next += 1;
            rest = above;
        }
        None
    }

    /// The last column that is not off, and those before it.
    fn last_on(number: u32, columns: &'s [Column]) -> Option<(Ref, Terminals<'s>)>
        requires { number + length columns.now ≤ MOST_COLUMNS }
        ensures { MatchOption result (columns_on number columns.now ≡ []) (λ t. columns_on number columns.now ≡ t.1 ++ t.0 ∷ []) }
    {
        let mut rest = columns;
        while let Some((last, below)) = rest.split_last() {
            if is_on(last) {
                return Some((
                    Ref::Column(number + below.len() as u32),
                    Terminals {
                        rest: Rest::On(number, below),
                    },
                ));
            }
            rest = below;
        }
        None
    }
}

/// Whether a column is not off.
fn is_on(column: &Column) -> bool
    ensures { result ≡ not column.now.off }
{
    !column.off
}
