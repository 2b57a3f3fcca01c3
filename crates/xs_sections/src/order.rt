ghost use Rattle.std.specs.Prelude.{◌≡◌, ◌<◌, ◌≤◌, ◌+◌, ◌*◌, ◌^◌, IfOk};
ghost use Rattle.xs_plan.specs.Record.{rows_in};
ghost use Rattle.xs_sections.specs.Orders.{IsOrder, row_at};

use std::alloc::Global;
use xs_base::Memory;
use xs_base::limits::SECTION_ROWS;
use xs_plan::Plan;

/// In which order the rows of a section are gathered.
#[derive(Clone, Copy, Debug, PartialEq, Eq)]
pub enum Order {
    /// The first row first.
    FirstFirst,
    /// The last row first.
    LastFirst,
}

/// The rows of a section in an order.
pub fn rows_of(alloc: Global, p: &Plan, s: u32, order: Order) -> Result<Vec<u32>, Memory>
    requires { s * SECTION_ROWS < rows_in p.now }
    ensures { IfOk result (λ v. IsOrder p.now s v.items) }
{
    let all = p.rows();
    let first = s * SECTION_ROWS;
    let count = SECTION_ROWS.min(all - first);
    let mut rows = Vec::new(alloc);
    for i in 0..count {
        rows.push(row(order, first, count, i))?;
    }
    Ok(rows)
}

/// The row at a place of an order of so many rows from one on.
fn row(order: Order, first: u32, rows: u32, i: u32) -> u32
    requires there { i < rows }
    requires small { first + rows < 2 ^ 32 }
    ensures { result ≡ row_at order first rows i }
{
    match order {
        Order::FirstFirst => first + i,
        Order::LastFirst => first + (rows - 1 - i),
    }
}
