//! Directed graphs given by lists of links: for each node the numbers of those that it links to. Which node is
//! the first on a cycle, and at which the first chain begins that is too long.
#![tactic(auto)]

mod chains;
mod labels;
pub mod laws;
mod search;
mod walk;

pub use chains::first_long;
pub use labels::{ByLabels, first_by_labels, first_on_cycle};
pub use search::first_by_search;
pub use walk::labels_of;
