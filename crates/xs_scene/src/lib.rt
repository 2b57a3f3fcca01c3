//! The scene: exposure sheets with their pegs, columns and nodes, the levels of drawings and the
//! palettes. Each struct keeps its ranges, those of the enums in it included; whether what a number names
//! is there is not its concern.
#![tactic(auto)]

mod colours;
mod column;
mod in_range;
mod level;
mod name;
mod node;
mod peg;
mod range;
mod scene;
mod seen;
mod sheet;

pub use colours::{Colours, StyleKey};
pub use column::{Column, Exposure, Shown};
pub use level::{Kind, Level};
pub use name::Name;
pub use node::{Inputs, Node, Ref};
pub use peg::{Peg, PegKey};
pub use scene::{Camera, Scene};
pub use seen::Seen;
pub use sheet::Sheet;
