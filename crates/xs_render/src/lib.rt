//! The rows of a plan rendered by demand at a seat that is alone: section by section all that comes first in it is
//! made, each alias once, and then its rows are gathered in order; and what the frames of a scene's plan show.
#![tactic(auto)]

mod frame;
mod laws;
mod progress;
mod row;
mod section;

pub use frame::new_frame;
pub use laws::{
    a_section_has_its_drawings, frames_by_demand_are_those_of_the_scene,
    sections_of_a_plan_are_those_of_its_rows,
};
pub use progress::{a_section_is_rendered, all_is_rendered, nothing_is_rendered_yet};
pub use row::{render_row, row_bytes};
pub use section::make_section;
