//! The top of the renderer: from the words of a command line and an outside to frames on the shelf,
//! lines in the notes and a status. What a run does is one definition, `outcome` of specs/Outcome:
//! the files that it asks for, the frames that it puts on the shelf and the lines that it writes, in
//! order, and its answer; the contract of `run` says what each answer has done of it.
#![tactic(auto)]

mod benches;
mod calls;
mod command;
mod demand;
mod drawing_laws;
mod frame_laws;
mod frames;
mod laws;
pub mod limits;
mod loading;
mod make;
mod outside;
mod render;
mod scene;
mod scene_laws;
mod shown;
mod status;
mod sums;
mod texts;

pub use benches::lane_benches;
pub use calls::{dry, make_alone, render_alone, show};
pub use command::run;
pub use drawing_laws::{
    drawings_are_asked_for_in_their_section, the_drawings_of_rows_are_loaded_once,
    the_first_drawing_past_the_limit_is_told, the_first_refused_drawing_is_told,
};
pub use frame_laws::{frames_have_names_of_their_own, sections_have_eight_rows};
pub use laws::{
    a_good_scene_is_rendered, files_have_their_limits, only_a_good_scene_is_rendered,
    renders_show_the_rules,
};
pub use make::generated_scenes_are_rendered_whole;
pub use scene_laws::scenes_without_a_file_are_told;
pub use status::{Status, status_number};
pub use texts::fault_text;
