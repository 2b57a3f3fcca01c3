//! Pixels of CM32 drawings: a word names an ink style and a paint style and says how they mix.
#![tactic(auto)]

mod word;

pub use word::{Cm32, colour, pure_tones, word_at, word_layout, words_have_pixels};
