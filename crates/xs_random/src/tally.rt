use crate::compare::Found;
use std::fmt;

/// What came of the scenes of a kind.
#[derive(Clone, Copy)]
pub struct Tally {
    scenes: u32,
    frames: u32,
    clear: u32,
    refused: u32,
    different: u32,
}

impl Tally {
    /// No scene yet.
    pub fn new() -> Tally {
        Tally {
            scenes: 0,
            frames: 0,
            clear: 0,
            refused: 0,
            different: 0,
        }
    }

    /// Counts a scene; false where its frames are not those of the plain evaluator.
    pub fn count(&mut self, found: Found) -> bool {
        self.scenes = self.scenes.saturating_add(1);
        match found {
            Found::Equal { frames, clear } => {
                self.frames = self.frames.saturating_add(frames);
                self.clear = self.clear.saturating_add(clear);
                true
            }
            Found::Refused => {
                self.refused = self.refused.saturating_add(1);
                true
            }
            Found::Ended(_) | Found::Count(_) | Found::Differs(_) => {
                self.different = self.different.saturating_add(1);
                false
            }
        }
    }
}

impl fmt::Display for Tally {
    fn fmt<W: fmt::Write>(&self, f: &mut fmt::Formatter<W>) -> fmt::Result {
        let Tally {
            scenes,
            frames,
            clear,
            refused,
            different,
        } = *self;
        write!(
            f,
            "{scenes} scenes, {frames} frames, {clear} of them clear, {refused} scenes refused, "
        )?;
        if different == 0 {
            f.write_str("equal")
        } else {
            write!(f, "{different} different")
        }
    }
}
