use crate::random::Random;

/// The rows of a range, both ends included.
#[derive(Clone, Copy)]
pub struct Rows {
    pub from: u32,
    pub to: u32,
}

impl Rows {
    /// One to ten rows, of which the first is one of the first four of the sheet.
    pub fn new(random: &mut Random) -> Rows {
        let from = random.from_to(1, 4);
        Rows {
            from,
            to: from + random.below(10),
        }
    }

    /// How many rows there are.
    pub fn count(self) -> u32 {
        self.to.saturating_sub(self.from).saturating_add(1)
    }
}
