//! The limit of what is held.

/// The most bytes of drawings that are held in a section, four for each pixel.
pub const MOST_SECTION_BYTES: u64 = 1_073_741_824;
