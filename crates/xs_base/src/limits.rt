//! The limits of the formats. Code, definitions and documents cite each by its name here.

// ---- rows

/// The last row of an exposure sheet; rows count from 1.
pub const LAST_ROW: u32 = 9999;

/// The last row of a range is at most so many rows after its first: a range has at most 4096 rows.
pub const LONGEST_SPAN: u32 = 4095;

/// The same where two scenes are rendered, which have at most 4096 rows together.
pub const LONGEST_SPAN_OF_TWO: u32 = 2047;

/// The most rows of a generated scene.
pub const MOST_GENERATED_ROWS: u32 = 240;

/// The rows of a section; the last one may have fewer.
pub const SECTION_ROWS: u32 = 8;

// ---- lists of a scene

/// The most styles of a palette.
pub const MOST_STYLES: usize = 4096;

/// The most keys of a palette.
pub const MOST_STYLE_KEYS: usize = 4096;

/// The most styles that a palette filter lists.
pub const MOST_FILTER_STYLES: usize = 4096;

/// The most rows that a shuffle lists.
pub const LONGEST_SHUFFLE: usize = 9999;

/// The most columns of a sheet.
pub const MOST_COLUMNS: usize = 1024;

/// The most nodes of a sheet.
pub const MOST_NODES: usize = 256;

/// The most columns and nodes that a sheet lists to be rendered.
pub const MOST_TERMINALS: usize = 1024;

/// The most pegs of a chain of parents.
pub const LONGEST_PEG_CHAIN: u32 = 64;

/// The most sheets of which each shows the next.
pub const DEEPEST_NEST: u32 = 16;

// ---- numbers of a scene

/// The greatest number by which a text can refer to a thing, whether or not there is such a thing.
pub const GREATEST_REFERENCE: u32 = 1_000_000_000;

/// How many style numbers there are: the ink and the paint of a word, and a style that a palette filter
/// lists, are below this number.
pub const STYLE_NUMBERS: u32 = 4096;

/// The greatest radius of a blur, in pixels; the least is 1.
pub const GREATEST_RADIUS: u32 = 16;

/// The farthest that a peg key sets its peg from 0 along an axis, either way, in pixels.
pub const FARTHEST_OFFSET: u32 = 65_536;

/// The farthest that a peg lies from 0 along an axis with all its parents, either way, in pixels.
pub const FARTHEST_PLACE: u32 = LONGEST_PEG_CHAIN * FARTHEST_OFFSET;

/// The longest side of a camera, in pixels; the shortest is 1.
pub const LONGEST_CAMERA_SIDE: u32 = 4096;

// ---- files

/// The longest side of a drawing, in pixels; the shortest is 1.
pub const LONGEST_DRAWING_SIDE: u32 = 4096;

/// The farthest that the corner of a drawing's box lies from 0 along an axis, either way, in pixels.
pub const FARTHEST_CORNER: u32 = 65_536;

/// The most bytes of the name of a file.
pub const LONGEST_NAME: usize = 200;

/// The most bytes of the name under which frames are put.
pub const LONGEST_BASE: usize = 180;

/// The most bytes of a scene file.
pub const SCENE_LIMIT: u64 = 16_777_216;

/// The most bytes of the file of a drawing: a head of 21 and the longest sides.
pub const DRAWING_LIMIT: u64 = 67_108_885;

// ---- a run

/// The most workers.
pub const MOST_WORKERS: u32 = 64;

/// Seeds of generated scenes are below this number.
pub const SEEDS: u32 = 1_000_000_000;
