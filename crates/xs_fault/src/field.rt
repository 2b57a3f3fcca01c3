ghost use Rattle.std.specs.Prelude.{◌≡◌};
ghost use Rattle.xs_fault.specs.Fields.{field_text};

/// A key of the objects of a scene text; `docs/FORMATS.md` says which objects have it and what stands at
/// it. The variant has the name of the key.
#[derive(Clone, Copy, Debug)]
pub enum Field {
    Format,
    Camera,
    Palettes,
    Levels,
    Sheets,
    W,
    H,
    Peg,
    Styles,
    Keys,
    Row,
    Style,
    Rgba,
    Kind,
    Palette,
    Drawings,
    Pegs,
    Columns,
    Nodes,
    Out,
    Parent,
    X,
    Y,
    Line,
    Angle,
    Scale,
    ScaleX,
    ScaleY,
    ShearX,
    ShearY,
    Off,
    Cells,
    From,
    To,
    Level,
    Drawing,
    Sheet,
    Start,
    Column,
    Node,
    Op,
    First,
    Second,
    Input,
    List,
    Radius,
}

/// The keys as they stand in a text, in the order of the variants.
static KEYS: [&str; 46] = [
    "format", "camera", "palettes", "levels", "sheets", "w", "h", "peg", "styles", "keys", "row",
    "style", "rgba", "kind", "palette", "drawings", "pegs", "columns", "nodes", "out", "parent",
    "x", "y", "line", "angle", "scale", "scale_x", "scale_y", "shear_x", "shear_y", "off", "cells",
    "from", "to", "level", "drawing", "sheet", "start", "column", "node", "op", "first", "second",
    "input", "list", "radius",
];

impl Field {
    /// The key, as it stands in a text.
    pub fn text(self) -> &'static str
        ensures { result.now ≡ field_text self }
    {
        KEYS[self as usize]
    }
}
