ghost use Rattle.std.specs.Prelude.{◌≡◌};
ghost use Rattle.xs_fault.specs.Codes.{code_number, code_name};

/// What is wrong with a scene.
#[derive(Clone, Copy, Debug, PartialEq, Eq)]
pub enum SceneCode {
    /// The bytes are no JSON text.
    NotJson,
    /// An object has a key that it must not have.
    UnknownKey,
    /// An object lacks a key that it needs.
    MissingKey,
    /// A value is of another kind, as a text in place of a number.
    WrongKind,
    /// A number is outside its range, or a text is none of the words.
    OutOfRange,
    /// A number names nothing that exists.
    NoSuchReference,
    /// Two things stand where one may.
    Overlap,
    /// A peg is its own ancestor.
    PegCycle,
    /// A node is among its own inputs.
    NodeCycle,
    /// A sheet shows itself.
    SheetCycle,
    /// A peg key turns, scales, shears or moves by a fraction.
    Placement,
    /// A list or a chain is longer than its limit.
    TooMany,
    /// There is no such scene file.
    NoScene,
    /// The scene file is longer than its limit.
    TooLong,
    /// Two scenes that are rendered together have cameras of different sizes.
    CamerasDiffer,
}

impl SceneCode {
    /// The number that is printed after an `S`. There is no 15.
    pub fn number(self) -> u8
        ensures { result ≡ code_number self }
    {
        match self {
            SceneCode::NotJson => 1,
            SceneCode::UnknownKey => 2,
            SceneCode::MissingKey => 3,
            SceneCode::WrongKind => 4,
            SceneCode::OutOfRange => 5,
            SceneCode::NoSuchReference => 6,
            SceneCode::Overlap => 7,
            SceneCode::PegCycle => 8,
            SceneCode::NodeCycle => 9,
            SceneCode::SheetCycle => 10,
            SceneCode::Placement => 11,
            SceneCode::TooMany => 12,
            SceneCode::NoScene => 13,
            SceneCode::TooLong => 14,
            SceneCode::CamerasDiffer => 16,
        }
    }

    /// The name that is printed.
    pub fn name(self) -> &'static str
        ensures { result.now ≡ code_name self }
    {
        match self {
            SceneCode::NotJson => "NotJson",
            SceneCode::UnknownKey => "UnknownKey",
            SceneCode::MissingKey => "MissingKey",
            SceneCode::WrongKind => "WrongKind",
            SceneCode::OutOfRange => "OutOfRange",
            SceneCode::NoSuchReference => "NoSuchReference",
            SceneCode::Overlap => "Overlap",
            SceneCode::PegCycle => "PegCycle",
            SceneCode::NodeCycle => "NodeCycle",
            SceneCode::SheetCycle => "SheetCycle",
            SceneCode::Placement => "Placement",
            SceneCode::TooMany => "TooMany",
            SceneCode::NoScene => "NoScene",
            SceneCode::TooLong => "TooLong",
            SceneCode::CamerasDiffer => "CamerasDiffer",
        }
    }
}
