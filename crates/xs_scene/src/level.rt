use crate::in_range::each_in_range;
use crate::name::Name;
use crate::range::is_reference;
use std::marker::Model;
use xs_base::List;

/// What the drawings of a level hold.
#[derive(Clone, Copy, Debug, PartialEq, Eq)]
pub enum Kind {
    /// Pixels: red, green, blue and matte.
    Colour,
    /// CM32 words, coloured by the palette with this number.
    Cm32(u32),
}

/// A level: the names of the files of its drawings, which are numbered from 0.
#[derive(Debug, Drop)]
pub struct Level {
    pub kind: Kind,
    pub drawings: List<Name>,
}

impl Model for Level {
    ghost use Rattle.xs_scene.specs.Records.{LevelRecord};

    ghost Value = { LevelRecord };

    ghost use Rattle.xs_scene.specs.InRange.{LevelInRange};

    ghost view = { λ l. record { kind = l.kind; drawings = l.drawings } };

    ghost invariant = { λ l. LevelInRange (record { kind = l.kind; drawings = l.drawings }) };
}

impl Level {
    ghost use Rattle.std.specs.Option.{SomeIff};
    ghost use Rattle.xs_scene.specs.Ranges.{IsKind};

    /// The level with these fields; None exactly where the palette's number is out of its range.
    pub fn new(kind: Kind, drawings: List<Name>) -> Option<Level>
        ensures { SomeIff result (IsKind kind) (record { kind = kind; drawings = drawings }) }
    {
        if kind.is_in_range() {
            each_in_range(&drawings);
            Some(Level { kind, drawings })
        } else {
            None
        }
    }
}

impl Kind {
    ghost use Rattle.std.specs.Prelude.{◌↔◌, IsTrue};
    ghost use Rattle.xs_scene.specs.Ranges.{IsKind};

    pub(crate) fn is_in_range(self) -> bool
        ensures { IsTrue result ↔ IsKind self }
    {
        match self {
            Kind::Colour => true,
            Kind::Cm32(palette) => is_reference(palette),
        }
    }
}
