use crate::in_range::each_in_range;
use crate::range::{is_reference, is_row};
use std::marker::Model;
use xs_base::List;
use xs_pixel::Style;

/// A palette key: from its row on, a style of the palette has the colour `to`.
#[derive(Clone, Copy, Debug, PartialEq, Eq)]
pub struct StyleKey {
    pub row: u32,
    pub style: u32,
    pub to: Style,
}

impl Model for StyleKey {
    ghost use Rattle.xs_scene.specs.Records.{StyleKeyRecord};

    ghost Value = { StyleKeyRecord };

    ghost use Rattle.xs_scene.specs.Ranges.{IsStyleKey};

    ghost view = { λ k. record { row = k.row; style = k.style; to = k.to } };

    ghost invariant = { λ k. IsStyleKey (record { row = k.row; style = k.style; to = k.to }) };

    ghost inverse = { λ k. record { row = k.row; style = k.style; to = k.to } };
}

impl StyleKey {
    ghost use Rattle.std.specs.Option.{SomeIff};
    ghost use Rattle.xs_scene.specs.Records.{StyleKeyRecord};
    ghost use Rattle.xs_scene.specs.Ranges.{IsStyleKey};

    /// The key with these fields; None exactly where one is out of its range.
    pub fn new(row: u32, style: u32, to: Style) -> Option<StyleKey>
        ensures { let key : StyleKeyRecord = record { row = row; style = style; to = to } in
            SomeIff result (IsStyleKey key) key }
    {
        if is_row(row) && is_reference(style) {
            Some(StyleKey { row, style, to })
        } else {
            None
        }
    }
}

/// A palette: entry `i` of `styles` is style `i`, until a key gives it another colour. The keys stand in
/// any order.
#[derive(Debug, Drop)]
pub struct Colours {
    pub styles: List<Style>,
    pub keys: List<StyleKey>,
}

impl Model for Colours {
    ghost use Rattle.xs_scene.specs.Records.{ColoursRecord};

    ghost Value = { ColoursRecord };

    ghost use Rattle.xs_scene.specs.InRange.{ColoursInRange};

    ghost view = { λ c. record { styles = c.styles; keys = c.keys } };

    ghost invariant = { λ c. ColoursInRange (record { styles = c.styles; keys = c.keys }) };
}

impl Colours {
    ghost use Rattle.std.specs.Prelude.{◌≡◌, ◌↔◌, [], IsTrue, Some};

    /// The palette with these fields; never None, since it has no range of its own.
    pub fn new(styles: List<Style>, keys: List<StyleKey>) -> Option<Colours>
        ensures { result ≡ Some (record { styles = styles; keys = keys }) }
    {
        each_in_range(&styles);
        each_in_range(&keys);
        Some(Colours { styles, keys })
    }

    pub(crate) fn has_no_key(&self) -> bool
        ensures { IsTrue result ↔ (self.now.keys ≡ []) }
    {
        self.keys.items().is_empty()
    }
}
