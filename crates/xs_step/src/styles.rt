use std::marker::Model;

/// Listed styles, lent by the scene.
#[derive(Drop)]
pub struct Styles<'s> {
    styles: &'s [u32],
}

impl<'s> Model for Styles<'s> {
    ghost use Rattle.std.specs.Prelude.{List, ℕ};

    ghost Value = { List ℕ };

    ghost view = { λ s. s.styles.now };
}

impl<'s> Styles<'s> {
    ghost use Rattle.std.specs.Prelude.{◌≡◌};

    /// These styles.
    pub fn of(styles: &'s [u32]) -> Styles<'s>
        ensures { result ≡ styles.now }
    {
        Styles { styles }
    }

    /// The styles as they are listed.
    pub fn items(&self) -> &'s [u32]
        ensures { result.now ≡ self.now }
    {
        self.styles
    }
}
