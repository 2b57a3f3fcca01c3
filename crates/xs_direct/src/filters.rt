ghost use Rattle.std.specs.Prelude.{◌≡◌};
ghost use Rattle.xs_base.specs.Listed.{is_listed};

use xs_base::limits::STYLE_NUMBERS;

/// The palette filters on the way from a row to what it shows, the nearest one first.
#[derive(Clone, Copy)]
pub(crate) enum Filters<'a> {
    /// No filter: every style passes.
    Open,
    /// Of the styles that a filter can name only these pass, where the outer filters let them.
    Keep(&'a [u32], &'a Filters<'a>),
    /// These styles are dropped, besides those that the outer filters drop.
    Delete(&'a [u32], &'a Filters<'a>),
}

impl Filters<'_> {
    ghost use Rattle.std.specs.Prelude.{◌≡◌};
    ghost use Rattle.xs_direct.specs.Filters.{dropped_of};

    /// Whether a filter drops a style.
    pub(crate) fn drops(&self, style: u32) -> bool
        ensures { result ≡ dropped_of self.now style }
    {
        match self {
            Filters::Open => false,
            Filters::Keep(styles, outer) => {
                outer.drops(style) || style < STYLE_NUMBERS && !lists(styles, style)
            }
            Filters::Delete(styles, outer) => outer.drops(style) || lists(styles, style),
        }
    }
}

/// Whether a style is among these.
fn lists(styles: &[u32], style: u32) -> bool
    ensures { result ≡ is_listed styles.now style }
{
    styles.contains(&style)
}
