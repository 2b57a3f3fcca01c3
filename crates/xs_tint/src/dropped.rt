ghost use Rattle.std.specs.Prelude.{◌≡◌, ℕ, ◌<◌, ◌≤◌, All, false, length, slice_index_or, IfOk};
ghost use Rattle.xs_base.specs.declared.limits.TheConstants.{STYLE_NUMBERS};
ghost use Rattle.xs_scene.specs.Ranges.{IsFiltered};
ghost use Rattle.xs_meaning.specs.Palettes.{none_dropped};
ghost use Rattle.xs_base.specs.Listed.{is_listed};
ghost use Rattle.xs_tint.specs.Filters.{dropped_by, drops, filtering};

use std::alloc::Global;
use std::marker::Model;
use xs_base::Memory;
use xs_base::limits::STYLE_NUMBERS;

/// The styles that filters on the way to a drawing have dropped: these are clear there. Contracts see
/// it as one flag for each style from 0 on, in which `dropped_by` looks one up; no style past them is
/// dropped.
#[derive(Debug, Drop)]
pub struct Dropped {
    flags: Vec<bool>,
}

impl Model for Dropped {
    ghost use Rattle.std.specs.Prelude.{◌≤◌, List, Bool, length};
    ghost use Rattle.xs_base.specs.declared.limits.TheConstants.{STYLE_NUMBERS};

    ghost Value = { List Bool };

    ghost view = { λ d. d.flags.items };

    ghost invariant = { λ d. length d.flags.items ≤ STYLE_NUMBERS };
}

impl Dropped {
    /// No style is dropped.
    pub fn none(alloc: Global) -> Dropped
        ensures { dropped_by result ≡ none_dropped }
    {
        Dropped {
            flags: Vec::new(alloc),
        }
    }

    /// The styles whose flag is set are dropped.
    pub fn of(flags: Vec<bool>) -> Dropped
        requires { length flags.items ≤ STYLE_NUMBERS }
        ensures { result ≡ flags.items }
    {
        Dropped { flags }
    }

    /// What is dropped below a filter of these styles: with `keep` each style that is not listed, else
    /// each listed one, and in either case what was dropped already.
    pub fn with(&self, alloc: Global, keep: bool, styles: &[u32]) -> Result<Dropped, Memory>
        requires { All IsFiltered styles.now }
        ensures { IfOk result (λ d. dropped_by d ≡ filtering keep styles.now (dropped_by self.now)) }
    {
        let was = self.flags.as_slice();
        let mut flags = filter_flags(alloc, keep, styles)?;
        for id in 0..was.len() {
            if was[id] {
                flags[id] = true;
            }
        }
        Ok(Dropped { flags })
    }

    /// Whether a style is dropped.
    pub fn has(&self, id: u32) -> bool
        ensures { result ≡ dropped_by self.now id }
    {
        let id = id as usize;
        id < self.flags.len() && self.flags[id]
    }
}

/// For each style that a filter can name whether this one drops it.
fn filter_flags(alloc: Global, keep: bool, styles: &[u32]) -> Result<Vec<bool>, Memory>
    requires { All IsFiltered styles.now }
    ensures len { IfOk result (λ flags. length flags.items ≡ STYLE_NUMBERS) }
    ensures drops { IfOk result (λ flags. (k : ℕ) → k < STYLE_NUMBERS → slice_index_or flags.items k false ≡ drops keep false (is_listed styles.now k)) }
{
    let mut flags = vec![in alloc; keep; STYLE_NUMBERS as usize]?;
    for style in styles {
        flags[*style as usize] = !keep;
    }
    Ok(flags)
}
