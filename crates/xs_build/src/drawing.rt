//! Drawings as they show at a row.

ghost use Rattle.std.specs.Prelude.{◌≡◌, ◌<◌, length};
ghost use Rattle.xs_check.specs.Good.{files_of};
ghost use Rattle.xs_meaning.specs.Drawings.{colours_of};
ghost use Rattle.xs_meaning.specs.Expressions.{leaf_by};
ghost use Rattle.xs_tint.specs.Filters.{dropped_by};
ghost use Rattle.xs_demand.specs.Blocks.{spread};
ghost use Rattle.xs_demand.specs.Renamed.{renamed};
ghost use Rattle.xs_build.specs.States.{named, offset_of, IsReady, GivesPut};

use crate::palette::repainted;
use crate::put::room;
use crate::scope::Scope;
use crate::state::State;
use crate::stop::Stop;
use xs_entered::Entered;
use xs_scene::Kind;
use xs_tint::Dropped;

/// Enters a drawing under its name, where it stands and as its palette shows at its row.
pub(crate) fn put_drawing(
    at: &Scope<'_>,
    state: State,
    d: u32,
    dropped: &Dropped,
    entered: &mut Entered,
) -> Result<u32, Stop>
    requires ready { IsReady at.now }
    requires there { d < length (files_of at.now.scene.now.levels) }
    ensures { GivesPut at.now.most entered.old entered.new (spread (renamed (named at.now.names.now)
        (leaf_by (colours_of at.now.scene.now d) d state.spot.row (dropped_by dropped.now) (offset_of state))) state.growth) result }
{
    room(entered, at.most)?;
    let name = at.names[d as usize];
    match at.scene.kind(d) {
        Kind::Colour => Ok(entered.leaf(name, state.x, state.y, state.growth)?),
        Kind::Cm32(palette) => {
            let scene = at.scene.scene();
            let colours = &scene.palettes.items()[palette as usize];
            match repainted(at.alloc, colours, state.spot.row, dropped)? {
                None => Ok(entered.leaf(name, state.x, state.y, state.growth)?),
                Some(other) => Ok(entered.tinted(name, state.x, state.y, other, state.growth)?),
            }
        }
    }
}
