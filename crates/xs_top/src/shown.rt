//! A scene that is shown.

ghost use Rattle.std.specs.Prelude.{◌≡◌, IfOk, false};
ghost use Rattle.serde_json.specs.Written.{compact_text};
ghost use Rattle.xs_scene_json.specs.SceneData.{scene_data};
ghost use Rattle.xs_top.specs.Causes.{answer_of, is_of_words};
ghost use Rattle.xs_top.specs.Leaves.{Leaves, Quiet};
ghost use Rattle.xs_top.specs.Runs.{Ends};
ghost use Rattle.xs_top.specs.Outcome.{showing};

use crate::outside::Outside;
use crate::scene::load_scene;
use crate::status::Status;
use std::alloc::Global;
use xs_base::Memory;
use xs_check::GoodScene;
use xs_scene::Name;
use xs_scene_json::encode;

/// The one text of a scene in format 2.
fn shown_line(alloc: Global, good: GoodScene) -> Result<Vec<u8>, Memory>
    ensures { IfOk result (λ line. line.items ≡ compact_text (scene_data (record good { format = 2 }))) }
{
    encode(alloc, &good.into_scene().migrated())
}

/// Writes the one text of a scene in format 2.
pub(crate) fn show_scene<O: Outside>(
    alloc: Global,
    scene: &Name,
    outside: &mut O,
) -> Result<(), Status>
    ensures did { Ends (λ files. showing files scene.now) (O.view outside.old) (O.view outside.new) result }
    ensures leaves { Leaves (O.view outside.old).seen (O.view outside.new).seen (answer_of result) }
    ensures quiet { Quiet (O.view outside.old).seen (O.view outside.new).seen (answer_of result) }
    ensures words { is_of_words (answer_of result) ≡ false }
    ensures same { (O.view outside.new).names ≡ (O.view outside.old).names }
{
    let good = load_scene(alloc, scene, outside)?;
    let line = shown_line(alloc, good)?;
    outside.note(alloc, line.as_slice())
}
