ghost use Rattle.std.specs.Prelude.{◌≡◌, Some, None, Ok, IfOk, false};
ghost use Rattle.xs_check.specs.Passes.{first_fault};
ghost use Rattle.xs_levels.specs.Films.{Files};
ghost use Rattle.xs_scene.specs.Records.{SceneRecord};
ghost use Rattle.xs_scene_json.specs.SceneText.{scene_of};
ghost use Rattle.xs_top.specs.Causes.{answer_of, IsInside, Fails};
ghost use Rattle.xs_top.specs.Trace.{Outcome};
ghost use Rattle.xs_top.specs.Seen.{Seen};
ghost use Rattle.xs_top.specs.Leaves.{Keeps};
ghost use Rattle.xs_top.specs.Finished.{Says};
ghost use Rattle.xs_top.specs.Runs.{Runs, Gives};
ghost use Rattle.xs_top.specs.Outcome.{no_scene, decoded, loading_scene};

use crate::outside::Outside;
use crate::status::Status;
use std::alloc::Global;
use xs_base::limits::SCENE_LIMIT;
use xs_check::laws::checking_finds_its_codes;
use xs_check::{GoodScene, check};
use xs_fault::{Path, SceneCode, SceneFault};
use xs_scene::Name;
use xs_scene_json::{decode, text_faults};

/// The answer where there is no scene file that can be read.
fn refusal(alloc: Global, code: SceneCode) -> Status
    ensures { result ≡ no_scene code }
{
    let path = Path::root(alloc);
    Status::Scene(SceneFault { code, path })
}

/// The scene that the bytes of a file say, checked.
fn read_scene(alloc: Global, bytes: &[u8]) -> Result<GoodScene, Status>
    ensures did { (next : SceneRecord → Outcome) (seen : Seen)
        → Runs (decoded (scene_of bytes.now) next) next seen seen result }
    ensures said { IfOk result (λ good. scene_of bytes.now ≡ Ok good) }
    ensures faultless { IfOk result (λ good. first_fault good ≡ None) }
    ensures inside { IsInside (answer_of result) }
    ensures fails { Fails result }
{
    checking_finds_its_codes();
    text_faults();
    let scene = decode(alloc, bytes)?;
    let good = check(alloc, scene)?;
    Ok(good)
}

/// Asks for the scene, reads and checks it.
pub(crate) fn load_scene<O: Outside>(
    alloc: Global,
    name: &Name,
    outside: &mut O,
) -> Result<GoodScene, Status>
    ensures did { Gives (λ files. loading_scene files name.now) (O.view outside.old) (O.view outside.new) result }
    ensures says { IfOk result (λ good. (files : Files) → (O.view outside.old).seen.files ≡ Some files
        → Says files name.now good) }
    ensures faultless { IfOk result (λ good. first_fault good ≡ None) }
    ensures keeps { Keeps (O.view outside.old) (O.view outside.new) (answer_of result) }
    ensures fails { Fails result }
{
    let absent = refusal(alloc, SceneCode::NoScene);
    let too_long = refusal(alloc, SceneCode::TooLong);
    let bytes = outside.ask(alloc, name.text(), SCENE_LIMIT, absent, too_long)?;
    let good = read_scene(alloc, bytes.items())?;
    Ok(good)
}
