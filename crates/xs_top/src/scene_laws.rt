//! Laws of what is told of a scene's file.
ghost use Rattle.std.specs.Prelude.{◌≡◌, ◌↔◌, ℕ, List, None};
ghost use Rattle.xs_fault.specs.declared.code.SceneCode.TheVariants as scene_code;
ghost use Rattle.xs_levels.specs.Films.{Files};
ghost use Rattle.xs_top.specs.Refused.{IsTooLong};
ghost use Rattle.xs_top.specs.Outcome.{no_scene, rendering, showing};

use xs_check::laws::checking_finds_its_codes;
use xs_scene_json::text_faults;

/// That there is no scene is told exactly where the library has no file of its name, and that it is too long
/// exactly where its file is longer than a scene may be; of a render and of a scene that is shown.
pub fn scenes_without_a_file_are_told()
    ensures absent { (files : Files) (name base : List ℕ) (from to : ℕ)
        → ((rendering files name from to base).status ≡ no_scene scene_code.NoScene) ↔ (files name ≡ None) }
    ensures too_long { (files : Files) (name base : List ℕ) (from to : ℕ)
        → ((rendering files name from to base).status ≡ no_scene scene_code.TooLong) ↔ IsTooLong files name }
    ensures absent_to_show { (files : Files) (name : List ℕ)
        → ((showing files name).status ≡ no_scene scene_code.NoScene) ↔ (files name ≡ None) }
    ensures too_long_to_show { (files : Files) (name : List ℕ)
        → ((showing files name).status ≡ no_scene scene_code.TooLong) ↔ IsTooLong files name }
{
    checking_finds_its_codes();
    text_faults();
}
