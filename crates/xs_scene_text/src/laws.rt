//! Laws of what is written for a scene, each on a function that does nothing: its contract is the law.

ghost use Rattle.std.specs.Prelude.{◌≡◌, ◌≤◌, false};
ghost use Rattle.serde_json.specs.Data.{depth};
ghost use Rattle.serde_json.specs.Written.{has_float};
ghost use Rattle.xs_scene.specs.Records.{SceneRecord};
ghost use Rattle.xs_scene.specs.InRange.{IsInRange};
ghost use Rattle.xs_scene_text.specs.SceneText.{scene_at};
ghost use Rattle.xs_scene_text.specs.SceneData.{IsReadAgain, scene_data};

/// What is written for a scene in range is read as that scene, wherever it stands.
pub fn what_is_written_is_read_again()
    ensures { (scene : SceneRecord) → IsInRange scene → IsReadAgain scene_at scene_data scene }
{}

/// What is written for a scene has no fraction and nests at most seven levels deep, so that its text is
/// exact and every reader takes it.
pub fn what_is_written_is_shallow()
    ensures whole { (scene : SceneRecord) → has_float (scene_data scene) ≡ false }
    ensures within { (scene : SceneRecord) → depth (scene_data scene) ≤ 7 }
{}
