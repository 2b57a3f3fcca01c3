ghost use Rattle.std.specs.Prelude.{◌≡◌, ℕ, List, [], true, Ok, Err, IfOk};
ghost use Rattle.serde_json.specs.View.{view};
ghost use Rattle.xs_fault.specs.declared.code.SceneCode.TheVariants as code;
ghost use Rattle.xs_fault.specs.declared.fault.SceneFault.{SceneFault};
ghost use Rattle.xs_json.specs.Parsing.{Gives, or_fault};
ghost use Rattle.serde_json.specs.Written.{compact_text};
ghost use Rattle.xs_scene.specs.InRange.{IsInRange};
ghost use Rattle.xs_scene.specs.Records.{SceneRecord};
ghost use Rattle.xs_scene_text.specs.SceneText.{json_of, scene_of};
ghost use Rattle.xs_scene_text.specs.SceneData.{scene_data};
ghost use Rattle.xs_scene_json.specs.Faults.{is_text_code};

use serde_json::{Category, Value};
use std::alloc::Global;
use xs_base::Memory;
use xs_fault::{FieldFault, Path, SceneCode, fault_at};
use xs_scene::Scene;
use xs_scene_read::read_scene;
use xs_scene_text::what_is_written_is_shallow;
use xs_scene_write::write_scene;

/// The value of a JSON text.
fn json(alloc: Global, bytes: &[u8]) -> Result<Value, FieldFault>
    ensures { Gives (λ v. view v) result (or_fault (json_of bytes.now) code.NotJson []) }
{
    match Value::from_slice(alloc, bytes) {
        Ok(value) => Ok(value),
        Err(e) => match e.classify() {
            Category::Memory => Err(FieldFault::Memory),
            _ => Err(fault_at(alloc, SceneCode::NotJson, &Path::root(alloc))),
        },
    }
}

/// The scene that the bytes of a text say, or exactly its first fault: NotJson, UnknownKey, MissingKey,
/// WrongKind, OutOfRange or Placement.
#[tactic(auto, unfolding(xs_scene_text::specs::SceneText::scene_of))]
pub fn decode(alloc: Global, bytes: &[u8]) -> Result<Scene, FieldFault>
    ensures { Gives (λ s. s) result (scene_of bytes.now) }
{
    let value = json(alloc, bytes)?;
    read_scene(alloc, &value, &Path::root(alloc))
}

/// The fault of a text has one of the six codes that `decode` gives: it is never one of a scene that was
/// read, nor one of a file.
pub fn text_faults()
    ensures { (bytes : List ℕ) (fault : SceneFault) → scene_of bytes ≡ Err fault
        → is_text_code fault.code ≡ true }
{}

/// The scene that a text says is in range, whatever bytes the text has: each of its numbers, names and
/// styles, and in format 1 nothing that came with format 2.
pub fn texts_say_scenes_in_range()
    ensures { (bytes : List ℕ) (s : SceneRecord) → scene_of bytes ≡ Ok s → IsInRange s }
{}

/// The one text of a scene: compact, the keys of each object in the order of their bytes, in the scene's
/// own format, without what goes without saying. `decode` reads it as the scene.
pub fn encode(alloc: Global, s: &Scene) -> Result<Vec<u8>, Memory>
    ensures text { IfOk result (λ bytes. bytes.items ≡ compact_text (scene_data s.now)) }
    ensures again { IfOk result (λ bytes. scene_of bytes.items ≡ Ok s.now) }
{
    what_is_written_is_shallow();
    let value = write_scene(alloc, s)?;
    let bytes = value.to_vec(alloc)?;
    Ok(bytes)
}
