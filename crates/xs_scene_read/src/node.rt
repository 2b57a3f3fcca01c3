ghost use Rattle.std.specs.Prelude.{◌≡◌, IfOk, All};
ghost use Rattle.serde_json.specs.View.{view, members_view};
ghost use Rattle.xs_json.specs.Parsing.{Gives};
ghost use Rattle.xs_scene.specs.InRange.{NodeInRange};
ghost use Rattle.xs_scene.specs.Ranges.{IsRef, IsFiltered, IsOldNode};
ghost use Rattle.xs_scene_text.specs.Fields.{field};
ghost use Rattle.xs_scene_text.specs.SceneText.{node_number_at, column_number_at, target_at, pair_at, card_at, shuffle_at, blur_at, filter_at, keep_at, delete_at, work_at, node_of, IsOldWork};

use crate::element::Element;
use crate::fields::{needed, none_of, number_needed, numbers_needed, reference_needed};
use serde_json::{Map, Value};
use std::alloc::Global;
use xs_base::List;
use xs_base::limits::{GREATEST_RADIUS, LAST_ROW, STYLE_NUMBERS};
use xs_fault::{Field, FieldFault, Path, Place, SceneCode, fault_at};
use xs_json::{object, optional, required, text};
use xs_pixel::Op;
use xs_scene::{Node, Ref};
use xs_scene_text::{Work, work_named};

/// A ref and a style are read alike in both formats, so either serves to read them.
const ANY_FORMAT: u32 = 1;

/// A ref to a node.
#[tactic(auto, unfolding(xs_scene_text::specs::SceneText::node_number_at))]
fn node_number(alloc: Global, map: &Map<String, Value>, at: &Path) -> Result<Ref, FieldFault>
    ensures exact { Gives (λ r. r) result (node_number_at at.now (members_view map.now.entries)) }
    ensures range { IfOk result IsRef }
{
    none_of(alloc, map, at, SceneCode::UnknownKey, &[Field::Column])?;
    Ok(Ref::Node(reference_needed(alloc, map, at, Field::Node)?))
}

/// A ref to a column.
#[tactic(auto, unfolding(xs_scene_text::specs::SceneText::column_number_at))]
fn column_number(alloc: Global, map: &Map<String, Value>, at: &Path) -> Result<Ref, FieldFault>
    ensures exact { Gives (λ r. r) result (column_number_at at.now (members_view map.now.entries)) }
    ensures range { IfOk result IsRef }
{
    Ok(Ref::Column(reference_needed(alloc, map, at, Field::Column)?))
}

/// What a ref names, by the key that it has.
fn target(alloc: Global, map: &Map<String, Value>, at: &Path) -> Result<Ref, FieldFault>
    ensures exact { Gives (λ r. r) result (target_at at.now (members_view map.now.entries)) }
    ensures range { IfOk result IsRef }
{
    if optional(map, Field::Node).is_some() {
        node_number(alloc, map, at)
    } else {
        column_number(alloc, map, at)
    }
}

impl Element for Ref {
    ghost use Rattle.xs_scene.specs.Ranges.{IsRef};
    ghost use Rattle.xs_scene_text.specs.SceneText.{ref_at};

    ghost reading = { λ _. ref_at };

    ghost fits = { IsRef };

    #[tactic(auto, unfolding(xs_scene_text::specs::SceneText::ref_at))]
    fn read(alloc: Global, _format: u32, v: &Value, place: &Place) -> Result<Self, FieldFault> {
        let at = place.path(alloc)?;
        let map = object(alloc, v, &at, &[Field::Column, Field::Node], &[])?;
        target(alloc, map, &at)
    }
}

/// A node that composes its two inputs.
#[tactic(auto, unfolding(xs_scene_text::specs::SceneText::pair_at))]
fn pair(alloc: Global, v: &Value, at: &Path, op: Op) -> Result<Node, FieldFault>
    ensures exact { Gives (λ n. n) result (pair_at op at.now (view v.now)) }
    ensures range { IfOk result NodeInRange }
    ensures old { IfOk result IsOldNode }
{
    let fields = [Field::Op, Field::First, Field::Second];
    let map = object(alloc, v, at, &fields, &fields)?;
    Ok(Node::Pair {
        op,
        first: needed(alloc, ANY_FORMAT, map, at, Field::First)?,
        second: needed(alloc, ANY_FORMAT, map, at, Field::Second)?,
    })
}

/// A node of one colour.
#[tactic(auto, unfolding(xs_scene_text::specs::SceneText::card_at))]
fn card(alloc: Global, v: &Value, at: &Path) -> Result<Node, FieldFault>
    ensures exact { Gives (λ n. n) result (card_at at.now (view v.now)) }
    ensures range { IfOk result NodeInRange }
    ensures old { IfOk result IsOldNode }
{
    let fields = [Field::Op, Field::Rgba];
    let map = object(alloc, v, at, &fields, &fields)?;
    Ok(Node::Card(needed(alloc, ANY_FORMAT, map, at, Field::Rgba)?))
}

/// A node that shows its input at other rows.
#[tactic(auto, unfolding(xs_scene_text::specs::SceneText::shuffle_at))]
fn shuffle(alloc: Global, v: &Value, at: &Path) -> Result<Node, FieldFault>
    ensures exact { Gives (λ n. n) result (shuffle_at at.now (view v.now)) }
    ensures range { IfOk result NodeInRange }
    ensures old { IfOk result IsOldNode }
{
    let fields = [Field::Op, Field::Input, Field::List];
    let map = object(alloc, v, at, &fields, &fields)?;
    Ok(Node::Shuffle {
        input: needed(alloc, ANY_FORMAT, map, at, Field::Input)?,
        list: numbers_needed(alloc, map, at, Field::List, 1, LAST_ROW)?,
    })
}

/// A node that blurs its input.
#[tactic(auto, unfolding(xs_scene_text::specs::SceneText::blur_at))]
fn blur(alloc: Global, v: &Value, at: &Path) -> Result<Node, FieldFault>
    ensures exact { Gives (λ n. n) result (blur_at at.now (view v.now)) }
    ensures range { IfOk result NodeInRange }
{
    let fields = [Field::Op, Field::Input, Field::Radius];
    let map = object(alloc, v, at, &fields, &fields)?;
    Ok(Node::Blur {
        input: needed(alloc, ANY_FORMAT, map, at, Field::Input)?,
        radius: number_needed(alloc, map, at, Field::Radius, 1, GREATEST_RADIUS)?,
    })
}

/// The input of a node that filters styles, and the styles that it names.
#[tactic(auto, unfolding(xs_scene_text::specs::SceneText::filter_at))]
fn filter(alloc: Global, v: &Value, at: &Path) -> Result<(Ref, List<u32>), FieldFault>
    ensures exact { Gives (λ x. x) result (filter_at at.now (view v.now)) }
    ensures input { IfOk result (λ x. IsRef x.0) }
    ensures styles { IfOk result (λ x. All IsFiltered x.1) }
{
    let fields = [Field::Op, Field::Input, Field::Styles];
    let map = object(alloc, v, at, &fields, &fields)?;
    let input = needed(alloc, ANY_FORMAT, map, at, Field::Input)?;
    let styles = numbers_needed(alloc, map, at, Field::Styles, 0, STYLE_NUMBERS - 1)?;
    Ok((input, styles))
}

/// A node that drops all other styles.
#[tactic(auto, unfolding(xs_scene_text::specs::SceneText::keep_at))]
fn keep(alloc: Global, v: &Value, at: &Path) -> Result<Node, FieldFault>
    ensures exact { Gives (λ n. n) result (keep_at at.now (view v.now)) }
    ensures range { IfOk result NodeInRange }
{
    let (input, styles) = filter(alloc, v, at)?;
    Ok(Node::Keep { input, styles })
}

/// A node that drops the styles.
#[tactic(auto, unfolding(xs_scene_text::specs::SceneText::delete_at))]
fn delete(alloc: Global, v: &Value, at: &Path) -> Result<Node, FieldFault>
    ensures exact { Gives (λ n. n) result (delete_at at.now (view v.now)) }
    ensures range { IfOk result NodeInRange }
{
    let (input, styles) = filter(alloc, v, at)?;
    Ok(Node::Delete { input, styles })
}

/// The work of a node, by the word at its `op`.
fn work(alloc: Global, format: u32, map: &Map<String, Value>, at: &Path) -> Result<Work, FieldFault>
    ensures exact { Gives (λ w. w) result
        (field Field.Op (work_at format) at.now (members_view map.now.entries)) }
    ensures known { IfOk result (λ w. format ≡ 1 → IsOldWork w) }
{
    let v = required(alloc, map, at, Field::Op)?;
    let place = Place::key(at, Field::Op);
    match work_named(format, text(alloc, v, &place)?) {
        Some(work) => Ok(work),
        None => Err(place.fault(alloc, SceneCode::OutOfRange)),
    }
}

/// The node of a work.
fn node(alloc: Global, v: &Value, at: &Path, work: Work) -> Result<Node, FieldFault>
    ensures exact { Gives (λ n. n) result (node_of work at.now (view v.now)) }
    ensures range { IfOk result NodeInRange }
    ensures known { IfOk result (λ n. IsOldWork work → IsOldNode n) }
{
    match work {
        Work::Pair(op) => pair(alloc, v, at, op),
        Work::Card => card(alloc, v, at),
        Work::Shuffle => shuffle(alloc, v, at),
        Work::Blur => blur(alloc, v, at),
        Work::Keep => keep(alloc, v, at),
        Work::Delete => delete(alloc, v, at),
    }
}

impl Element for Node {
    ghost use Rattle.xs_scene.specs.InRange.{NodeInRange};
    ghost use Rattle.xs_scene.specs.Ranges.{IsOldNode};
    ghost use Rattle.xs_scene_text.specs.SceneText.{node_at};

    ghost reading = { node_at };

    ghost fits = { NodeInRange };

    ghost plain = { IsOldNode };

    #[tactic(auto, unfolding(xs_scene_text::specs::SceneText::node_at))]
    fn read(alloc: Global, format: u32, v: &Value, place: &Place) -> Result<Self, FieldFault> {
        let at = place.path(alloc)?;
        let Some(map) = v.as_object() else {
            return Err(fault_at(alloc, SceneCode::WrongKind, &at));
        };
        let work = work(alloc, format, map, &at)?;
        node(alloc, v, &at, work)
    }
}
