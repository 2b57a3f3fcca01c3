ghost use Rattle.std.specs.Prelude.{◌≡◌, IfOk};
ghost use Rattle.serde_json.specs.View.{view};
ghost use Rattle.xs_scene.specs.declared.node.Node.TheVariants as node;
ghost use Rattle.xs_scene_text.specs.SceneData.{ref_data, listed_data, node_data};

use crate::written::{Written, put, put_number, put_text, write_numbers};
use serde_json::{Map, Value};
use std::alloc::Global;
use xs_base::{List, Memory};
use xs_fault::Field;
use xs_pixel::{Op, Style};
use xs_scene::{Node, Ref};
use xs_scene_text::op_word;

/// The value that is written for a ref.
fn write_ref(alloc: Global, target: Ref) -> Result<Value, Memory>
    ensures { IfOk result (λ v. view v ≡ ref_data target) }
{
    let mut map = Map::new(alloc);
    match target {
        Ref::Column(column) => put_number(&mut map, alloc, Field::Column, column)?,
        Ref::Node(index) => put_number(&mut map, alloc, Field::Node, index)?,
    }
    Ok(Value::from(map))
}

impl Written for Ref {
    ghost use Rattle.xs_scene_text.specs.SceneData.{ref_data};

    ghost writing = { ref_data };

    fn write(&self, alloc: Global) -> Result<Value, Memory> {
        write_ref(alloc, *self)
    }
}

/// The value that is written for a node that composes its two inputs.
fn write_pair(alloc: Global, op: Op, first: Ref, second: Ref) -> Result<Value, Memory>
    ensures { IfOk result (λ v. view v ≡ node_data (node.Pair op first second)) }
{
    let mut map = Map::new(alloc);
    put_text(&mut map, alloc, Field::Op, op_word(op))?;
    put(&mut map, alloc, Field::First, write_ref(alloc, first)?)?;
    put(&mut map, alloc, Field::Second, write_ref(alloc, second)?)?;
    Ok(Value::from(map))
}

/// The value that is written for a node of one colour.
fn write_card(alloc: Global, style: Style) -> Result<Value, Memory>
    ensures { IfOk result (λ v. view v ≡ node_data (node.Card style)) }
{
    let mut map = Map::new(alloc);
    put_text(&mut map, alloc, Field::Op, "card")?;
    put(&mut map, alloc, Field::Rgba, style.write(alloc)?)?;
    Ok(Value::from(map))
}

/// The value that is written for a node that blurs its input.
fn write_blur(alloc: Global, input: Ref, radius: u32) -> Result<Value, Memory>
    ensures { IfOk result (λ v. view v ≡ node_data (node.Blur input radius)) }
{
    let mut map = Map::new(alloc);
    put_text(&mut map, alloc, Field::Op, "blur")?;
    put(&mut map, alloc, Field::Input, write_ref(alloc, input)?)?;
    put_number(&mut map, alloc, Field::Radius, radius)?;
    Ok(Value::from(map))
}

/// The value that is written for a node with a word, an input and a list of numbers.
fn write_listed(
    alloc: Global,
    word: &str,
    input: Ref,
    k: Field,
    numbers: &List<u32>,
) -> Result<Value, Memory>
    ensures { IfOk result (λ v. view v ≡ listed_data word.now input k numbers.now) }
{
    let mut map = Map::new(alloc);
    put_text(&mut map, alloc, Field::Op, word)?;
    put(&mut map, alloc, Field::Input, write_ref(alloc, input)?)?;
    put(&mut map, alloc, k, write_numbers(alloc, numbers)?)?;
    Ok(Value::from(map))
}

impl Written for Node {
    ghost use Rattle.xs_scene_text.specs.SceneData.{node_data};

    ghost writing = { node_data };

    fn write(&self, alloc: Global) -> Result<Value, Memory> {
        match self {
            Node::Pair { op, first, second } => write_pair(alloc, *op, *first, *second),
            Node::Card(style) => write_card(alloc, *style),
            Node::Shuffle { input, list } => write_listed(
                alloc,
                "shuffle",
                *input,
                Field::List,
                list,
            ),
            Node::Blur { input, radius } => write_blur(alloc, *input, *radius),
            Node::Keep { input, styles } => write_listed(
                alloc,
                "keep",
                *input,
                Field::Styles,
                styles,
            ),
            Node::Delete { input, styles } => {
                write_listed(alloc, "delete", *input, Field::Styles, styles)
            }
        }
    }
}
