//! The order of nodes that share inputs and stand in no order themselves, and what is rendered.

ghost use Rattle.std.specs.Prelude.{IfOk};
ghost use Rattle.xs_schematic.specs.Order.{IsOrderable};

use crate::scenes::{OF_EACH_KIND, good_scene};
use std::alloc::Global;
use std::test::Fail;
use xs_base::List;
use xs_pixel::{Op, Style};
use xs_scene::{Node, Ref, Sheet};
use xs_schematic::order;
use xs_step::{At, Spot, Step, step_at};

/// Node 0 is made from 3 and 1, both of these from 4, and 2 from 0.
fn sheet(alloc: Global) -> Result<Sheet, Fail>
    ensures { IfOk result IsOrderable }
{
    let over = Node::Pair {
        op: Op::Over,
        first: Ref::Node(3),
        second: Ref::Node(1),
    };
    let add = Node::Pair {
        op: Op::Add,
        first: Ref::Node(4),
        second: Ref::Node(4),
    };
    let blur = Node::Blur {
        input: Ref::Node(0),
        radius: 1,
    };
    let small = Node::Blur {
        input: Ref::Node(4),
        radius: 2,
    };
    let card = Node::Card(Style {
        r: 0,
        g: 0,
        b: 0,
        a: 255,
    });
    let nodes = vec![in alloc; over, add, blur, small, card]?;
    let none = List::of(Vec::new(alloc));
    let sheet = Sheet::new(none, List::of(Vec::new(alloc)), List::of(nodes), None);
    Ok(sheet.ok_or("a sheet")?)
}

#[test]
fn each_node_comes_once_after_its_inputs_where_it_is_first_met(
    rt: HostRuntime,
) -> Result<(), Fail> {
    let sheet = sheet(rt.alloc())?;
    let order = order(rt.alloc(), &sheet)?;
    assert_eq!(rt; order.as_slice(), [4, 3, 1, 0, 2].as_slice());
    Ok(())
}

#[test]
fn columns_that_are_off_are_not_rendered(rt: HostRuntime) -> Result<(), Fail> {
    let scene = good_scene(rt.alloc(), OF_EACH_KIND)?;
    scene.scene();
    let spot = Spot {
        sheet: 0,
        at: At::Row,
        row: 1,
    };
    let Step::Over(terminals) = step_at(&scene, spot) else {
        return Err(Fail::from("a row"));
    };
    let (lowest, above) = terminals.split_first().ok_or("a terminal")?;
    assert_eq!(rt; lowest, Ref::Column(1));
    assert!(rt; above.split_last().is_none());
    Ok(())
}
