//! Paths, fields and faults of a JSON text.

use serde_json::Value;
use std::test::Fail;
use xs_fault::{Field, FieldFault, Path, Place, SceneCode, fault_at};
use xs_json::{all_there, flag, list, object, optional, required, text, whole};

#[test]
fn paths_are_printed(rt: HostRuntime) -> Result<(), Fail> {
    let root = Path::root(rt.alloc());
    let sheets = root.key(rt.alloc(), Field::Sheets.text())?;
    let second = Place::item(&sheets, 10).path(rt.alloc())?;
    assert_eq!(rt; root.text(), "");
    assert_eq!(rt; second.copy(rt.alloc())?.text(), "/sheets/10");
    assert_eq!(rt; sheets.index(rt.alloc(), 0)?.text(), "/sheets/0");
    Ok(())
}

#[test]
fn fields_are_read(rt: HostRuntime) -> Result<(), Fail> {
    let alloc = rt.alloc();
    let root = Path::root(alloc);
    let keys = [Field::W, Field::Kind, Field::Off, Field::Cells];
    let scene = Value::from_str(
        alloc,
        r#"{"w":4096,"kind":"cm32","off":true,"cells":[7,8]}"#,
    )
    .ok()
    .ok_or("the text is JSON")?;
    let map = object(alloc, &scene, &root, &keys, &keys)
        .ok()
        .ok_or("the object has these keys")?;
    if let Some(v) = optional(map, Field::W) {
        assert!(rt; matches!(whole(alloc, v, &Place::here(&root), 1, 4096), Ok(4096)));
    }
    if let Some(v) = optional(map, Field::Kind) {
        assert!(rt; matches!(text(alloc, v, &Place::here(&root)), Ok("cm32")));
    }
    if let Some(v) = optional(map, Field::Off) {
        assert!(rt; matches!(flag(alloc, v, &Place::here(&root)), Ok(true)));
    }
    let cells = required(alloc, map, &root, Field::Cells)
        .ok()
        .ok_or("the field is there")?;
    assert!(rt; list(alloc, cells, &Place::here(&root)).is_ok_and(|cells| cells.len() == 2));
    Ok(())
}

#[test]
fn faults_are_told_at_their_place(rt: HostRuntime) -> Result<(), Fail> {
    let alloc = rt.alloc();
    let root = Path::root(alloc);
    let scene = Value::from_str(alloc, r#"{"w":1}"#)
        .ok()
        .ok_or("the text is JSON")?;
    let map = scene.as_object().ok_or("the value is an object")?;
    assert!(rt; all_there(alloc, map, &root, &[Field::W]).is_ok());
    let faults = [
        (all_there(alloc, map, &root, &[Field::H]).err(), 3, "/h"),
        (Some(fault_at(alloc, SceneCode::WrongKind, &root)), 4, ""),
    ];
    for (fault, number, path) in &faults {
        let Some(FieldFault::Fault(fault)) = fault else {
            return Err(Fail::from("this is no fault"));
        };
        assert_eq!(rt; (fault.code.number(), fault.path.text()), (*number, *path));
    }
    Ok(())
}

#[test]
fn codes_are_printed(rt: HostRuntime) {
    let codes = [
        (SceneCode::NotJson, 1, "NotJson"),
        (SceneCode::Placement, 11, "Placement"),
        (SceneCode::TooLong, 14, "TooLong"),
        (SceneCode::CamerasDiffer, 16, "CamerasDiffer"),
    ];
    for (code, number, name) in codes {
        assert_eq!(rt; code.number(), number);
        assert_eq!(rt; code.name(), name);
    }
}
