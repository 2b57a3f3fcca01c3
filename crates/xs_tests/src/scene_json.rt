//! A scene text that is read and written, and one with faults.

use std::test::Fail;
use xs_fault::FieldFault;
use xs_scene_json::{decode, encode};

const TEXT: &[u8] =
    br#"{"format":1,"camera":{"w":1,"h":1},"palettes":[],"levels":[{"kind":"colour","drawings":["d.xrl"]}],"sheets":[{"columns":[{"cells":[{"from":1,"to":1,"level":0,"drawing":0}]}]}]}"#;

#[test]
fn texts_are_written_in_one_form(rt: HostRuntime) -> Result<(), Fail> {
    let alloc = rt.alloc();
    let scene = decode(alloc, TEXT).ok().ok_or("the text is a scene")?;
    let first: &[u8] =
        br#"{"camera":{"h":1,"w":1},"format":1,"levels":[{"drawings":["d.xrl"],"kind":"colour"}],"palettes":[],"sheets":[{"columns":[{"cells":[{"drawing":0,"from":1,"level":0,"to":1}]}]}]}"#;
    assert_eq!(rt; encode(alloc, &scene)?.as_slice(), first);
    let second: &[u8] =
        br#"{"camera":{"h":1,"w":1},"format":2,"levels":[{"drawings":["d.xrl"],"kind":"colour"}],"palettes":[],"sheets":[{"columns":[{"cells":[{"drawing":0,"from":1,"level":0,"to":1}]}]}]}"#;
    assert_eq!(rt; encode(alloc, &scene.migrated())?.as_slice(), second);
    Ok(())
}

#[test]
fn a_fault_is_told_at_its_path(rt: HostRuntime) -> Result<(), Fail> {
    match decode(
        rt.alloc(),
        br#"{"camera":{"w":0},"format":3,"levels":0,"palettes":0,"sheets":0}"#,
    ) {
        Err(FieldFault::Fault(fault)) => {
            assert_eq!(rt; fault.code.number(), 5);
            assert_eq!(rt; fault.path.text(), "/format");
            Ok(())
        }
        _ => Err(Fail::from("the format is out of range")),
    }
}
