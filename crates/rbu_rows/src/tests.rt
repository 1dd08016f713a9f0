use super::*;
use rbu_value::{Bytes, Value};
use std::alloc::Global;
use std::process::Abort;
use std::test::Fail;

// Texts with the marks that they are, one for each column.
const MARKS: [(&[u8], &[bool]); 3] = [
    (b"x.x", &[true, false, true]),
    (b"...", &[false, false, false]),
    (b"", &[]),
];

// Texts that are no controls of so many columns.
const FAULTS: [(&[u8], u32, ControlFault); 8] = [
    (b".d", 3, ControlFault::ControlLength { has: 2, needs: 3 }),
    (b"yyyy", 3, ControlFault::ControlLength { has: 4, needs: 3 }),
    (b"", 1, ControlFault::ControlLength { has: 0, needs: 1 }),
    (b"..d", 3, ControlFault::DeltaColumn { place: 2 }),
    (b"f.y", 3, ControlFault::DeltaColumn { place: 0 }),
    (b"..y", 3, ControlFault::ControlLetter { place: 2 }),
    (b"xXd", 3, ControlFault::ControlLetter { place: 1 }),
    (b"x 1", 3, ControlFault::ControlLetter { place: 1 }),
];

fn check_fault(rt: &impl Abort, alloc: Global, value: &Value, columns: u32, fault: ControlFault) {
    assert!(rt; read_control(alloc, value, columns).is_err_and(|other| other == fault));
}

#[test]
fn controls_are_read_or_refused(rt: HostRuntime) -> Result<(), Fail> {
    let alloc = rt.alloc();
    assert!(rt; matches!(read_control(alloc, &Value::Int(0), 3)?, Control::Insert));
    assert!(rt; matches!(read_control(alloc, &Value::Int(1), 3)?, Control::Delete));
    assert!(rt; matches!(read_control(alloc, &Value::Int(2), 3)?, Control::Replace));
    for (text, marks) in MARKS {
        let value = Value::Text(Bytes::of(alloc, text)?);
        match read_control(alloc, &value, marks.len() as u32)? {
            Control::Update(read) => assert_eq!(rt; read.as_slice(), marks),
            _ => assert!(rt; false),
        }
    }
    for (text, columns, fault) in FAULTS {
        let value = Value::Text(Bytes::of(alloc, text)?);
        check_fault(&rt, alloc, &value, columns, fault);
    }
    for z in [3, -1, i64::MAX] {
        check_fault(&rt, alloc, &Value::Int(z), 3, ControlFault::ControlValue);
    }
    check_fault(&rt, alloc, &Value::Null, 3, ControlFault::ControlValue);
    let blob = Value::Blob(Bytes::of(alloc, b"x.x")?);
    check_fault(&rt, alloc, &blob, 3, ControlFault::ControlValue);
    Ok(())
}
