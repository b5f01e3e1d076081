use array_shape::{BadShape, ShapeNumber};
use history::Reply;
use row_bytes::HeaderFault;
use script_text::write_reply;
use std::test::Fail;

#[test]
fn replies_that_no_run_gives(rt: HostRuntime) -> Result<(), Fail> {
    let mut out = Vec::new(rt.alloc());
    write_reply(&mut out, 0, &Reply::Dead)?;
    write_reply(&mut out, 9, &Reply::NoMemory)?;
    write_reply(&mut out, 99, &Reply::Damaged { page: 128 })?;
    write_reply(&mut out, 255, &Reply::Committed(u64::MAX))?;
    let lines = b"0 dead\n9 no memory\n99 damaged 128\n255 committed 18446744073709551615\n";
    assert!(rt; out.as_slice() == lines.as_slice());
    Ok(())
}

#[test]
fn faults_of_a_header(rt: HostRuntime) -> Result<(), Fail> {
    let shape = HeaderFault::BadShape(BadShape {
        which: ShapeNumber::Entries,
        given: 7,
    });
    let texts = format!(in rt.alloc(); "{}, {shape}", HeaderFault::NotMars)?;
    assert!(rt; texts.as_str() == "not mars, bad shape 3 7");
    Ok(())
}
