//! Whole traces, worked by hand from the rules of `docs/trace.md`.

use crate::generated;
use std::test::Fail;

#[test]
fn a_trace_without_calls(rt: HostRuntime) -> Result<(), Fail> {
    let text = generated(rt.alloc(), 7, 2, 0)?;
    assert!(rt; text.as_slice() == b"threads A0 A1\npool P0\nA0 P0 exit\nA1 P0 exit\n".as_slice());
    Ok(())
}

#[test]
fn a_trace_of_one_call(rt: HostRuntime) -> Result<(), Fail> {
    let text = generated(rt.alloc(), 1, 1, 1)?;
    let want = b"threads A0\npool P0\nA0 P0 v0 = malloc 870\nA0 P0 free v0\nA0 P0 exit\n";
    assert!(rt; text.as_slice() == want.as_slice());
    Ok(())
}

#[test]
fn two_threads_free_each_others_objects(rt: HostRuntime) -> Result<(), Fail> {
    let text = generated(rt.alloc(), 3, 2, 6)?;
    let want = b"threads A0 A1\npool P0\n\
        A1 P0 v0 = malloc 138\nA0 P0 free v0\nA1 P0 v1 = malloc 1363\n\
        A0 P0 free v1\nA0 P0 v2 = malloc 1179\nA1 P0 free v2\n\
        A0 P0 exit\nA1 P0 exit\n";
    assert!(rt; text.as_slice() == want.as_slice());
    Ok(())
}
