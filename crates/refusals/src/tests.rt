//! Sentences on refused lines.

use crate::tell_refusal;
use std::test::Fail;

#[test]
fn each_kind_is_told(rt: HostRuntime) -> Result<(), Fail> {
    let cases = [
        (
            "A P0 x = malloc 0x40\n",
            1,
            2,
            "line 1: `0x40`: a size or another number is written in decimal digits",
        ),
        (
            "#\nA P0 x = malloc 010\n",
            2,
            2,
            "line 2: `010`: a number has no zero in front",
        ),
        (
            "pool P0 span=4294967296\n",
            1,
            2,
            "line 1: `span=4294967296`: a span, a version and a reserved word are at most 4294967295",
        ),
        (
            "step A P0 0\n",
            1,
            2,
            "line 1: `0`: a number of turns is from 1 to 1000000",
        ),
        (
            "A P1 exit\n",
            1,
            3,
            "line 1: `P1`: no earlier `pool` line has this pool",
        ),
        (
            "begin B P0 exit\n",
            1,
            4,
            "line 1: `B`: the `threads` line does not name this thread",
        ),
        (
            "A P0 free x\n",
            1,
            5,
            "line 1: `x`: no earlier line binds this name",
        ),
        (
            "reset P0\n",
            1,
            12,
            "line 1: `reset`: threads run whole calls, and no line of this form; `poolreplay replay` does",
        ),
        (
            "A P0 y = realloc x 5\n",
            1,
            5,
            "line 1: `x`: no earlier line binds this name",
        ),
        (
            "A P0 x = malloc 8\r\n",
            1,
            1,
            "line 1: it ends with a carriage return, as Windows writes lines: ",
        ),
        (
            "A\tP0 x = malloc 8\n",
            1,
            1,
            "line 1: a tab stands in it: one space separates words",
        ),
        (
            "A P0 exit \n",
            1,
            1,
            "line 1: a space stands at the line's end",
        ),
        ("exit", 1, 11, "line 1: the last line has no newline"),
    ];
    for (trace, line, kind, want) in cases {
        let told = tell_refusal(rt.alloc(), trace.as_bytes(), line, kind)?;
        assert!(rt; told.as_str().starts_with(want), "at {trace}: {told}");
    }
    Ok(())
}
