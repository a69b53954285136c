use super::*;
use crate::acts::{PoolOption, TraceCall, What};
use pool_types::{Place, Row};
use std::test::Fail;

/// The number of lines that were read, or the line and the kind of what is refused.
fn outcome(alloc: Global, bytes: &[u8], forms: Forms) -> Result<usize, (u32, u8)> {
    match read_trace(alloc, bytes, forms) {
        Ok(trace) => Ok(trace.lines().len()),
        Err(TraceRefused::Bad(error)) => Err((error.line, error.kind)),
        Err(TraceRefused::NoMemory) => Err((0, 0)),
    }
}

/// The outcome of a text of two threads, one pool and one bound name, and of this as its fourth line.
fn outcome_of_line(alloc: Global, line: &[u8]) -> Result<Result<usize, (u32, u8)>, Fail> {
    let mut text = Vec::from_slice(
        alloc,
        b"threads A B\npool P0 fixed\nA P0 x = malloc 8\n".as_slice(),
    )?;
    text.extend_from_slice(line)?;
    text.push(b'\n')?;
    Ok(outcome(alloc, text.as_slice(), Forms::All))
}

#[test]
fn reads_each_form_of_a_line(rt: HostRuntime) -> Result<(), Fail> {
    let lines: [&[u8]; 24] = [
        b"",
        b"# a comment, \x7f",
        b"pool P1",
        b"pool P1 gran=0 region=18446744073709551615 span=4294967295 version=1 reserved=0 noget nofree keep fixed",
        b"raw P0 get 0 18446744073709551615",
        b"raw P0 getfail",
        b"raw P0 putok",
        b"raw P0 putfail",
        b"B P0 y = aligned 64 18446744073709551615",
        b"B P0 y = realloc x 0",
        b"B P0 y = arealloc null 8 64",
        b"B P0 free = malloc 8",
        b"A P0 free x",
        b"A P0 free null",
        b"A P0 msize P0.R0+0",
        b"A P0 identify P7.R4194303+18446744073709551615",
        b"A P0 exit",
        b"begin A P0 a_name_of_16_byt = malloc 18446744073709551615",
        b"begin A P0 exit",
        b"step A P0 1000000",
        b"upto A P0 F10",
        b"finish A P0",
        b"reset P0",
        b"destroy P0",
    ];
    for (i, line) in lines.iter().enumerate() {
        let expected = if i < 2 { 3 } else { 4 };
        assert_eq!(rt; outcome_of_line(rt.alloc(), line)?, Ok(expected), "at {i}");
    }
    Ok(())
}

#[test]
fn refuses_each_word_with_its_kind(rt: HostRuntime) -> Result<(), Fail> {
    let cases: [(&[u8], u8); 66] = [
        (b" A P0 exit", 1),
        (b"A  P0 exit", 1),
        (b"A P0 exit ", 1),
        (b"A P0 exit\t", 1),
        (b"A P0 exit x", 1),
        (b"A", 1),
        (b"A P0", 1),
        (b"A P0 y", 1),
        (b"A P0 y =", 1),
        (b"A P0 x =", 6),
        (b"A P0 y = free x", 1),
        (b"A P0 y = malloc", 1),
        (b"A P0 y = malloc \x7f", 1),
        (b"A P0 malloc 8", 1),
        (b"A P0 x free", 1),
        (b"A P0 Y = malloc 8", 1),
        (b"A P0 null = malloc 8", 1),
        (b"A P0 a_name_of_17_byte = malloc 8", 1),
        (b"A P0 free null null", 1),
        (b"A P0 free P8.R0+0", 1),
        (b"A P0 free P0.R4194304+0", 1),
        (b"A P0 free P0.R00+0", 1),
        (b"A P0 free P0.R0+18446744073709551616", 1),
        (b"a P0 exit", 1),
        (b"A P8 exit", 1),
        (b"bogus", 1),
        (b"upto A P0 Nothing", 1),
        (b"upto A P0 B7", 1),
        (b"raw P0 put", 1),
        (b"pool P1 fixed=1", 1),
        (b"pool P1 span", 1),
        (b"pool P1 span=\x7f", 1),
        (b"pool", 1),
        (b"pool P8", 1),
        (b"finish A P0 x", 1),
        (b"A P0 y = malloc 18446744073709551616", 2),
        (b"A P0 y = malloc 00", 2),
        (b"A P0 y = malloc +1", 2),
        (b"A P0 y = malloc x", 2),
        (b"A P0 y = aligned 8 x", 2),
        (b"A P0 y = realloc x x", 2),
        (b"step A P0 0", 2),
        (b"step A P0 1000001", 2),
        (b"raw P0 get x 0", 2),
        (b"pool P1 span=4294967296", 2),
        (b"pool P1 gran=18446744073709551616", 2),
        (b"pool P1 reserved=", 2),
        (b"pool P1 span=5 span=x", 2),
        (b"A P1 exit", 3),
        (b"begin A P1 x = malloc x", 3),
        (b"raw P7 x", 3),
        (b"reset P1 x", 3),
        (b"C P1 exit", 4),
        (b"begin C P8 x", 4),
        (b"step C P0 0", 4),
        (b"A P0 free y", 5),
        (b"A P0 y = realloc y x", 5),
        (b"A P0 y = arealloc z x x", 5),
        (b"A P0 x = malloc x", 6),
        (b"begin A P0 x = aligned 0", 6),
        (b"pool P2", 7),
        (b"pool P0 x", 7),
        (b"pool P1 keep keep", 7),
        (b"pool P1 span=5 gran=1 span=6 x", 7),
        (b"threads", 8),
        (b"threads C \x7f", 8),
    ];
    for (i, (line, kind)) in cases.iter().enumerate() {
        assert_eq!(rt;
            outcome_of_line(rt.alloc(), line)?,
            Err((4, *kind)),
            "at {i}"
        );
    }
    Ok(())
}

#[test]
fn refuses_the_first_line_by_the_order_of_the_kinds(rt: HostRuntime) -> Result<(), Fail> {
    let cases: [(&[u8], u32, u8); 14] = [
        (b"threads\n", 1, 1),
        (b"threads A A\n", 1, 8),
        (b"threads A b A\n", 1, 1),
        (b"threads ABCDEFGHI\n", 1, 1),
        (b"pool P0\nthreads A\n", 2, 8),
        (b"A P0 exit\n", 1, 4),
        (b"pool P0\nA P0 exit\n", 2, 4),
        (b"pool P1\n", 1, 7),
        (b"threads A", 1, 11),
        (b"# a comment", 1, 11),
        (b"threads A\n\nbogus\nbogus", 3, 1),
        (
            b"pool P0\npool P1\npool P2\npool P3\npool P4\npool P5\npool P6\npool P7\npool\n",
            9,
            1,
        ),
        (
            b"pool P0\npool P1\npool P2\npool P3\npool P4\npool P5\npool P6\npool P7\npool \n",
            9,
            9,
        ),
        (
            b"pool P0\npool P1\npool P2\npool P3\npool P4\npool P5\npool P6\npool P7\npool P8 x\n",
            9,
            9,
        ),
    ];
    for (i, (bytes, line, kind)) in cases.iter().enumerate() {
        assert_eq!(rt;
            outcome(rt.alloc(), bytes, Forms::All),
            Err((*line, *kind)),
            "at {i}"
        );
    }
    Ok(())
}

#[test]
fn refuses_forms_that_are_not_served(rt: HostRuntime) -> Result<(), Fail> {
    let head = b"threads A\npool P0 fixed\n".as_slice();
    let cases: [(&[u8], Forms, u32, u8); 17] = [
        (b"threads A \x7f\n", Forms::Plain, 1, 12),
        (b"threads a B\n", Forms::Plain, 1, 1),
        (b"pool P0\n", Forms::Plain, 1, 12),
        (b"pool P0 keep keep\n", Forms::Plain, 1, 7),
        (b"raw\n", Forms::Plain, 1, 12),
        (b"begin\n", Forms::Plain, 1, 12),
        (b"x y exit\n", Forms::Plain, 1, 12),
        (b"x y z = realloc\n", Forms::Plain, 1, 12),
        (b"x y z = malloc\n", Forms::Plain, 1, 1),
        (
            b"threads A\npool P0 fixed\nA P0 x = malloc 8129 8\n",
            Forms::Plain,
            3,
            12,
        ),
        (
            b"threads A\npool P0 fixed\nA P0 x = malloc 8128 8\n",
            Forms::Plain,
            3,
            1,
        ),
        (
            b"threads A\npool P0 fixed\npool P1 fixed\n",
            Forms::Plain,
            3,
            12,
        ),
        (b"begin x\n", Forms::Threads, 1, 12),
        (b"destroy\n", Forms::Threads, 1, 12),
        (b"raw\n", Forms::Threads, 1, 1),
        (b"threads A B\nraw P0\n", Forms::Threads, 2, 3),
        (b"begin x\n", Forms::All, 1, 1),
    ];
    for (i, (bytes, forms, line, kind)) in cases.iter().enumerate() {
        assert_eq!(rt;
            outcome(rt.alloc(), bytes, *forms),
            Err((*line, *kind)),
            "at {i}"
        );
    }
    assert_eq!(rt; outcome(rt.alloc(), head, Forms::Plain), Ok(2));
    Ok(())
}

#[test]
fn refuses_lines_that_are_too_long_or_too_many(rt: HostRuntime) -> Result<(), Fail> {
    let mut comment = Vec::new(rt.alloc());
    for _ in 0..1024 {
        comment.push(b'#')?;
    }
    comment.push(b'\n')?;
    assert_eq!(rt; outcome(rt.alloc(), comment.as_slice(), Forms::All), Ok(0));
    comment.insert(0, b'#')?;
    assert_eq!(rt;
        outcome(rt.alloc(), comment.as_slice(), Forms::All),
        Err((1, 10))
    );
    let mut lines = Vec::new(rt.alloc());
    for _ in 0..65536 {
        lines.push(b'\n')?;
    }
    assert_eq!(rt; outcome(rt.alloc(), lines.as_slice(), Forms::All), Ok(0));
    lines.push(b'x')?;
    assert_eq!(rt;
        outcome(rt.alloc(), lines.as_slice(), Forms::All),
        Err((65537, 11))
    );
    lines.push(b'\n')?;
    assert_eq!(rt;
        outcome(rt.alloc(), lines.as_slice(), Forms::All),
        Err((65537, 9))
    );
    Ok(())
}

/// A whole call of the first thread on the first pool.
fn whole(call: TraceCall) -> Act {
    Act::Call {
        thread: 0,
        pool: 0,
        call,
    }
}

#[test]
fn gives_back_what_the_lines_do(rt: HostRuntime) -> Result<(), Fail> {
    let text =
        b"threads A B2\n\npool P0 span=5\nB2 P0 x = malloc 8\nA P0 free P0.R12+16\nupto A P0 G4\n";
    let trace = read_trace(rt.alloc(), text.as_slice(), Forms::All)
        .ok()
        .ok_or("refused")?;
    let names = trace.threads();
    assert_eq!(rt; names.len(), 2);
    assert_eq!(rt; names[1].bytes.as_slice(), b"B2".as_slice());
    assert_eq!(rt; trace.pools().len(), 1);
    assert_eq!(rt;
        trace.pools()[0].as_slice(),
        [PoolOption::Span(5)].as_slice()
    );
    let place = Place {
        pool: 0,
        region: 12,
        offset: 16,
    };
    let want = [
        (1, Act::Threads),
        (3, Act::Pool { pool: 0 }),
        (
            4,
            Act::Call {
                thread: 1,
                pool: 0,
                call: TraceCall::Malloc { name: 0, size: 8 },
            },
        ),
        (
            5,
            whole(TraceCall::Free {
                what: What::Place(place),
            }),
        ),
        (
            6,
            Act::UpTo {
                thread: 0,
                pool: 0,
                row: Row::G4,
            },
        ),
    ];
    let lines = trace.lines();
    assert_eq!(rt; lines.len(), want.len());
    for (line, (number, act)) in lines.iter().zip(want.iter()) {
        assert_eq!(rt; (line.line, line.act), (*number, *act));
    }
    Ok(())
}

#[test]
fn names_are_numbered_as_they_are_bound(rt: HostRuntime) -> Result<(), Fail> {
    let text = b"threads A\npool P0\npool P1 keep\nA P0 zz = malloc 8\nA P0 a = malloc 9\n\
        begin A P1 b = realloc a 3\nA P0 free zz\nA P0 msize b\nA P0 c = realloc b 1\n";
    let trace = read_trace(rt.alloc(), text.as_slice(), Forms::All)
        .ok()
        .ok_or("refused")?;
    let pools = trace.pools();
    assert_eq!(rt; pools.len(), 2);
    assert!(rt; pools[0].is_empty());
    assert_eq!(rt; pools[1].as_slice(), [PoolOption::Keep].as_slice());
    let realloc = |name, what, size| TraceCall::Realloc {
        name,
        what: What::Name(what),
        size,
    };
    let want = [
        whole(TraceCall::Malloc { name: 0, size: 8 }),
        whole(TraceCall::Malloc { name: 1, size: 9 }),
        Act::Begin {
            thread: 0,
            pool: 1,
            call: realloc(2, 1, 3),
        },
        whole(TraceCall::Free {
            what: What::Name(0),
        }),
        whole(TraceCall::Msize {
            what: What::Name(2),
        }),
        whole(realloc(3, 2, 1)),
    ];
    let lines = trace.lines();
    assert_eq!(rt; lines.len(), 3 + want.len());
    for (line, act) in lines[3..].iter().zip(want.iter()) {
        assert_eq!(rt; line.act, *act);
    }
    Ok(())
}
