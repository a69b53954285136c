//! The forms of lines, and of command lines.

/// How the program is called.
pub const USAGE: &str =
    "call it as `poolreplay replay < TRACE`, `poolreplay replay --moves < TRACE`, or \
    `poolreplay gen SEED THREADS CALLS` with 1 to 64 threads and at most 20000 calls; docs/trace.md has the language";

/// What a line of this first word looks like.
pub fn form_of(first: &str) -> &'static str {
    match first {
        "threads" => {
            "a `threads` line has up to 64 names, each a letter A to Z and then up to seven of A to Z, 0 to 9 and `_`"
        }
        "pool" => {
            "a pool's line is `pool P0`, `pool P1` and so on, and then options: fixed keep noget nofree gran=N \
                region=N span=N version=N reserved=N"
        }
        "raw" => {
            "a raw line is `raw P get BASE BYTES`, `raw P getfail`, `raw P putok` or `raw P putfail`"
        }
        "begin" => "a begin line is `begin THREAD P CALL`",
        "step" => "a step line is `step THREAD P N`",
        "upto" => "an upto line is `upto THREAD P ROW`; docs/steps.md has the rows",
        "finish" => "a finish line is `finish THREAD P`",
        "reset" => "a reset line is `reset P`",
        "destroy" => "a destroy line is `destroy P`",
        _ => {
            "a line is `THREAD P CALL`, or begins with threads, pool, raw, begin, step, upto, finish, reset or \
                destroy; a CALL is `NAME = malloc SIZE`, `NAME = aligned SIZE ALIGNMENT`, `NAME = realloc WHAT SIZE`, \
                `NAME = arealloc WHAT SIZE ALIGNMENT`, `free WHAT`, `msize WHAT`, `identify WHAT` or `exit`"
        }
    }
}
