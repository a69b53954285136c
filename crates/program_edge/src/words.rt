//! The words that a program is called with. This project's own.

use std::alloc::AllocError;
use std::env;
use std::rt::Env;

/// The words after the program's name; none where they can't be had.
pub fn words_of<R: Env + AllocGlobal>(rt: &R) -> Vec<String> {
    let Ok(arguments) = env::args(rt) else {
        return Vec::new(rt.alloc());
    };
    match arguments.skip(1).collect(rt.alloc()) {
        Ok(words) => words,
        Err(AllocError) => Vec::new(rt.alloc()),
    }
}
