//! The texts of a trace's lines.
ghost use Rattle.std.specs.Prelude.{◌≡◌, ◌++◌, OnOk, codes};
ghost use Rattle.std.specs.Fmt.{decimal};
ghost use Rattle.trace_gen.specs.Generated.{exit_line, free_line, malloc_line};

use std::alloc::AllocError;
use std::io::Write;

/// Adds a thread's name to the line that names the threads.
pub fn add_thread(text: &mut Vec<u8>, thread: u8) -> Result<(), AllocError>
    ensures { OnOk result (text.new.items ≡ text.old.items ++ (codes " A" ++ decimal thread)) }
{
    match write!(text, " A{thread}") {
        Ok(()) => Ok(()),
        Err(_) => Err(AllocError),
    }
}

/// Adds the line by which a thread asks for so many bytes.
pub fn add_malloc(text: &mut Vec<u8>, thread: u64, name: u32, size: u64) -> Result<(), AllocError>
    ensures { OnOk result (text.new.items ≡ text.old.items ++ malloc_line thread name size) }
{
    match writeln!(text, "A{thread} P0 v{name} = malloc {size}") {
        Ok(()) => Ok(()),
        Err(_) => Err(AllocError),
    }
}

/// Adds the line by which a thread frees what a name stands for.
pub fn add_free(text: &mut Vec<u8>, thread: u64, name: u32) -> Result<(), AllocError>
    ensures { OnOk result (text.new.items ≡ text.old.items ++ free_line thread name) }
{
    match writeln!(text, "A{thread} P0 free v{name}") {
        Ok(()) => Ok(()),
        Err(_) => Err(AllocError),
    }
}

/// Adds the line by which a thread leaves the pool.
pub fn add_exit(text: &mut Vec<u8>, thread: u8) -> Result<(), AllocError>
    ensures { OnOk result (text.new.items ≡ text.old.items ++ exit_line thread) }
{
    match writeln!(text, "A{thread} P0 exit") {
        Ok(()) => Ok(()),
        Err(_) => Err(AllocError),
    }
}
