//! The limits of traces, pools and regions. The contracts of what keeps them cite the same numbers of
//! `specs/Limits.antt`, so a number that differs is refused. All of them are this project's own.

/// The most bytes of a trace.
pub const MOST_TRACE_BYTES: usize = 4194304;

/// The most lines of a trace.
pub const MOST_LINES: u32 = 65536;

/// The most bytes of a line, before its newline.
pub const MOST_LINE_BYTES: usize = 1024;

/// The most threads of a trace.
pub const MOST_THREADS: usize = 64;

/// The most pools of a trace.
pub const MOST_POOLS: u16 = 8;

/// The most turns of a line that steps a call.
pub const MOST_TURNS: u64 = 1_000_000;

/// The most bytes of a thread's name.
pub const THREAD_NAME_BYTES: usize = 8;

/// The most bytes of a bound name.
pub const BOUND_NAME_BYTES: usize = 16;

/// The most seats of a pool.
pub const MOST_SEATS: u8 = 64;

/// The most granule indices of a pool.
pub const MOST_SPAN: u32 = 1024;

/// The most regions that a pool has out at a time.
pub const MOST_REGIONS: usize = 64;

/// The numbers of a pool's regions lie below this.
pub const REGION_NUMBERS: u64 = 4194304;

/// The most bytes of the least region that may be asked for, and of the granularity.
pub const MOST_REGION_BYTES: u64 = 8388608;

/// The granule indices of a pool whose line names no span.
pub const PLAIN_SPAN: u32 = 1024;

/// The least region of a pool whose line names none.
pub const PLAIN_REGION_BYTES: u64 = 1048576;
