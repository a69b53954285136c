//! The laws. The functions do nothing: each has a law as its contract.

ghost use Rattle.paid_calls.specs.Laws.{CallsPay, LinesPay};

use pool_types::Raw;

/// What a call adds to its heap's grants and frees is what its request and its answer say.
pub fn calls_pay<R: Raw>()
    ensures { CallsPay R.out }
{}

/// What a thread's lines add to the grants and frees of its heap of a pool is what their requests of that pool, with
/// names as they are bound, and the answers of those say.
pub fn lines_pay<R: Raw>()
    ensures { LinesPay R.out }
{}
