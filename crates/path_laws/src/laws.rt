//! The laws. The functions do nothing: each has a law as its contract.

ghost use Rattle.path_laws.specs.Examples.{NamedCallsPay};
ghost use Rattle.path_laws.specs.Laws.{RunsPay};

use pool_types::Raw;

/// In each state that a pool's seats come to, whatever they begin and however their steps lie between each other, what
/// a seat's steps granted and freed is what its answers say, one call after another, and behind that what the call has
/// granted and freed that has no answer yet. A realloc that lost its object has granted one object at most, and freed
/// no other.
pub fn runs_pay<R: Raw>()
    ensures { RunsPay R.out R.faults R.got R.passed }
{}

/// Six calls by name, of each kind of answer that grants or frees, pay what they are said to.
pub fn named_calls_pay()
    ensures { NamedCallsPay }
{}
