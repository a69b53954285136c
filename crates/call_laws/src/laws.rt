//! The laws. The functions do nothing: each has a law as its contract.
ghost use Rattle.call_laws.specs.Calls.{AnswersAlone, CallsBegin, TurnsKeepCalls};

/// A turn of a call keeps the seat, the key and what the call asks; where it answers, no call is begun after it.
pub fn turns_keep_calls()
    ensures { TurnsKeepCalls }
{}

/// A turn with no step on a word answers only what the request and the local alone decide.
pub fn answers_alone()
    ensures { AnswersAlone }
{}

/// Where no call is begun, one begins that asks what is asked.
pub fn calls_begin()
    ensures { CallsBegin }
{}
