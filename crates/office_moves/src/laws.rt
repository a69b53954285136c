//! The laws. The functions do nothing: each has a law as its contract.

ghost use Rattle.office_moves.specs.Laws.{OfficeTurnsAreSteps, OfficeTurnsAreTold};

/// A turn at the office on a word is a step of the whole.
pub fn office_turns_are_steps()
    ensures { OfficeTurnsAreSteps }
{}

/// A turn at the office that asks the callback, or is told, is a step of the whole that changes no word.
pub fn office_turns_are_told()
    ensures { OfficeTurnsAreTold }
{}
