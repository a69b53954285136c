//! Laws of totals. Each is what a function with an empty body ensures.

ghost use Rattle.step_parts.specs.Laws.{TotalsFollowParts};

/// Totals by parts follow a move as those of a partition do: each count loses the bytes that leave its holders and
/// gains those that come to them, where no count runs out or over.
pub fn totals_follow_parts()
    ensures { TotalsFollowParts }
{}
