//! Laws over the definitions alone. No code runs: a law is the contract of a function that does nothing.

ghost use Rattle.line_commands.specs.Laws.{AnsweredInRange};

/// In the journal of answered lines each client asks under a number below 2^63, so the journal that is written reads as it again.
pub fn answered_in_range()
    ensures { AnsweredInRange }
{}
