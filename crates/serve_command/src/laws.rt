//! Laws over the definitions alone. No code runs: a law is the contract of a function that does nothing.

ghost use Rattle.serve_command.specs.Laws.{ServedInRange};

/// In the journal of served lines each client asks under a number below 2^63, so the journal that is written reads as it again.
pub fn served_in_range()
    ensures { ServedInRange }
{}
