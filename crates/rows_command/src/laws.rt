//! Laws over the definitions alone. Each is the contract of a function that does nothing.

ghost use Rattle.rows_command.specs.Laws.{PrintsAsReplies};

/// A state is printed as replies have it.
#[tactic(auto, using(crate::proofs::States::prints_as_replies))]
pub fn prints_as_replies()
    ensures { PrintsAsReplies }
{}
