//! Laws of a silo that starts again and again from its log. Each is the contract of a function that does nothing.

ghost use Rattle.log_answer.specs.Laws.{LeftIsAll, LinesLeadOn, LogsApart, OwnTaken, SilosGrow, SilosLast, StartsGoOn, StartsTell};
ghost use Rattle.log_answer.specs.Laws.{TellsAsEver};

/// The text of a silo's replies to some lines is the beginning of the text of its replies to them and more lines after
/// them.
#[tactic(auto, using(crate::proofs::Led::silos_grow))]
pub fn silos_grow()
    ensures { SilosGrow }
{}

/// A start that answered a log again, whatever a crash left of it, goes on: what it keeps of the log is settled, and the silo is
/// where its lines lead, whether it keeps its history or drops it.
#[tactic(auto, using(crate::proofs::Lives::starts_go_on))]
pub fn starts_go_on()
    ensures { StartsGoOn }
{}

/// The marks in what such a start keeps record the sums of the text of the replies, up to the place where the log goes
/// on.
pub fn starts_tell()
    ensures { StartsTell }
{}

/// A start takes each log whose marks record the sums of the text of the replies, wherever the log was cut, unless it
/// fails with `Memory`.
#[tactic(auto, using(crate::proofs::Own::own_taken))]
pub fn own_taken()
    ensures { OwnTaken }
{}

/// However often a process ends and starts again: all that any of its runs wrote as replies is the beginning of what
/// the log that is left in the end answers, and the lines that a run began with are the first lines of that log.
#[tactic(auto, using(crate::proofs::Lives::silos_last))]
pub fn silos_last()
    ensures { SilosLast }
{}

/// Where lines lead, and then more, is where all of them lead.
#[tactic(auto, using(crate::proofs::Led::lines_lead_on))]
pub fn lines_lead_on()
    ensures { LinesLeadOn }
{}

/// Neither what lines lead to nor the text of their replies depends on replies that were made before.
pub fn tells_as_ever()
    ensures { TellsAsEver }
{}

/// What is left of a history is all of it, but for its steps and its replies.
#[tactic(auto, using(crate::proofs::Left::left_is_all))]
pub fn left_is_all()
    ensures { LeftIsAll }
{}

/// Two logs whose lines ask the same for a tenant show it the same, whatever the lines of others are.
pub fn logs_apart()
    ensures { LogsApart }
{}
