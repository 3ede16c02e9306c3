//! Laws over the definitions alone. Each is the contract of a function that does nothing.

ghost use Rattle.log_host.specs.Laws.{AtEachMoment, CrashLeaves, LastsOn, LivesLast, StartsSettled};

/// After a crash the log has all that was brought to the disk, followed by anything. Nothing else that a process did
/// counts.
#[tactic(auto, using(crate::proofs::Crashes::crash_leaves))]
pub fn crash_leaves()
    ensures { CrashLeaves }
{}

/// What lasts at each moment lasts after any of the first acts.
pub fn at_each_moment()
    ensures { AtEachMoment }
{}

/// Whatever a crash left, the log that a start makes of it is settled.
#[tactic(auto, using(crate::proofs::Starts::starts_settled))]
pub fn starts_settled()
    ensures { StartsSettled }
{}

/// However often a process ends and starts again: all that any of its runs wrote as replies is the beginning of what
/// the log that is left in the end answers.
#[tactic(auto, using(crate::proofs::Lives::lives_last))]
pub fn lives_last()
    ensures { LivesLast }
{}

/// What lasts from some acts on to others, and from these on, lasts from the first on.
#[tactic(auto, using(crate::proofs::Lives::lasts_on))]
pub fn lasts_on()
    ensures { LastsOn }
{}
