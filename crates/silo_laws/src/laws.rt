//! Laws over the definitions alone. No code runs: a law is the contract of a function that does
//! nothing, so that it is proved with the crate.

ghost use Rattle.silo_laws.specs.AskedSteps.{AskedSteps};
ghost use Rattle.silo_laws.specs.AtOnce.{FirstCallAtOnce, SecondCallAtOnce};
ghost use Rattle.silo_laws.specs.Audits.{ChangedReplyFound, FirstReplyChecked, StepsCounted, StopFound, TableComesFirst};
ghost use Rattle.silo_laws.specs.Behind.{DeliveredBehind, DeliversAtMost, DeliversBytes};
ghost use Rattle.silo_laws.specs.Grains.{GrainsAreTold};
ghost use Rattle.silo_laws.specs.Limits.{LimitsHold};
ghost use Rattle.silo_laws.specs.Marks.{FailuresMarked};
ghost use Rattle.silo_laws.specs.Refusals.{RefusedByCode};
ghost use Rattle.silo_laws.specs.Rows.{ClearingEmpties, PokeIsStored, ReloadReads, StaleStoreEnds, WriteIsStored};
ghost use Rattle.silo_laws.specs.SecondCall.{SecondCallAnswered};
ghost use Rattle.silo_laws.specs.Status.{StatusTells};
ghost use Rattle.silo_laws.specs.Use.{UseIsNoted};

/// A counter's second call is answered by the sum: it sees what the first left.
pub fn second_call_answered()
    ensures { SecondCallAnswered }
{}

/// In every whole that a journal leads to, a tenant of the table has at most as many entries as it
/// may have, and at each of its grains at most as many requests wait as may; if no more of its grains
/// were kept at the opening than it may have.
pub fn limits_hold()
    ensures { LimitsHold }
{}

/// A grain is used when a request for it is accepted, and when a turn of it closes.
#[tactic(auto, using(crate::proofs::Use::use_is_noted))]
pub fn use_is_noted()
    ensures { UseIsNoted }
{}

/// Which calls and pokes are refused, and by which code: 21, 40, 22, 43, 41, 42, in this order; and
/// a call that none of these refuses is accepted.
#[tactic(auto, using(crate::proofs::Refusals::refused_by_code))]
pub fn refused_by_code()
    ensures { RefusedByCode }
{}

/// If what a grain sent is refused, the grain gets a reply that says why. It gets no other reply to
/// what it sent.
#[tactic(auto, using(crate::proofs::Refusals::grains_are_told))]
pub fn grains_are_told()
    ensures { GrainsAreTold }
{}

/// A poke leaves the row one version on with its state, replies with that version, and touches no
/// entry.
pub fn poke_is_stored()
    ensures { PokeIsStored }
{}

/// A write leaves the row one version on with the entry's state, on whose version the entry stands
/// then.
pub fn write_is_stored()
    ensures { WriteIsStored }
{}

/// A clearing empties the entry's state, and the row one version on; where there is no row it leaves
/// none.
pub fn clearing_empties()
    ensures { ClearingEmpties }
{}

/// A reload gives the entry the row's content, or the kind's empty state, and leaves the row.
pub fn reload_reads()
    ensures { ReloadReads }
{}

/// A write or a clearing that finds another version than its entry's touches no row, is answered by 54,
/// and ends the activation: what waits there waits for a new one.
pub fn stale_store_ends()
    ensures { StaleStoreEnds }
{}

/// The reply to a status has the number of the tenant's activations, the clock, and the number of
/// requests that were accepted: so it is after two calls of a new counter.
pub fn status_tells()
    ensures { StatusTells }
{}

/// A counter's first call that is answered at once takes the five steps of a first call, all of
/// which go well, and is answered by the number.
pub fn first_call_at_once()
    ensures { FirstCallAtOnce }
{}

/// Its second call takes three steps, since the counter is up, and is answered by the sum.
pub fn second_call_at_once()
    ensures { SecondCallAtOnce }
{}

/// At most n deliveries follow what is asked.
pub fn delivers_at_most()
    ensures { DeliversAtMost }
{}

/// Nor does more follow it once the messages of what was delivered have 262,144 bytes together: those of
/// all but the last have fewer.
pub fn delivers_bytes()
    ensures { DeliversBytes }
{}

/// If n isn't 0 and something that the tenant's grains sent is left, the oldest of it is delivered
/// after what is asked.
pub fn delivered_behind()
    ensures { DeliveredBehind }
{}

/// Exactly the steps that lanes give, with no mark of a failure, are asked; and exactly those went well
/// in which the storage didn't fail and which abandon no turn.
#[tactic(auto, using(crate::proofs::AskedSteps::asked_steps))]
pub fn asked_steps()
    ensures { AskedSteps }
{}

/// Of steps with the answers that they may have, those are taken as failed that say so or were answered so.
#[tactic(auto, using(crate::proofs::Marks::failures_marked))]
pub fn failures_marked()
    ensures { FailuresMarked }
{}

/// An audit finds the first recorded reply that is another than the machine's, by its place counted
/// from 1.
pub fn changed_reply_found()
    ensures { ChangedReplyFound }
{}

/// It finds the first step that isn't possible, by its place among those that concern its owner,
/// counted from 1.
#[tactic(auto, using(crate::proofs::Audits::stop_found))]
pub fn stop_found()
    ensures { StopFound }
{}

/// Of a counter's first call with another number recorded, the audit says that the first reply
/// differs.
pub fn first_reply_checked()
    ensures { FirstReplyChecked }
{}

/// A report counts a tenant's own steps, and nobody's.
pub fn steps_counted()
    ensures { StepsCounted }
{}

/// A report has the table's tenants first, in the table's order.
#[tactic(auto, using(crate::proofs::Audits::table_comes_first))]
pub fn table_comes_first()
    ensures { TableComesFirst }
{}
