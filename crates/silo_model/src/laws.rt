//! Laws over the definitions alone. No code runs: a law is the contract of a function that does
//! nothing, so that it is proved with the crate.

ghost use Rattle.silo_model.specs.Collected.{IdleGoes};
ghost use Rattle.silo_model.specs.Exclusive.{JournalsAreExclusive, RunsAreExclusive};
ghost use Rattle.silo_model.specs.FirstCall.{FirstCallAnswered};
ghost use Rattle.silo_model.specs.Gates.{GateIsTables};
ghost use Rattle.silo_model.specs.Laws.{FailingIsPossible, ReplayIsRun, AgreeingLists, OwnPart, OtherParts, NotNow, RunsOn};
ghost use Rattle.silo_model.specs.Laws.{JournalsReplay, JournalsGrow, PartsLead};
ghost use Rattle.silo_model.specs.Order.{BeginInOrder};
ghost use Rattle.silo_model.specs.Parts.{StepAnswersInParts, RunsAnswer};
ghost use Rattle.silo_model.specs.Pending.{QuietByCounts};
ghost use Rattle.silo_model.specs.Readers.{ReadersTogether};
ghost use Rattle.silo_model.specs.Replies.{RepliesInOrder};
ghost use Rattle.silo_model.specs.Resting.{OneAgeCounts, RestingGoes, RestingIsUsed, StayingGoes, StayingStays};
ghost use Rattle.silo_model.specs.Saved.{SavedComesBack};
ghost use Rattle.silo_model.specs.Sent.{SentArrives};
ghost use Rattle.silo_model.specs.Segments.{ResumesAsItWas, SegmentsLead};
ghost use Rattle.silo_model.specs.Settled.{JournalsSettle, RunsSettle};
ghost use Rattle.silo_model.specs.Stores.{StoresAtOneRow};
ghost use Rattle.silo_model.specs.Todo.{SendsAreOwn, WorkIsDone};

/// What a run of the whole shows to each tenant is the run of the tenant's own machine, with the
/// other tenants' steps struck out.
#[tactic(auto, using(crate::proofs::Opening::replay_is_run))]
pub fn replay_is_run()
    ensures { ReplayIsRun }
{}

/// Lists that have the same steps for a tenant give it equal parts, whatever tenants, rows and
/// steps stand beside it.
#[tactic(auto, using(crate::proofs::Opening::agreeing_lists))]
pub fn agreeing_lists()
    ensures { AgreeingLists }
{}

/// A step that is done and concerns a tenant, as its own or as nobody's, is the machine's on the
/// tenant's part.
#[tactic(auto, using(crate::proofs::Journals::own_part))]
pub fn own_part()
    ensures { OwnPart }
{}

/// A step that is done leaves the part of a tenant that it doesn't concern.
#[tactic(auto, using(crate::proofs::Journals::other_parts))]
pub fn other_parts()
    ensures { OtherParts }
{}

/// A step that isn't possible for the whole isn't possible for the machine of a tenant that it
/// concerns.
#[tactic(auto, using(crate::proofs::Journals::not_now))]
pub fn not_now()
    ensures { NotNow }
{}

/// From where a journal leads, a run shows to each tenant the run of the tenant's own machine.
#[tactic(auto, using(crate::proofs::Journals::runs_on))]
pub fn runs_on()
    ensures { RunsOn }
{}

/// Whatever the answers that the whole gives to a list, those at a tenant's steps are its own
/// machine's over these steps alone, which lead that machine to the tenant's part.
pub fn answered_in_parts()
    ensures { StepAnswersInParts }
{}

/// If no storage call fails, the steps determine the answers: the whole and each tenant's machine give
/// the same ones at the tenant's steps.
#[tactic(auto, using(crate::proofs::AnswersInParts::runs_answer))]
pub fn runs_answer()
    ensures { RunsAnswer }
{}

/// The replies after a list are those before it, and then, step by step, what each step's owner's
/// machine adds.
#[tactic(auto, using(crate::proofs::RepliesInOrder::replies_in_order))]
pub fn replies_in_order()
    ensures { RepliesInOrder }
{}

/// A journal leads where the run of its steps leads.
#[tactic(auto, using(crate::proofs::Journals::journals_replay))]
pub fn journals_replay()
    ensures { JournalsReplay }
{}

/// A journal grows by a step that is done.
#[tactic(auto, using(crate::proofs::Journals::journals_grow))]
pub fn journals_grow()
    ensures { JournalsGrow }
{}

/// The steps of a journal that concern a tenant are all done in the tenant's own machine, and lead
/// to the tenant's part.
#[tactic(auto, using(crate::proofs::Journals::parts_lead))]
pub fn parts_lead()
    ensures { PartsLead }
{}

/// Whatever the steps and whoever's, a turn that may write is the only open turn of its grain.
#[tactic(auto, using(crate::proofs::ExclusiveRuns::runs_are_exclusive))]
pub fn runs_are_exclusive()
    ensures { RunsAreExclusive }
{}

/// So it is at every prefix of a journal.
#[tactic(auto, using(crate::proofs::FairJournals::journals_are_exclusive))]
pub fn journals_are_exclusive()
    ensures { JournalsAreExclusive }
{}

/// What a client asked is answered once, or waits, or is open; and no number stands twice.
#[tactic(auto, using(crate::proofs::FairRuns::runs_settle))]
pub fn runs_settle()
    ensures { RunsSettle }
{}

/// So it is in each part of a whole that a journal leads to.
#[tactic(auto, using(crate::proofs::FairJournals::journals_settle))]
pub fn journals_settle()
    ensures { JournalsSettle }
{}

/// A counter's first call is answered by the number that was added: so the other laws are said of
/// a silo that does something.
pub fn first_call_answered()
    ensures { FirstCallAnswered }
{}

/// A step is possible exactly if it is possible as one whose storage call failed.
#[tactic(auto, using(crate::proofs::FailedSteps::failing_is_possible))]
pub fn failing_is_possible()
    ensures { FailingIsPossible }
{}

/// The gate of calls and pokes refuses what the table of tenants refuses, for the same reason.
#[tactic(auto, using(crate::proofs::TableGate::gate_is_tables))]
pub fn gate_is_tables()
    ensures { GateIsTables }
{}

/// What the storage's calls answer of all rows is what a step does to the one row that it sees.
#[tactic(auto, using(crate::proofs::Stored::stores_at_one_row))]
pub fn stores_at_one_row()
    ensures { StoresAtOneRow }
{}

/// A state that was saved comes back if the grain is loaded again: so the laws are said of a
/// silo that stores something.
#[tactic(auto, using(crate::proofs::SavedStates::saved_comes_back))]
pub fn saved_comes_back()
    ensures { SavedComesBack }
{}

/// What a turn sends arrives: so the laws are said of a silo that delivers something.
pub fn sent_arrives()
    ensures { SentArrives }
{}

/// Two requests that only read may be open together, each on the state of its begin: so the turn
/// rule is said of a silo that lets more than one turn be open.
pub fn readers_together()
    ensures { ReadersTogether }
{}

/// A sweep takes the idle entries that are due, the age of their kind after they were last used and not before the
/// moment until which they stay; leaves every other, and leaves every row: so the laws are said of a silo that frees
/// what isn't used.
pub fn idle_goes()
    ensures { IdleGoes }
{}

/// An entry that rests goes with the end of its last turn, and its row is what its next activation loads.
pub fn resting_goes()
    ensures { RestingGoes }
{}

/// No entry that rests is idle, in any whole that a journal leads to: it goes in the step that leaves it idle.
pub fn resting_is_used()
    ensures { RestingIsUsed }
{}

/// An entry that stays isn't taken before its time has passed, unless a turn of it is closed again.
pub fn staying_stays()
    ensures { StayingStays }
{}

/// From then on, and an age after it was last used, a sweep takes it if it is idle.
pub fn staying_goes()
    ensures { StayingGoes }
{}

/// If no plan says anything of activations and no kind has an age of its own, no entry stays or rests, and a sweep takes
/// what was idle for the one age, and nothing else.
pub fn one_age_counts()
    ensures { OneAgeCounts }
{}

/// What is to do with a grain's entry, or is to be delivered of what it sent, would be done now.
#[tactic(auto, using(crate::proofs::WorkAtGrains::work_is_done))]
pub fn work_is_done()
    ensures { WorkIsDone }
{}

/// What a grain sent is in the account of its own tenant, in every whole that a journal leads to.
#[tactic(auto, using(crate::proofs::OwnSends::sends_are_own))]
pub fn sends_are_own()
    ensures { SendsAreOwn }
{}

/// Each tenant's part is quiet exactly if no request waits or is open, and no send is left, of
/// anyone.
pub fn quiet_by_counts()
    ensures { QuietByCounts }
{}

/// Requests of one grain begin in the order in which they were accepted: what waits stands in that
/// order, and what is open was accepted before all that waits.
#[tactic(auto, using(crate::proofs::Order::begin_in_order))]
pub fn begin_in_order()
    ensures { BeginInOrder }
{}

/// A silo in which all is idle, and which goes on from what is kept of it, opens as what it was, but for its replies.
#[tactic(auto, using(crate::proofs::Segments::resumes_as_it_was))]
pub fn resumes_as_it_was()
    ensures { ResumesAsItWas }
{}

/// If one journal leads to a whole where all is idle, and another leads on from what is kept of it, then the two, one
/// after the other, lead to where the second leads, with the replies of both.
#[tactic(auto, using(crate::proofs::Segments::segments_lead))]
pub fn segments_lead()
    ensures { SegmentsLead }
{}
