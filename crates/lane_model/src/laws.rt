//! Laws over the definitions alone. No code runs: a law is the contract of a function that does
//! nothing, so that it is proved with the crate.

ghost use Rattle.lane_model.specs.Candidates.{CoversBegin, CoversGrow, NothingToDo};
ghost use Rattle.lane_model.specs.Counting.{PendingByCounts};
ghost use Rattle.lane_model.specs.Lanes.{PassDecides, StepsToldApart, TicksAreDone};
ghost use Rattle.lane_model.specs.Pacing.{AnsweredInOrder, PacedAtEach, PacedGrows};
ghost use Rattle.lane_model.specs.Serving.{FirstCallServed, LanesAnswered};

/// A journal is paced exactly if nothing of a client waits or is open just before each step by
/// which it asks.
#[tactic(auto, using(crate::proofs::LaneAnswers::paced_at_each))]
pub fn paced_at_each()
    ensures { PacedAtEach }
{}

/// A journal with one step more is paced if the journal is, and if nothing of the step's client
/// waits or is open.
#[tactic(auto, using(crate::proofs::PacedGrowth::paced_grows))]
pub fn paced_grows()
    ensures { PacedGrows }
{}

/// In a paced journal a client of whom nothing waits or is open has a reply to each of its requests, in
/// the order in which it made them.
#[tactic(auto, using(crate::proofs::AnswerOrder::answered_in_order))]
pub fn answered_in_order()
    ensures { AnsweredInOrder }
{}

/// Of ticks and sweeps a machine does those that the lane of nobody says: no tick below its clock,
/// and each other.
#[tactic(auto, using(crate::proofs::TicksDone::ticks_are_done))]
pub fn ticks_are_done()
    ensures { TicksAreDone }
{}

/// There is a test that tells steps apart, if it is left aside whether their storage calls failed.
#[tactic(auto, using(crate::proofs::ToldApart::steps_told_apart))]
pub fn steps_told_apart()
    ensures { StepsToldApart }
{}

/// One pass over a journal, with what is left of each lane, decides whether the lanes stand in it.
#[tactic(auto, using(crate::proofs::PassOfLanes::pass_decides))]
pub fn pass_decides()
    ensures { PassDecides }
{}

/// If lanes were served, each client has a reply to each step of its lane, in the lane's order.
pub fn lanes_answered()
    ensures { LanesAnswered }
{}

/// If candidates cover a silo and are none, nothing is to do.
#[tactic(auto, using(crate::proofs::Candidates::nothing_to_do))]
pub fn nothing_to_do()
    ensures { NothingToDo }
{}

/// When a silo opens of which nothing was kept, no candidates cover it.
#[tactic(auto, using(crate::proofs::Candidates::covers_begin))]
pub fn covers_begin()
    ensures { CoversBegin }
{}

/// Candidates that cover a silo cover it still after a step, with the step's own grains.
#[tactic(auto, using(crate::proofs::Candidates::covers_grow))]
pub fn covers_grow()
    ensures { CoversGrow }
{}

/// Nothing of a client waits or is open exactly if it has as many replies as it made requests.
#[tactic(auto, using(crate::proofs::CountsOfAll::pending_by_counts))]
pub fn pending_by_counts()
    ensures { PendingByCounts }
{}

/// A counter's first call is served in the lane of its client: so the other laws are said of lanes
/// that are served.
pub fn first_call_served()
    ensures { FirstCallServed }
{}
