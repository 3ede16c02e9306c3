//! Laws of what a silo shows, over the definitions alone. No code runs: a law is the contract of a
//! function that does nothing.

ghost use Rattle.silo_model.specs.Laws.{ReplayIsRun, AgreeingLists};
ghost use Rattle.silo_core.specs.Reopening.{NothingIsLost, ReopeningAddsASegment};

/// What a run of the whole shows to each tenant is the run of the tenant's own machine, with the
/// other tenants' steps struck out.
pub fn replay_is_run()
    ensures { ReplayIsRun }
{
    silo_model::laws::replay_is_run();
}

/// Lists that have the same steps for a tenant give it equal parts, whatever tenants, rows and
/// steps stand beside it.
pub fn agreeing_lists()
    ensures { AgreeingLists }
{
    silo_model::laws::agreeing_lists();
}

/// A silo that opens again begins another segment: its journal from then on leads from where it was left.
#[tactic(auto, using(crate::proofs::Reopened::reopening_adds_a_segment))]
pub fn reopening_adds_a_segment()
    ensures { ReopeningAddsASegment }
{}

/// A silo that was reopened, once or many times, has lost nothing: the journals of its segments, one
/// after another, lead from its first opening to where it is, with the replies of all.
#[tactic(auto, using(crate::proofs::Reopened::nothing_is_lost))]
pub fn nothing_is_lost()
    ensures { NothingIsLost }
{}
