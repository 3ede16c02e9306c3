//! Laws over the definitions alone. No code runs: a law is the contract of a function that does
//! nothing, so that it is proved with the crate.

ghost use Rattle.answer_model.specs.Apart.{TenantsApart};
ghost use Rattle.answer_model.specs.Certain.{AnsweredCertainly, AnsweredSurely};
ghost use Rattle.answer_model.specs.Idle.{AnsweredAtOnce};
ghost use Rattle.answer_model.specs.Untold.{AnswersAsEver};
ghost use Rattle.answer_model.specs.Waiting.{NoneAdded};

/// What a silo that answers each request at once shows to each tenant is what the tenant's own machine
/// is after what the tenant and nobody asked alone.
#[tactic(auto, using(crate::proofs::Apart::tenants_apart))]
pub fn tenants_apart()
    ensures { TenantsApart }
{}

/// If nothing waits and nothing is open, so it is again when anything was answered; and who asked has
/// one reply, the first of all that are new, of which the others are replies to grains.
pub fn answered_at_once()
    ensures { AnsweredAtOnce }
{}

/// If the storage didn't fail in anything that was done for what is asked, and no turn was abandoned, then it is what
/// is done with good luck: a function of what the silo has and of what is asked.
#[tactic(auto, using(crate::proofs::Certain::answered_certainly))]
pub fn answered_certainly()
    ensures { AnsweredCertainly }
{}

/// So it is if the storage didn't fail and no turn was abandoned for want of memory: one that is abandoned since too many
/// calls wait, or messages of too many bytes, is abandoned with good luck too.
#[tactic(auto, using(crate::proofs::Certain::answered_surely))]
pub fn answered_surely()
    ensures { AnsweredSurely }
{}

/// A silo that dropped its replies answers as it would have answered with them: nothing that is done for what is asked
/// depends on a reply that was made before.
#[tactic(auto, using(crate::proofs::Untold::answers_as_ever))]
pub fn answers_as_ever()
    ensures { AnswersAsEver }
{}

/// While more calls of a tenant wait than may, or messages of more bytes, a call that is delivered adds none: the others
/// that wait are left, and nothing else.
#[tactic(auto, using(crate::proofs::Waiting::none_added))]
pub fn none_added()
    ensures { NoneAdded }
{}
