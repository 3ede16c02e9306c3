//! Laws over the definitions alone, each the contract of a function that does nothing.

ghost use Rattle.request_receipts.specs.Laws.{ActsOnce, LastStays, LimitsHold, OthersApart, OwnStays, StaysKept};

/// A number acts at most once.
#[tactic(auto, using(crate::proofs::Once::acts_once))]
pub fn acts_once()
    ensures { ActsOnce }
{}

/// A number that acted is answered by its line until its caller has seen it.
#[tactic(auto, using(crate::proofs::Staying::stays_kept))]
pub fn stays_kept()
    ensures { StaysKept }
{}

/// What others do changes nothing that is kept of a caller.
#[tactic(auto, using(crate::proofs::Apart::others_apart))]
pub fn others_apart()
    ensures { OthersApart }
{}

/// What a caller is answered stays so whatever others do, unless a limit of the tenant decides.
#[tactic(auto, using(crate::proofs::Apart::own_stays))]
pub fn own_stays()
    ensures { OwnStays }
{}

/// The greatest number of a caller never falls.
#[tactic(auto, using(crate::proofs::Once::last_stays))]
pub fn last_stays()
    ensures { LastStays }
{}

/// There are never more callers, nor more receipts, than the tenant may have.
pub fn limits_hold()
    ensures { LimitsHold }
{}
