//! Laws over the definitions alone, each the contract of a function that does nothing.

ghost use Rattle.grain_logic.specs.Counters.{counters};
ghost use Rattle.grain_logic.specs.Laws.{IsLawful, KeepsSame, ReadersAskNothing};
ghost use Rattle.grain_logic.specs.Logic.{Logic};

/// Counters alone are lawful, and a lawful logic asks nothing of the storage in a method that only reads.
pub fn lawful()
    ensures counters { IsLawful counters }
    ensures readers { (logic : Logic) → IsLawful logic → ReadersAskNothing logic }
{}

/// Counters alone say nothing of activations.
pub fn counters_keep_same()
    ensures { KeepsSame counters }
{}
