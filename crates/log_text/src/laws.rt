//! Laws over the definitions alone. Each is the contract of a function that does nothing.

ghost use Rattle.log_text.specs.Laws.{BatchesKept, EndsPass, LostRefused, OneText, PrefixesPass, PrefixesRead};
ghost use Rattle.log_text.specs.Laws.{ReadStands, ReadsBatches, WrittenReads};
ghost use Rattle.log_text.specs.Sums.{SpellsPlain, own_sums};

/// What is read of the first bytes of a log are the first batches of what is read of all.
#[tactic(auto, using(crate::proofs::Prefixes::prefixes_read))]
pub fn prefixes_read()
    ensures { PrefixesRead }
{}

/// What was written is read, whatever follows it.
#[tactic(auto, using(crate::proofs::Written::written_reads))]
pub fn written_reads()
    ensures { WrittenReads }
{}

/// What is read stands there, with the sums of its lines.
#[tactic(auto, using(crate::proofs::Stands::read_stands))]
pub fn read_stands()
    ensures { ReadStands }
{}

/// The first bytes of what was written are not refused.
#[tactic(auto, using(crate::proofs::Passes::prefixes_pass))]
pub fn prefixes_pass()
    ensures { PrefixesPass }
{}

/// Nor is what was written, if a part of one batch follows it.
#[tactic(auto, using(crate::proofs::Passes::ends_pass))]
pub fn ends_pass()
    ensures { EndsPass }
{}

/// What is cut off has no batch after something else.
#[tactic(auto, using(crate::proofs::Kept::batches_kept))]
pub fn batches_kept()
    ensures { BatchesKept }
{}

/// A batch after something that isn't one is refused.
#[tactic(auto, using(crate::proofs::Kept::lost_refused))]
pub fn lost_refused()
    ensures { LostRefused }
{}

/// No two lists of batches have one text.
#[tactic(auto, using(crate::proofs::Written::one_text))]
pub fn one_text()
    ensures { OneText }
{}

/// The spelling of a sum has no LF.
#[tactic(auto, using(crate::proofs::Spelled::spells_plain))]
pub fn spells_plain()
    ensures { SpellsPlain own_sums }
{}

/// What is read are batches, as what is written.
#[tactic(auto, using(crate::proofs::Read::reads_batches))]
pub fn reads_batches()
    ensures { ReadsBatches }
{}
