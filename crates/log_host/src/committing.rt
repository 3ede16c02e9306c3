//! A batch that is on the disk before the replies to it go out.

ghost use Rattle.std.specs.Prelude.{◌≡◌, List, [], ◌∷◌, ◌++◌, Some, false, true, IfOk, OnErr, OnOk};
ghost use Rattle.std.specs.Io.KnownBytes.{Appends};
ghost use Rattle.line_text.specs.Writing.{WrittenInPart};
ghost use Rattle.log_text.specs.Lines.{ended};
ghost use Rattle.log_text.specs.Batches.{mark_behind, sum_behind};
ghost use Rattle.log_text.specs.Sums.{after, own_sums, spelled};
ghost use Rattle.log_host.specs.Acts.{Act, Adds, Held, Puts, synced, told, wrote};
ghost use Rattle.log_host.specs.Lasting.{IsAsked, LastsFrom, Log, SettlesFrom};

use crate::host::{HostFault, LogHost};
use crate::place::LogPlace;
use line_text::Output;
use log_text::{push_mark, sum_after};
use std::io::Write;

/// Why a batch wasn't committed, or the replies to it weren't all written.
#[derive(Clone, Copy, Debug, PartialEq, Eq)]
pub enum CommitFault {
    /// Memory was refused. Nothing was done, and the batch is as it was.
    Memory,

    /// A call of the host failed. The log is to be asked nothing more: it is read again at the next start.
    Host,
}

impl From<HostFault> for CommitFault {
    ghost use Rattle.log_host.specs.declared.committing.CommitFault.TheVariants as faults;

    ghost from_gives = { λ _ e. e ≡ faults.Host };

    fn from(_: HostFault) -> CommitFault {
        CommitFault::Host
    }
}

/// Closes the batch of request lines, appends it to the log, brings it to the disk, and then writes `text`, the replies
/// to them, to the output. Afterwards the batch is empty. Returns the place after it.
///
/// # Errors
///
/// `Memory` if memory was refused, and then nothing was done; `Host` if a call of the host failed, which the host
/// records: pass a host that has recorded no failure.
#[tactic(auto, using(crate::proofs::Known::added_in_order))]
pub fn commit<H: LogHost, W: Write>(
    host: &mut H,
    output: &mut Output<W>,
    place: LogPlace,
    batch: &mut Vec<u8>,
    text: &[u8],
) -> Result<LogPlace, CommitFault>
    ensures begun { H.begun host.new ≡ H.begun host.old }
    ensures past { H.past host.new ≡ H.past host.old }

    // The batch is written with its mark, then it is on the disk, and then its text is told.
    ensures order { IfOk result (λ next. Adds (H.acts host.old) (H.acts host.new)
        (wrote (batch.old.items ++ ended (mark_behind own_sums place.name place.sum batch.old.items (spelled next.told)))
        ∷ synced ∷ told text.now ∷ [])) }

    // In every outcome nothing else is written, and that in order: its first bytes, or all.
    ensures puts { Puts (H.acts host.old) (H.acts host.new) (batch.old.items
        ++ ended (mark_behind own_sums place.name place.sum batch.old.items (spelled (after place.told text.now)))) }

    // At each moment of the call, whatever a crash leaves, what was told is the beginning of what that log answers.
    ensures lasts { (log : Log) (h : Held) (acts : List Act) → H.acts host.old ≡ Some acts
        → IsAsked log place.name h place.sum batch.old.items text.now → LastsFrom log h acts (H.acts host.new) }
    ensures settled { IfOk result (λ next. (log : Log) (h : Held) (acts : List Act) → H.acts host.old ≡ Some acts
        → (asked : IsAsked log place.name h place.sum batch.old.items text.now)
        → SettlesFrom log h place.sum asked.lines acts (H.acts host.new) next.sum next.told) }
    ensures name { IfOk result (λ next. next.name ≡ place.name) }
    ensures sum { IfOk result (λ next. next.sum ≡ sum_behind own_sums place.name place.sum batch.old.items (spelled next.told)) }
    ensures told { IfOk result (λ next. next.told ≡ after place.told text.now) }
    ensures empty { OnOk result (batch.new.items ≡ []) }
    ensures written { OnOk result (Appends (W.contents output.old.writer) (W.contents output.new.writer) text.now) }
    ensures part { OnErr result (WrittenInPart (W.contents output.old.writer) (W.contents output.new.writer) text.now) }
    ensures memory { result ≡ Err CommitFault.Memory
        → (host.new ≡ host.old) × (output.new ≡ output.old) × (batch.new.items ≡ batch.old.items) }
    ensures failed { result ≡ Err CommitFault.Host → H.failed host.new ≡ true }
    ensures unfailed { OnOk result (H.failed host.new ≡ H.failed host.old) }
    ensures output { OnOk result (output.new.calls.failed ≡ output.old.calls.failed) }
    ensures out { OnOk result (output.new.calls.held ≡ false) }
{
    let all = sum_after(place.told, text);
    let Ok(next) = push_mark(batch, &place.name, place.sum, all) else {
        return Err(CommitFault::Memory);
    };
    host.append(batch.as_slice())?;
    host.sync()?;
    host.tell(output, text)?;
    batch.clear();
    Ok(LogPlace {
        name: place.name,
        sum: next,
        told: all,
    })
}
