//! The first reply in which a record differs.

ghost use Rattle.std.specs.Prelude.{◌≡◌, ◌↔◌, IsTrue, IfOk};
ghost use Rattle.journal_text.specs.RecordedReply.{recorded_of};
ghost use Rattle.audit_model.specs.Parts.{all_recorded};
ghost use Rattle.tenant_audit.specs.inside.Comparison.{IsPlace};
ghost use Rattle.tenant_audit.specs.inside.Parted.{pointees};

use journal_text::RecordedReply;
use request_codec::StateBytes;
use silo_event::Reply;
use std::alloc::{AllocError, Global};

/// Whether this is what a journal records of the reply.
fn is_record_of(alloc: Global, recorded: &RecordedReply, reply: &Reply) -> Result<bool, AllocError>
    ensures { IfOk result (λ same. IsTrue same ↔ (recorded.now ≡ recorded_of reply.now)) }
{
    if recorded.recipient != reply.recipient {
        return Ok(false);
    }
    match (&recorded.outcome, &reply.outcome) {
        (Ok(told), Ok(value)) => Ok(StateBytes::eq(told, value)),
        (Err(told), Err(fault)) => {
            if told.code() != fault.code() {
                return Ok(false);
            }
            let text = fault.text(alloc)?;
            Ok(told.text() == text.as_str())
        }
        (Ok(_), Err(_)) => Ok(false),
        (Err(_), Ok(_)) => Ok(false),
    }
}

/// The first place, counted from 1, at which the recorded replies and the replies differ, or which only
/// one of the two has.
pub fn first_reply_apart(
    alloc: Global,
    recorded: &[&RecordedReply],
    replies: &[Reply],
) -> Result<Option<usize>, AllocError>
    ensures { IfOk result (λ place. IsPlace (pointees recorded.now) (all_recorded replies.now) place) }
{
    let mut place = 0;
    let mut given = replies;
    'recorded: for told in recorded {
        let Some((reply, others)) = given.split_first() else {
            return Ok(Some(place + 1));
        };
        if !is_record_of(alloc, told, reply)? {
            return Ok(Some(place + 1));
        }
        place += 1;
        given = others;
    }
    if given.is_empty() {
        return Ok(None);
    }
    Ok(Some(place + 1))
}
