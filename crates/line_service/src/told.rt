//! The replies to each grain.

ghost use Rattle.std.specs.Prelude.{◌≡◌, IfOk, OnOk};
ghost use Rattle.std.specs.BTreeMap.{IsOrdered};
ghost use Rattle.grain_id.specs.Names.{Grain, grain_cmp};
ghost use Rattle.line_service.specs.inside.Told.{HoldTold, told_at, with_reply};

use grain_id::GrainId;
use silo_event::{Party, Reply};
use std::alloc::{AllocError, Global};
use std::collections::BTreeMap;

/// The replies to each grain, in order.
pub(crate) type ToldByGrain<'r> = BTreeMap<GrainId, Vec<&'r Reply>>;

/// Adds a reply after those to the grain.
fn add_reply<'r>(
    alloc: Global,
    told: &mut ToldByGrain<'r>,
    grain: &GrainId,
    reply: &'r Reply,
) -> Result<(), AllocError>
    ensures { OnOk result ((other : Grain) → told_at told.new other ≡ with_reply grain.now reply.now other (told_at told.old other)) }
{
    if let Some(replies) = told.get_mut(grain) {
        replies.push(reply)?;
        return Ok(());
    }
    let key = grain.clone()?;
    let first = vec![in alloc; reply]?;
    told.insert(key, first)?;
    Ok(())
}

/// The replies to each grain. Takes memory for each reply to a grain.
pub(crate) fn told_by_grain<'r>(
    alloc: Global,
    replies: &'r [Reply],
) -> Result<ToldByGrain<'r>, AllocError>
    ensures held { IfOk result (λ told. HoldTold told replies.now) }
    ensures ordered { IfOk result (λ told. IsOrdered grain_cmp told) }
{
    let mut told: ToldByGrain<'r> = BTreeMap::new(alloc);
    'replies: for reply in replies {
        match &reply.recipient {
            Party::Client(_, _) => {}
            Party::Grain(grain) => add_reply(alloc, &mut told, grain, reply)?,
        }
    }
    // For the proof: grains ascend.
    let _ = told.len();
    Ok(told)
}
