//! Which replies are a tenant's.

ghost use Rattle.std.specs.Prelude.{◌≡◌, IfOk, filter};
ghost use Rattle.silo_model.specs.Whole.{is_to};

use grain_id::Tenant;
use silo_event::Reply;
use std::alloc::{AllocError, Global};

/// The replies whose recipients are the tenant's, in order.
///
/// # Errors
///
/// Out of memory.
pub fn sent_to(alloc: Global, replies: &[Reply], tenant: &Tenant) -> Result<Vec<Reply>, AllocError>
    ensures { IfOk result (λ found. found.items ≡ filter (is_to tenant.now) replies.now) }
{
    let mut found = Vec::new(alloc);
    for reply in replies {
        if reply.tenant() == tenant.text() {
            found.push(copy_of(reply)?)?;
        }
    }
    Ok(found)
}

fn copy_of(reply: &Reply) -> Result<Reply, AllocError>
    ensures { IfOk result (λ copy. copy ≡ reply.now) }
{
    reply.clone()
}
