//! What a checkpoint says, read.

ghost use Rattle.std.specs.Prelude.{IfOk};
ghost use Rattle.grain_storage.specs.Memory.{AreVersioned, IsAscending};
ghost use Rattle.silo_checkpoint.specs.Answers.{ReadsSaved};

use crate::saved::Saved;
use crate::told::read_told;
use checkpoint_text::{CheckpointFault, read_checkpoint};
use std::alloc::Global;

/// What the checkpoint says whose text the bytes are. It takes their length twice while it reads.
///
/// # Errors
///
/// `NoCheckpoint` if they are the text of none, `Memory` if memory is refused.
pub fn read_saved(alloc: Global, bytes: &[u8]) -> Result<Saved<'_>, CheckpointFault>
    ensures read { ReadsSaved bytes.now result }

    // A storage takes its rows.
    ensures rows { IfOk result (λ saved. IsAscending saved.rows.items × AreVersioned saved.rows.items) }
{
    let checkpoint = read_checkpoint(alloc, bytes)?;
    let told = read_told(alloc, checkpoint.journal.as_bytes())?;
    Ok(Saved {
        follows: checkpoint.follows,
        kinds: told.kinds,
        sends: checkpoint.sends,
        tenants: told.tenants,
        age: told.age,
        ages: told.ages,
        rows: told.rows,
        kept: checkpoint.kept,
    })
}
