//! The seed of the maps that a task's work stands on.

ghost use Rattle.std.specs.Prelude.{◌≡◌, IfErr, List};
ghost use Rattle.clap.specs.Words.{Text};
ghost use Rattle.silo_words.specs.Words.{AskFor};
ghost use Rattle.silo_program.specs.Ends.{AskForWork};

use command_parts::Cause;
use grain_id::HashSeed;
use silo_words::Task;
use std::random::RandomSource;

/// A number of eight bytes that the source gives, for a log that is begun: no other log should have it.
///
/// # Errors
///
/// `Read` if the source fails.
pub fn random_number<H: RandomSource>(rt: &H) -> Result<u64, Cause>
    ensures { IfErr result (λ why. why ≡ Cause.Read) }
{
    let mut bytes = [0; 8];
    match rt.fill_bytes(&mut bytes) {
        Ok(()) => Ok(u64::from_le_bytes(bytes)),
        Err(_) => Err(Cause::Read),
    }
}

/// A seed of eight bytes that the source gives.
fn random_seed<H: RandomSource>(rt: &H) -> Result<HashSeed, Cause>
    ensures { IfErr result (λ why. why ≡ Cause.Read) }
{
    match random_number(rt) {
        Ok(number) => Ok(HashSeed::new(number)),
        Err(why) => Err(why),
    }
}

/// The seed by which a task's maps hash grains and clients: another one each time, so that nobody finds names of one hash
/// before. To migrate a journal, and to print rows, takes no map, and no seed. Nothing that a task promises depends on it.
///
/// # Errors
///
/// `Read` if the source fails.
pub fn seed_for<H: RandomSource>(rt: &H, task: &Task) -> Result<HashSeed, Cause>
    ensures { (words : List Text) → AskFor words task.now → IfErr result (λ why. (why ≡ Cause.Read) × AskForWork words) }
{
    match task {
        Task::Steps { .. } => random_seed(rt),
        Task::Answer { .. } => random_seed(rt),
        Task::Serve { .. } => random_seed(rt),
        Task::Audit { .. } => random_seed(rt),
        Task::Migrate { .. } => Ok(HashSeed::fixed()),
        Task::Rows { .. } => Ok(HashSeed::fixed()),
    }
}
