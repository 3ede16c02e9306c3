//! What a silo with a folder of data is opened with.

use command_parts::Start;
use grain_logic::GrainLogic;

/// What a silo with a folder of data is opened with.
#[derive(Drop)]
pub struct DataOpening<L: GrainLogic> {
    pub start: Start<L>,
    /// A random number, which the log gets if it is begun.
    pub number: u64,
    /// How many deliveries follow a line, at most.
    pub sends: u64,
}
