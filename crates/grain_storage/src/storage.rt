//! Where rows are kept.

use crate::fault::StoreFault;
use crate::row::Row;
use grain_id::GrainId;
use request_codec::StateBytes;
use std::alloc::{AllocError, Global};

/// A storage of rows: a finite map from grains to rows, and a count of the calls that failed.
///
/// Each call is proved against `specs/Rows.antt`, which says what a write, a clearing and a poke
/// are. A call answers `Failed` exactly where `failures` rises in it, and then by one; otherwise
/// `write` and `clear` answer `Stale` exactly where the expected version isn't the row's; otherwise
/// these and `poke` answer `Spent` exactly where the row has the last version. After each fault the
/// rows are as before.
pub trait GrainStorage {
    ghost use Rattle.std.specs.Prelude.{◌≡◌, ℕ, IfOk};
    ghost use Rattle.std.specs.FinMap.{entries};
    ghost use Rattle.grain_storage.specs.Rows.{Rows};
    ghost use Rattle.grain_storage.specs.Answers.{ReadAnswers, WriteAnswers, ClearAnswers, PokeAnswers};

    /// The rows.
    ghost rows: { Self → Rows };

    /// How many calls failed.
    ghost failed: { Self → ℕ };

    /// How many calls answered `Failed` so far. At its last value no call does.
    fn failures(&self) -> u64
        ensures { result ≡ failed self.now };

    /// The grain's row.
    fn read(&mut self, alloc: Global, grain: &GrainId) -> Result<Option<Row>, StoreFault>
        ensures answers { ReadAnswers (rows self.old) (failed self.old) grain.now result (rows self.new) (failed self.new) };

    /// Gives the grain's row this content, where it has the expected version (`None`: where there is
    /// no row). Its new version.
    fn write(
        &mut self,
        alloc: Global,
        grain: &GrainId,
        expected: Option<u64>,
        content: StateBytes,
    ) -> Result<u64, StoreFault>
        ensures answers { WriteAnswers (rows self.old) (failed self.old) grain.now expected content result (rows self.new)
            (failed self.new) };

    /// Takes the content of the grain's row, where it has the expected version; the row stays, one
    /// version on. Its new version, or `None` where there is no row and none is expected.
    fn clear(
        &mut self,
        alloc: Global,
        grain: &GrainId,
        expected: Option<u64>,
    ) -> Result<Option<u64>, StoreFault>
        ensures answers { ClearAnswers (rows self.old) (failed self.old) grain.now expected result (rows self.new) (failed self.new) };

    /// A write that expects the version that is there. The row's new version.
    fn poke(
        &mut self,
        alloc: Global,
        grain: &GrainId,
        content: StateBytes,
    ) -> Result<u64, StoreFault>
        ensures answers { PokeAnswers (rows self.old) (failed self.old) grain.now content result (rows self.new) (failed self.new) };

    /// All rows, grains ascending.
    fn list(&self, alloc: Global) -> Result<Vec<(GrainId, Row)>, AllocError>
        ensures { IfOk result (λ list. list.items ≡ entries (rows self.now)) };
}
