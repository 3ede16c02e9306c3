//! A storage of which one call fails.

ghost use Rattle.std.specs.Prelude.{◌≡◌, ◌≢◌, ◌+◌, ◌↔◌, IsTrue};
ghost use Rattle.grain_storage.specs.Answers.{ReadAnswers, WriteAnswers, ClearAnswers, PokeAnswers, Counted};
ghost use Rattle.grain_storage.specs.inside.Fuse.{failures_of, made_after, IsFusedCall};
ghost use Rattle.grain_storage.specs.declared.fault.StoreFault.TheVariants.{Failed};

use crate::fault::StoreFault;
use crate::memory::MemoryStorage;
use crate::row::Row;
use crate::storage::GrainStorage;
use grain_id::GrainId;
use request_codec::StateBytes;
use std::alloc::{AllocError, Global};
use std::marker::Model;

/// Rows in memory, of which one call fails: the k-th of the calls of `read`, `write`, `clear` and
/// `poke`, counted from 1, and no other. Calls that answer `Memory` aren't counted.
#[derive(Drop)]
pub struct FusedStorage {
    rows: MemoryStorage,
    fails_at: u64,
    made: u64,
}

impl Model for FusedStorage {
    ghost use Rattle.std.specs.Prelude.{◌≤◌};
    ghost use Rattle.grain_storage.specs.Answers.{last_count};
    ghost use Rattle.grain_storage.specs.inside.Fuse.{Fused, coded_fused};

    ghost Value = { Fused };

    ghost coded = { coded_fused };

    ghost view = { λ storage. record { rows = storage.rows; fails_at = storage.fails_at; made = storage.made } };

    ghost invariant = { λ storage. storage.fails_at ≤ last_count };
}

impl FusedStorage {
    /// These rows; call `fails_at` will fail, none where that is 0.
    pub fn new(rows: MemoryStorage, fails_at: u64) -> FusedStorage
        ensures { result ≡ record { rows = rows; fails_at = fails_at; made = 0 } }
    {
        FusedStorage {
            rows,
            fails_at,
            made: 0,
        }
    }

    /// Whether the next call is the failing one.
    fn fails_now(&self) -> bool
        ensures { IsTrue result ↔ (self.now.made + 1 ≡ self.now.fails_at) }
    {
        self.made < self.fails_at && self.made + 1 == self.fails_at
    }

    /// The failing call.
    fn fail<A>(&mut self) -> Result<A, StoreFault>
        requires { self.old.made + 1 ≡ self.old.fails_at }
        ensures fails { result ≡ Err Failed }
        ensures made { self.new ≡ record self.old { made = made_after result self.old.made } }
        ensures failed { Counted (failures_of self.old) (failures_of self.new) }
    {
        self.made = self.fails_at;
        Err(StoreFault::Failed)
    }

    /// Counts another call, which was answered so.
    fn count<A>(&mut self, answer: &Result<A, StoreFault>)
        requires { self.old.made + 1 ≢ self.old.fails_at }
        ensures made { self.new ≡ record self.old { made = made_after answer.now self.old.made } }
        ensures failed { failures_of self.new ≡ failures_of self.old }
    {
        match answer {
            Err(StoreFault::Memory) => {}
            _ => self.made = self.made.saturating_add(1),
        }
    }
}

impl GrainStorage for FusedStorage {
    ghost rows = { λ storage. storage.rows };

    ghost failed = { failures_of };

    fn failures(&self) -> u64 {
        if self.fails_at > 0 && self.fails_at <= self.made {
            1
        } else {
            0
        }
    }

    fn read(&mut self, alloc: Global, grain: &GrainId) -> Result<Option<Row>, StoreFault>
        ensures answers { ReadAnswers self.old.rows (failures_of self.old) grain.now result self.new.rows (failures_of self.new) }
        ensures fused { IsFusedCall self.old result self.new }
    {
        if self.fails_now() {
            return self.fail();
        }
        let answer = self.rows.read(alloc, grain);
        self.count(&answer);
        answer
    }

    fn write(
        &mut self,
        alloc: Global,
        grain: &GrainId,
        expected: Option<u64>,
        content: StateBytes,
    ) -> Result<u64, StoreFault>
        ensures answers { WriteAnswers self.old.rows (failures_of self.old) grain.now expected content result self.new.rows
            (failures_of self.new) }
        ensures fused { IsFusedCall self.old result self.new }
    {
        if self.fails_now() {
            return self.fail();
        }
        let answer = self.rows.write(alloc, grain, expected, content);
        self.count(&answer);
        answer
    }

    fn clear(
        &mut self,
        alloc: Global,
        grain: &GrainId,
        expected: Option<u64>,
    ) -> Result<Option<u64>, StoreFault>
        ensures answers { ClearAnswers self.old.rows (failures_of self.old) grain.now expected result self.new.rows (failures_of self.new) }
        ensures fused { IsFusedCall self.old result self.new }
    {
        if self.fails_now() {
            return self.fail();
        }
        let answer = self.rows.clear(alloc, grain, expected);
        self.count(&answer);
        answer
    }

    fn poke(
        &mut self,
        alloc: Global,
        grain: &GrainId,
        content: StateBytes,
    ) -> Result<u64, StoreFault>
        ensures answers { PokeAnswers self.old.rows (failures_of self.old) grain.now content result self.new.rows (failures_of self.new) }
        ensures fused { IsFusedCall self.old result self.new }
    {
        if self.fails_now() {
            return self.fail();
        }
        let answer = self.rows.poke(alloc, grain, content);
        self.count(&answer);
        answer
    }

    fn list(&self, alloc: Global) -> Result<Vec<(GrainId, Row)>, AllocError> {
        self.rows.list(alloc)
    }
}
