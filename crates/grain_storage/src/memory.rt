//! Rows in memory.

ghost use Rattle.std.specs.Prelude.{◌≡◌, None, IfOk, OnOk};
ghost use Rattle.std.specs.Option.{option_copied};
ghost use Rattle.std.specs.FinMap.{empty, get};
ghost use Rattle.grain_id.specs.Names.{grain_eq};
ghost use Rattle.indexmap.specs.IndexMap.{insert_entry};
ghost use Rattle.grain_storage.specs.Memory.{IsAscending, AreVersioned, rows_of, PutAnswers, RowAnswers};

use crate::fault::StoreFault;
use crate::row::Row;
use crate::storage::GrainStorage;
use grain_id::{GrainId, HashSeed};
use indexmap::IndexMap;
use request_codec::StateBytes;
use std::alloc::{AllocError, Global};
use std::marker::Model;

/// Rows in memory, which never fail. A grain leads to its row by its hash.
#[derive(Drop)]
pub struct MemoryStorage {
    rows: IndexMap<GrainId, Row, HashSeed>,
}

impl Model for MemoryStorage {
    ghost use Rattle.grain_storage.specs.Rows.{Rows, coded_rows};
    ghost use Rattle.grain_storage.specs.Memory.{rows_of};

    ghost Value = { Rows };

    ghost coded = { coded_rows };

    ghost view = { λ storage. rows_of storage.rows.entries };
}

impl MemoryStorage {
    /// No rows. They will be found by hashes from the fixed seed.
    pub fn new(alloc: Global) -> MemoryStorage
        ensures { result ≡ empty }
    {
        MemoryStorage::seeded(alloc, HashSeed::fixed())
    }

    /// No rows. They will be found by hashes from this seed.
    pub fn seeded(alloc: Global, seed: HashSeed) -> MemoryStorage
        ensures { result ≡ empty }
    {
        MemoryStorage {
            rows: IndexMap::with_hasher(alloc, seed),
        }
    }

    /// These rows, which stand in ascending order of their grains, each under a version above 0. They are found by hashes
    /// from the fixed seed.
    pub fn with_rows(alloc: Global, rows: Vec<(GrainId, Row)>) -> Result<MemoryStorage, AllocError>
        requires ascending { IsAscending rows.items }
        requires versioned { AreVersioned rows.items }
        ensures { IfOk result (λ storage. storage ≡ rows_of rows.items) }
    {
        MemoryStorage::seeded_with_rows(alloc, rows, HashSeed::fixed())
    }

    /// The same, found by hashes from this seed.
    pub fn seeded_with_rows(
        alloc: Global,
        rows: Vec<(GrainId, Row)>,
        seed: HashSeed,
    ) -> Result<MemoryStorage, AllocError>
        requires ascending { IsAscending rows.items }
        requires versioned { AreVersioned rows.items }
        ensures { IfOk result (λ storage. storage ≡ rows_of rows.items) }
    {
        let mut kept = IndexMap::with_hasher(alloc, seed);
        for (grain, row) in rows {
            place(&mut kept, grain, row)?;
        }
        Ok(MemoryStorage { rows: kept })
    }

    /// The grain's row.
    fn row_at(&self, grain: &GrainId) -> Option<&Row>
        ensures { option_copied result ≡ get self.now grain.now }
    {
        self.rows.get(grain)
    }

    /// Makes the grain's first row. The key is copied here alone.
    fn insert_first(
        &mut self,
        grain: &GrainId,
        content: Option<StateBytes>,
    ) -> Result<u64, StoreFault>
        requires { get self.old grain.now ≡ None }
        ensures { PutAnswers self.old grain.now content result self.new }
    {
        let key = grain.clone()?;
        match self.rows.insert(
            key,
            Row {
                version: 1,
                content,
            },
        ) {
            Ok(_) => Ok(1),
            Err(_) => Err(StoreFault::Memory),
        }
    }
}

/// Gives a row the next version and this content, if it has the expected version.
fn change(
    row: &mut Row,
    expected: Option<u64>,
    content: Option<StateBytes>,
) -> Result<u64, StoreFault>
    ensures { RowAnswers expected row.old content result row.new }
{
    let found = Some(row.version);
    if expected != found {
        return Err(StoreFault::Stale(found));
    }
    if row.version == u64::MAX {
        return Err(StoreFault::Spent);
    }
    row.version += 1;
    row.content = content;
    Ok(row.version)
}

impl GrainStorage for MemoryStorage {
    ghost rows = { λ storage. storage };

    ghost failed = { λ _. 0 };

    fn failures(&self) -> u64
        ensures { result ≡ 0 }
    {
        0
    }

    fn read(&mut self, _alloc: Global, grain: &GrainId) -> Result<Option<Row>, StoreFault> {
        match self.row_at(grain) {
            Some(row) => Ok(Some(row.clone()?)),
            None => Ok(None),
        }
    }

    fn write(
        &mut self,
        _alloc: Global,
        grain: &GrainId,
        expected: Option<u64>,
        content: StateBytes,
    ) -> Result<u64, StoreFault> {
        if let Some(row) = self.rows.get_mut(grain) {
            return change(row, expected, Some(content));
        }
        if expected.is_some() {
            return Err(StoreFault::Stale(None));
        }
        self.insert_first(grain, Some(content))
    }

    fn clear(
        &mut self,
        _alloc: Global,
        grain: &GrainId,
        expected: Option<u64>,
    ) -> Result<Option<u64>, StoreFault> {
        if let Some(row) = self.rows.get_mut(grain) {
            return Ok(Some(change(row, expected, None)?));
        }
        if expected.is_some() {
            return Err(StoreFault::Stale(None));
        }
        Ok(None)
    }

    fn poke(
        &mut self,
        _alloc: Global,
        grain: &GrainId,
        content: StateBytes,
    ) -> Result<u64, StoreFault> {
        if let Some(row) = self.rows.get_mut(grain) {
            let found = Some(row.version);
            return change(row, found, Some(content));
        }
        self.insert_first(grain, Some(content))
    }

    fn list(&self, alloc: Global) -> Result<Vec<(GrainId, Row)>, AllocError> {
        let mut ordered = self.rows.clone()?;
        ordered.sort_unstable_keys()?;
        Vec::from_iter(alloc, ordered)
    }
}

/// Puts a row after those that are there, or in the place of the grain's earlier one.
fn place(
    kept: &mut IndexMap<GrainId, Row, HashSeed>,
    grain: GrainId,
    row: Row,
) -> Result<(), AllocError>
    ensures { OnOk result (kept.new.entries ≡ insert_entry grain_eq kept.old.entries grain row) }
{
    kept.insert(grain, row)?;
    Ok(())
}
