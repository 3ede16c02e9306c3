//! A journal with its steps, replies and rows parted by whose they are.

ghost use Rattle.std.specs.Prelude.{◌≡◌, ◌∷◌, [], ◌++◌, ℕ, List, None, IfOk, OnOk, IsTrue, filter, map};
ghost use Rattle.audit_model.specs.Parts.{steps_for, replies_for, rows_for};
ghost use Rattle.journal_text.specs.Rules.{are_ascending};
ghost use Rattle.tenant_audit.specs.inside.Parted.{held_for, if_owned, is_own, is_nobodys, placed, pointees};
ghost use Rattle.tenant_audit.specs.inside.Parted.{AreOwn, AreNobodys, HoldReplies, HoldRows};

use crate::steps_of_tenant::{PlacedStep, StepsOfTenant};
use crate::tenants::{owner_in, tenant_in};
use grain_id::{GrainId, Tenant};
use grain_storage::Row;
use journal_text::{Journal, RecordedReply};
use silo_event::Step;
use std::alloc::{AllocError, Global};
use std::collections::BTreeMap;
use std::marker::Model;

/// What there is of each tenant, in order.
type ByTenant<T> = BTreeMap<Tenant, Vec<T>>;

/// A journal with its steps, replies and rows parted by whose they are, so that what is one tenant's is
/// found without a look at the others'. It is seen as the journal.
#[derive(Drop)]
pub struct PartedJournal<'j> {
    journal: &'j Journal,
    steps: ByTenant<PlacedStep<'j>>,
    nobodys: Vec<PlacedStep<'j>>,
    replies: ByTenant<&'j RecordedReply>,
    rows: ByTenant<&'j (GrainId, Row)>,
}

impl<'j> Model for PartedJournal<'j> {
    ghost use Rattle.std.specs.Coded.{codes};
    ghost use Rattle.request_codec.specs.Code.{coded_tree};
    ghost use Rattle.journal_text.specs.Text.{History};
    ghost use Rattle.tenant_audit.specs.inside.Parted.{IsParted};

    ghost Value = { History };

    ghost coded = { Prim.hlevel (codes, coded_tree) };

    ghost view = { λ p. p.journal.now };

    ghost invariant = { λ p. IsParted p.journal.now p.steps p.nobodys.items p.replies p.rows };
}

impl<'j> PartedJournal<'j> {
    /// Parts the journal, in one pass over its steps, one over its replies and one over its rows.
    ///
    /// # Errors
    ///
    /// Out of memory.
    pub fn new(alloc: Global, journal: &'j Journal) -> Result<PartedJournal<'j>, AllocError>
        ensures { IfOk result (λ parted. parted ≡ journal.now) }
    {
        let (steps, nobodys) = part_steps(alloc, journal.steps())?;
        let replies = part_replies(alloc, journal.replies())?;
        let rows = part_rows(alloc, journal.rows())?;
        Ok(PartedJournal {
            journal,
            steps,
            nobodys,
            replies,
            rows,
        })
    }

    /// The journal.
    pub fn journal(&self) -> &'j Journal
        ensures { result.now ≡ self.now }
    {
        self.journal
    }

    /// The steps that concern the tenant: its own and nobody's.
    pub fn steps_for(&self, tenant: &Tenant) -> StepsOfTenant<'_, 'j>
        ensures { result ≡ steps_for tenant.now self.now }
    {
        StepsOfTenant::new(of_tenant(&self.steps, tenant), self.nobodys.as_slice())
    }

    /// The recorded replies that belong to the tenant.
    pub fn replies_for(&self, tenant: &Tenant) -> &[&'j RecordedReply]
        ensures { pointees result.now ≡ replies_for tenant.now self.now }
    {
        of_tenant(&self.replies, tenant)
    }

    /// The recorded rows of the tenant's grains.
    pub fn rows_for(&self, tenant: &Tenant) -> &[&'j (GrainId, Row)]
        ensures rows { pointees result.now ≡ rows_for tenant.now self.now }
        ensures ascending { IsTrue (are_ascending None self.now.rows) }
    {
        of_tenant(&self.rows, tenant)
    }
}

/// What is held of the tenant.
fn of_tenant<'p, T>(parts: &'p ByTenant<T>, tenant: &Tenant) -> &'p [T]
    ensures { result.now ≡ held_for parts.now tenant.now }
{
    match parts.get(tenant) {
        Some(part) => part.as_slice(),
        None => &[],
    }
}

/// Adds a thing after those of its owner.
fn add<T: Drop>(
    alloc: Global,
    parts: &mut ByTenant<T>,
    owner: Tenant,
    thing: T,
) -> Result<(), AllocError>
    ensures { OnOk result ((tenant : List ℕ) → held_for parts.new tenant ≡ held_for parts.old tenant ++ if_owned owner tenant thing) }
{
    if let Some(part) = parts.get_mut(&owner) {
        part.push(thing)?;
        return Ok(());
    }
    let mut first = Vec::new(alloc);
    first.push(thing)?;
    parts.insert(owner, first)?;
    Ok(())
}

/// Adds a step after those of its owner, or after nobody's.
fn add_step<'j>(
    alloc: Global,
    own: &mut ByTenant<PlacedStep<'j>>,
    nobodys: &mut Vec<PlacedStep<'j>>,
    step: PlacedStep<'j>,
) -> Result<(), AllocError>
    ensures own { OnOk result ((tenant : List ℕ) → map placed (held_for own.new tenant)
        ≡ map placed (held_for own.old tenant) ++ filter (is_own tenant) (placed step.entry ∷ [])) }
    ensures nobodys { OnOk result (map placed nobodys.new.items
        ≡ map placed nobodys.old.items ++ filter is_nobodys (placed step.entry ∷ [])) }
{
    match owner_in(alloc, step.step)? {
        Some(owner) => add(alloc, own, owner, step),
        None => {
            nobodys.push(step)?;
            Ok(())
        }
    }
}

/// Each tenant's own steps, and nobody's, with their places.
fn part_steps<'j>(
    alloc: Global,
    steps: &'j [Step],
) -> Result<(ByTenant<PlacedStep<'j>>, Vec<PlacedStep<'j>>), AllocError>
    ensures own { IfOk result (λ parts. AreOwn parts.0 steps.now) }
    ensures nobodys { IfOk result (λ parts. AreNobodys parts.1.items steps.now) }
{
    let mut own: ByTenant<PlacedStep<'j>> = BTreeMap::new(alloc);
    let mut nobodys = Vec::new(alloc);
    let mut place = 0;
    let mut rest = steps;
    'steps: while let Some((step, later)) = rest.split_first() {
        add_step(alloc, &mut own, &mut nobodys, PlacedStep { place, step })?;
        place += 1;
        rest = later;
    }
    Ok((own, nobodys))
}

/// The replies that belong to each tenant.
fn part_replies<'j>(
    alloc: Global,
    replies: &'j [RecordedReply],
) -> Result<ByTenant<&'j RecordedReply>, AllocError>
    ensures { IfOk result (λ told. HoldReplies told replies.now) }
{
    let mut told: ByTenant<&'j RecordedReply> = BTreeMap::new(alloc);
    let mut rest = replies;
    'replies: while let Some((reply, later)) = rest.split_first() {
        let owner = tenant_in(alloc, &reply.recipient)?;
        add(alloc, &mut told, owner, reply)?;
        rest = later;
    }
    Ok(told)
}

/// The rows of each tenant's grains.
fn part_rows<'j>(
    alloc: Global,
    rows: &'j [(GrainId, Row)],
) -> Result<ByTenant<&'j (GrainId, Row)>, AllocError>
    ensures { IfOk result (λ stored. HoldRows stored rows.now) }
{
    let mut stored: ByTenant<&'j (GrainId, Row)> = BTreeMap::new(alloc);
    let mut rest = rows;
    'rows: while let Some((row, later)) = rest.split_first() {
        let owner = row.0.to_tenant(alloc)?;
        add(alloc, &mut stored, owner, row)?;
        rest = later;
    }
    Ok(stored)
}
