//! The machine of one tenant.

ghost use Rattle.std.specs.Prelude.{◌≡◌, IfOk, IfSome, IsTrue, option_map};
ghost use Rattle.std.specs.FinMap.{entries};
ghost use Rattle.tenant_gate.specs.Table.{are_in_range};
ghost use Rattle.silo_model.specs.Opening.{fresh_account};
ghost use Rattle.silo_model.specs.Run.{concerns};
ghost use Rattle.tenant_machine.specs.Machines.{start_with, StepAnswers};

use crate::account::Account;
use crate::entries::Entries;
use grain_id::{GrainId, HashSeed, Tenant};
use grain_logic::GrainLogic;
use grain_storage::{GrainStorage, MemoryStorage, Row};
use idle_collector::AgeTable;
use silo_event::{Moment, Reply, Step};
use std::alloc::{AllocError, Global};
use std::marker::Model;
use tenant_gate::{Age, Limits};

mod ask;
mod call;
mod clock;
mod end;
mod entry;
mod send;
mod store;
mod turn;

/// The machine of one tenant, which runs: what a silo would hold if all others' steps were struck out.
/// Its rows are in memory.
#[derive(Drop)]
pub struct TenantMachine<L: GrainLogic> {
    tenant: Tenant,
    account: Option<Account>,
    age: Age,
    ages: AgeTable,
    clock: Moment,
    entries: Entries<L>,
    storage: MemoryStorage,
    replies: Vec<Reply>,
    logic: L,
}

impl<L: GrainLogic> Model for TenantMachine<L> {
    ghost use Rattle.std.specs.Coded.{codes};
    ghost use Rattle.request_codec.specs.Code.{coded_tree};
    ghost use Rattle.request_codec.specs.contracts.state.StateBytes as state_bytes;
    ghost use Rattle.silo_model.specs.Codes.{by_grain_code, by_text_code, by_number_code};
    ghost use Rattle.silo_model.specs.Machine.{Machine};

    ghost Value = { Machine };

    ghost coded = { Prim.hlevel (codes, by_grain_code, by_text_code, by_number_code, coded_tree, state_bytes.the_row.coded) };

    ghost view = { λ m. record {
      tenant = m.tenant;
      account = m.account;
      age = m.age;
      ages = m.ages;
      clock = m.clock;
      entries = m.entries;
      rows = m.storage;
      replies = m.replies.items;
    } };
}

/// The moment at which the clock begins.
fn beginning() -> Moment
    ensures { result ≡ 0 }
{
    match Moment::new(0) {
        Some(moment) => moment,
        None => unreachable!(),
    }
}

/// The account of a tenant that has these limits, or none of one that isn't known.
fn opened(alloc: Global, limits: Option<Limits>) -> Option<Account>
    ensures { result ≡ option_map fresh_account limits }
{
    match limits {
        Some(limits) => Some(Account::new(alloc, limits)),
        None => None,
    }
}

impl<L: GrainLogic + Drop> TenantMachine<L> {
    /// The tenant's machine before any step, over no rows: with these limits, or, if there are none, of
    /// a tenant that isn't known. A kind that has no age of its own in the table has the age before it.
    ///
    /// # Errors
    ///
    /// Out of memory.
    pub fn new(
        alloc: Global,
        tenant: Tenant,
        limits: Option<Limits>,
        age: Age,
        ages: AgeTable,
        logic: L,
    ) -> Result<TenantMachine<L>, AllocError>
        requires { IfSome limits (λ l. IsTrue (are_in_range l)) }
        ensures { IfOk result (λ m. m ≡ start_with tenant limits age ages) }
    {
        TenantMachine::seeded(alloc, tenant, limits, age, ages, logic, HashSeed::fixed())
    }

    /// The tenant's machine before any step, as `new` makes it, whose rows are found by hashes from this seed. Nothing that it
    /// shows depends on the seed.
    ///
    /// # Errors
    ///
    /// Out of memory.
    pub fn seeded(
        alloc: Global,
        tenant: Tenant,
        limits: Option<Limits>,
        age: Age,
        ages: AgeTable,
        logic: L,
        seed: HashSeed,
    ) -> Result<TenantMachine<L>, AllocError>
        requires { IfSome limits (λ l. IsTrue (are_in_range l)) }
        ensures { IfOk result (λ m. m ≡ start_with tenant limits age ages) }
    {
        Ok(TenantMachine {
            tenant,
            account: opened(alloc, limits),
            age,
            ages,
            clock: beginning(),
            entries: Entries::new(alloc),
            storage: MemoryStorage::seeded(alloc, seed),
            replies: Vec::new(alloc),
            logic,
        })
    }
}

impl<L: GrainLogic> TenantMachine<L> {
    /// Takes a step of the tenant or of nobody: whether it was done. A step that isn't possible now
    /// changes nothing.
    ///
    /// # Errors
    ///
    /// Out of memory: nothing changed.
    pub fn step(&mut self, alloc: Global, step: &Step) -> Result<bool, AllocError>
        requires { IsTrue (concerns self.old.tenant step.now) }
        ensures answers { StepAnswers L.logic self.old step.now result self.new }
        ensures tenant { self.new.tenant ≡ self.old.tenant }
    {
        self.take(alloc, step)
    }

    /// The replies to the tenant's callers and grains, in order.
    pub fn replies(&self) -> &[Reply]
        ensures { result.now ≡ self.now.replies }
    {
        self.replies.as_slice()
    }

    /// The stored rows of the tenant's grains, grains ascending.
    ///
    /// # Errors
    ///
    /// Out of memory.
    pub fn rows(&self, alloc: Global) -> Result<Vec<(GrainId, Row)>, AllocError>
        ensures { IfOk result (λ list. list.items ≡ entries self.now.rows) }
    {
        self.storage.list(alloc)
    }

    /// Takes a step of any kind.
    fn take(&mut self, alloc: Global, step: &Step) -> Result<bool, AllocError>
        ensures { StepAnswers L.logic self.old step.now result self.new }
    {
        match step {
            Step::Refuse { caller, id, code } => self.refuse(caller, *id, *code),
            Step::Call {
                caller,
                id,
                grain,
                message,
            } => self.call(alloc, caller, *id, grain, message),
            Step::Poke {
                failed,
                caller,
                id,
                grain,
                state,
            } => self.poke(alloc, caller, *id, grain, state.state(), *failed),
            Step::Status { caller, id } => self.status(alloc, caller, *id),
            Step::Deliver { grain } => self.deliver(alloc, grain),
            Step::Activate { grain } => Ok(self.activate(grain)),
            Step::Load { grain, failed } => self.load(alloc, grain, *failed),
            Step::Begin { grain } => self.open(grain),
            Step::Store {
                grain,
                turn,
                failed,
            } => self.store(alloc, grain, *turn, *failed),
            Step::End { grain, turn } => self.end(alloc, grain, *turn),
            Step::Abandon { grain, turn } => self.abandon(grain, *turn),
            Step::Tick { now } => Ok(self.tick(*now)),
            Step::Sweep => Ok(self.sweep()),
        }
    }
}
