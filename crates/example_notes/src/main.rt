//! How a crate uses the silo: a kind of grain and a storage of its own, and a silo over both.
#![tactic(auto)]

use bumpalo::Bump;
use grain_id::{Caller, GrainId, Tenant};
use grain_logic::{GrainLogic, MethodFault, Plan, StoreCall, run_turn, state_of};
use grain_storage::{GrainStorage, Row, StoreFault};
use idle_collector::AgeTable;
use request_codec::{Datum, StateBytes, decode_state, encode, to_json};
use serde_json::Value;
use silo_core::{Setup, Silo};
use std::alloc::{AllocError, Global};
use std::test::Fail;
use tenant_gate::{Age, Limits, TenantTable};
use turn_arena::Node;

type NoteSilo = Silo<FullDisk, Notes>;

type Stored<A> = Result<A, StoreFault>;

/// A kind of grain: a note holds one value. Its table is in `specs/Notes.antt`.
#[derive(Drop)]
struct Notes;

impl GrainLogic for Notes {
    ghost use Rattle.example_notes.specs.Notes.{notes};
    ghost use Rattle.example_notes.specs.LawsOfNotes.{notes_lawful};

    ghost logic = { notes };

    ghost lawful = { notes_lawful };

    fn knows(&self, kind: &str) -> bool {
        kind == "note"
    }

    fn is_read(&self, _: &str, method: &str) -> bool {
        method == "get"
    }

    fn empty(&self, alloc: Global, _: &str) -> Result<StateBytes, AllocError> {
        state_of(alloc, Node::Null)
    }

    fn plan<'a>(
        &self,
        alloc: Global,
        _: &'a Bump,
        _: &str,
        method: &'a str,
        state: Node<'a>,
        argument: Node<'a>,
    ) -> Result<Plan<'a>, AllocError> {
        match method {
            "get" => Ok(Plan::keeps(alloc, Ok(state))),
            "put" => Ok(Plan::becomes(alloc, argument, Node::Null)),
            "save" => Ok(Plan::asks(alloc, StoreCall::Write)),
            _ => Ok(Plan::keeps(alloc, Err(MethodFault::UnknownMethod))),
        }
    }
}

/// A storage: a disk without room has no rows, and each call that would change one fails.
#[derive(Drop)]
struct FullDisk {
    failures: u64,
}

impl GrainStorage for FullDisk {
    ghost use Rattle.std.specs.FinMap.{empty};

    ghost rows = { λ _. empty };

    ghost failed = { λ disk. disk.failures };

    fn failures(&self) -> u64 {
        self.failures
    }

    fn read(&mut self, _: Global, _: &GrainId) -> Stored<Option<Row>> {
        Ok(None)
    }

    fn write(&mut self, _: Global, _: &GrainId, _: Option<u64>, _: StateBytes) -> Stored<u64> {
        self.failures = self.failures.checked_add(1).ok_or(StoreFault::Memory)?;
        Err(StoreFault::Failed)
    }

    fn clear(&mut self, _: Global, _: &GrainId, _: Option<u64>) -> Stored<Option<u64>> {
        self.failures = self.failures.checked_add(1).ok_or(StoreFault::Memory)?;
        Err(StoreFault::Failed)
    }

    fn poke(&mut self, _: Global, _: &GrainId, _: StateBytes) -> Stored<u64> {
        self.failures = self.failures.checked_add(1).ok_or(StoreFault::Memory)?;
        Err(StoreFault::Failed)
    }

    fn list(&self, alloc: Global) -> Result<Vec<(GrainId, Row)>, AllocError> {
        Ok(Vec::new(alloc))
    }
}

fn new_silo(alloc: Global) -> Result<NoteSilo, Fail> {
    let limits = Limits {
        activations: 2,
        mailbox: 4,
    };
    let known = vec![in alloc; (Tenant::read(alloc, "red")?, limits)]?;
    let setup = Setup {
        tenants: TenantTable::new(alloc, known)?,
        age: Age::new(900_000).ok_or("no age")?,
        ages: AgeTable::none(alloc),
        storage: FullDisk { failures: 0 },
        logic: Notes,
    };
    Ok(Silo::new(alloc, setup)?)
}

fn note(alloc: Global) -> Result<GrainId, Fail> {
    Ok(GrainId::read(alloc, "note/red:a")?)
}

/// A client calls a method of the note.
fn call(alloc: Global, silo: &mut NoteSilo, id: u64, method: &str) -> Result<(), Fail> {
    let message = encode(alloc, method, &Datum::Int(3))?;
    let caller = Caller::read(alloc, "red/c1")?;
    silo.call(alloc, caller, id, note(alloc)?, message)?;
    Ok(())
}

/// The note is activated and loaded. A step that isn't possible now changes nothing.
fn make_ready(alloc: Global, silo: &mut NoteSilo) -> Result<(), Fail> {
    silo.activate(alloc, note(alloc)?)?;
    silo.load(alloc, note(alloc)?, false)?;
    Ok(())
}

/// The note takes a turn.
fn take_turn(alloc: Global, silo: &mut NoteSilo) -> Result<(), Fail> {
    let opened = silo.begin(alloc, note(alloc)?)?.ok_or("no turn")?;
    let turn = run_turn(alloc, &Bump::new(alloc), &Notes, opened).map_err(|_| AllocError)?;
    match turn.store_call() {
        StoreCall::None => silo.end(alloc, &turn)?,
        _ => silo.store(alloc, &turn, false)?,
    };
    Ok(())
}

/// Asks the note, and takes the steps to its reply.
fn ask(alloc: Global, silo: &mut NoteSilo, id: u64, method: &str) -> Result<(), Fail> {
    call(alloc, silo, id, method)?;
    make_ready(alloc, silo)?;
    take_turn(alloc, silo)
}

fn json_of(alloc: Global, value: &StateBytes) -> Result<Value, Fail> {
    Ok(to_json(alloc, &decode_state(alloc, value)?)?)
}

fn show(rt: &impl Print, alloc: Global, silo: &mut NoteSilo) -> Result<(), Fail> {
    ask(alloc, silo, 1, "put")?;
    ask(alloc, silo, 2, "get")?;
    ask(alloc, silo, 3, "save")?;
    for reply in silo.replies() {
        match &reply.outcome {
            Ok(value) => println!(rt; "{}", json_of(alloc, value)?)?,
            Err(fault) => println!(rt; "{}", fault.text(alloc)?)?,
        }
    }
    Ok(())
}

fn main(rt: HostRuntime) -> Result<(), Fail> {
    show(&rt, rt.alloc(), &mut new_silo(rt.alloc())?)
}
