//! Steps, replies and faults: copies, owners, askers, grains, moments, and each code and text.

use crate::compare::same;
use crate::rows::{Fields, Subject, hold, put, show, tell};
use crate::values::{caller, grain, kind, message, state, tenant};
use grain_id::{GrainId, Tenant};
use request_codec::SharedState;
use silo_event::{
    Fault, Moment, Party, Refusal, Reply, Step, copy_of_fault, copy_of_party, copy_of_reply,
    copy_of_step,
};
use std::alloc::Global;
use std::test::Fail;

const RED_A: &str = "counter/red:a";

static ROWS: &str = "
# The fault of a code: its text and its code. A copy is the same.
fault | 10 | line is not a request;10
fault | 11 | line is too long;11
fault | 12 | arguments are too deep;12
fault | 13 | number is not a whole number of 64 bits;13
fault | 14 | bytes are not well formed;14
fault | 20 | grain name is not well formed;20
fault | 21 | tenant red is unknown;21
fault | 22 | kind clock is unknown;22
fault | 40 | tenant red may not call a grain of tenant blue;40
fault | 41 | tenant red has no free activation;41
fault | 42 | mailbox of counter/red:a is full;42
fault | 43 | tenant red has no request number left;43
fault | 53 | storage failed;53
fault | 54 | stored state of counter/red:a has changed;54
fault | 56 | versions of counter/red:a are spent;56
fault | 60 | method is unknown;60
fault | 61 | arguments do not fit;61
fault | 62 | result is out of range;62
fault | 63 | state is too large;63
fault | 70 | turn met want of memory;70

# Numbers that are moments.
moment | 0 | Some(0)
moment | 9223372036854775807 | Some(9223372036854775807)
moment | 9223372036854775808 | None

# The codes of refusals.
refusal | TooLong | 11
refusal | TooDeep | 12
refusal | NotWhole | 13
refusal | NotHex | 14
refusal | NotWellFormed | 20
refusal | TooLarge | 63

# Kinds of step; whose they are, who asks by them, which grain they name, and whether they are marked as failed.
step | call | reddish;reddish/c1;counter/red:a;false
step | activate | red;nobody;counter/red:a;false
step | load | red;nobody;counter/red:a;true
step | begin | red;nobody;counter/red:a;false
step | end | red;nobody;counter/red:a;false
step | poke | reddish;reddish/c1;counter/red:a;false
step | refuse | red;red/c1;none;false
step | deliver | red;nobody;counter/red:a;false
step | sweep | nobody;nobody;none;false
";

#[derive(Clone, Copy)]
struct Events;

fn across_tenants(alloc: Global) -> Result<Fault, Fail> {
    let from = tenant(alloc, "red")?;
    let to = tenant(alloc, "blue")?;
    Ok(Fault::AcrossTenants { from, to })
}

/// The fault of a code that names one tenant.
fn fault_of_tenant(code: u64, tenant: Tenant) -> Fault {
    match code {
        21 => Fault::UnknownTenant(tenant),
        41 => Fault::NoActivation(tenant),
        _ => Fault::NoNumber(tenant),
    }
}

/// The fault of a code that names a grain.
fn fault_of_grain(code: u64, grain: GrainId) -> Fault {
    match code {
        42 => Fault::MailboxFull(grain),
        54 => Fault::StateChanged(grain),
        _ => Fault::VersionsSpent(grain),
    }
}

/// The fault of a code that names nothing; that of 70 for another code.
fn plain_fault(code: u64) -> Fault {
    match code {
        10 => Fault::NotARequest,
        11 => Fault::TooLong,
        12 => Fault::TooDeep,
        13 => Fault::NotWhole,
        14 => Fault::NotHex,
        20 => Fault::NotWellFormed,
        53 => Fault::StorageFailed,
        60 => Fault::UnknownMethod,
        61 => Fault::Misfit,
        62 => Fault::OutOfRange,
        63 => Fault::TooLarge,
        _ => Fault::NoMemory,
    }
}

/// The fault of a code.
fn fault(alloc: Global, code: u64) -> Result<Fault, Fail> {
    match code {
        21 | 41 | 43 => Ok(fault_of_tenant(code, tenant(alloc, "red")?)),
        22 => Ok(Fault::UnknownKind(kind(alloc, "clock")?)),
        40 => across_tenants(alloc),
        42 | 54 | 56 => Ok(fault_of_grain(code, grain(alloc, RED_A)?)),
        _ => Ok(plain_fault(code)),
    }
}

fn put_fault(alloc: Global, copy: &Fault, fault: &Fault, out: &mut String) -> Result<(), Fail> {
    same(copy == fault, true)?;
    put(out, copy.text(alloc)?.as_str())?;
    show(out, copy.code())
}

/// Writes a copy of a fault.
fn put_copied_fault(alloc: Global, fault: Fault, out: &mut String) -> Result<(), Fail> {
    let told = match copy_of_fault(&fault) {
        Ok(copy) => {
            let told = put_fault(alloc, &copy, &fault, out);
            drop(copy);
            told
        }
        Err(why) => Err(Fail::from(why)),
    };
    drop(fault);
    told
}

/// The moment of a row's number, if it is one.
fn moment(fields: &mut Fields<'_>) -> Result<Option<u64>, Fail> {
    match Moment::new(fields.number()?) {
        Some(moment) => Ok(Some(moment.get())),
        None => Ok(None),
    }
}

fn refusal_of(word: &str) -> Refusal {
    match word {
        "TooLong" => Refusal::TooLong,
        "TooDeep" => Refusal::TooDeep,
        "NotWhole" => Refusal::NotWhole,
        "NotHex" => Refusal::NotHex,
        "NotWellFormed" => Refusal::NotWellFormed,
        _ => Refusal::TooLarge,
    }
}

fn code_of(fault: Fault) -> u8 {
    let code = fault.code();
    drop(fault);
    code
}

fn shared(alloc: Global) -> Result<SharedState, Fail> {
    Ok(SharedState::new(alloc, state(alloc, "3")?)?)
}

/// A step of `counter/red:a`, or a sweep.
fn step_of_a_grain(form: &str, grain: GrainId) -> Step {
    let failed = false;
    match form {
        "activate" => Step::Activate { grain },
        "load" => Step::Load { grain, failed }.into_failed(),
        "begin" => Step::Begin { grain },
        "end" => Step::End { grain, turn: 1 },
        "deliver" => Step::Deliver { grain },
        _ => Step::Sweep,
    }
}

fn call(alloc: Global) -> Result<Step, Fail> {
    Ok(Step::Call {
        caller: caller(alloc, "reddish/c1")?,
        id: 7,
        grain: grain(alloc, RED_A)?,
        message: message(alloc, "get", "null")?,
    })
}

fn poke(alloc: Global) -> Result<Step, Fail> {
    Ok(Step::Poke {
        failed: false,
        caller: caller(alloc, "reddish/c1")?,
        id: 7,
        grain: grain(alloc, RED_A)?,
        state: shared(alloc)?,
    })
}

fn refuse(alloc: Global) -> Result<Step, Fail> {
    Ok(Step::Refuse {
        caller: caller(alloc, "red/c1")?,
        id: 7,
        code: Refusal::TooDeep,
    })
}

fn step(alloc: Global, form: &str) -> Result<Step, Fail> {
    match form {
        "call" => call(alloc),
        "poke" => poke(alloc),
        "refuse" => refuse(alloc),
        _ => Ok(step_of_a_grain(form, grain(alloc, RED_A)?)),
    }
}

/// Whose the step is, who asks by it, which grain it names, and whether it is marked as failed.
fn put_step(step: &Step, out: &mut String) -> Result<(), Fail> {
    put(out, step.owner().unwrap_or("nobody"))?;
    match step.asker() {
        Some(caller) => put(out, caller.text())?,
        None => put(out, "nobody")?,
    }
    match step.grain() {
        Some(grain) => put(out, grain.text())?,
        None => put(out, "none")?,
    }
    show(out, step.has_failed())
}

fn put_copied_step(step: Step, out: &mut String) -> Result<(), Fail> {
    let copy = copy_of_step(&step);
    drop(step);
    let copy = copy?;
    let told = put_step(&copy, out);
    drop(copy);
    told
}

/// Writes the fault of a row's code.
fn put_fault_of(alloc: Global, fields: &mut Fields<'_>, out: &mut String) -> Result<(), Fail> {
    put_copied_fault(alloc, fault(alloc, fields.number()?)?, out)
}

fn put_step_of(alloc: Global, form: &str, out: &mut String) -> Result<(), Fail> {
    put_copied_step(step(alloc, form)?, out)
}

impl Subject for Events {
    fn answer(
        &mut self,
        alloc: Global,
        call: &str,
        fields: &mut Fields<'_>,
        out: &mut String,
    ) -> Result<(), Fail> {
        match call {
            "fault" => put_fault_of(alloc, fields, out),
            "moment" => tell(out, moment(fields)),
            "refusal" => show(out, code_of(refusal_of(fields.text()).fault())),
            _ => put_step_of(alloc, fields.text(), out),
        }
    }
}

#[test]
fn faults_moments_and_steps(rt: HostRuntime) -> Result<(), Fail> {
    hold(rt.alloc(), &mut Events, ROWS)
}

/// A value for a client of red.
fn value(alloc: Global) -> Result<Reply, Fail> {
    let state = state(alloc, "3")?;
    let recipient = Party::Client(caller(alloc, "red/c1")?, 1);
    Ok(Reply {
        recipient,
        outcome: Ok(state),
    })
}

/// A fault for a grain of blue.
fn refusal(alloc: Global) -> Result<Reply, Fail> {
    let recipient = Party::Grain(grain(alloc, "counter/blue:a")?);
    let outcome = Err(Fault::Misfit);
    Ok(Reply { recipient, outcome })
}

/// A party is this tenant's.
fn is_of_tenant(alloc: Global, party: &Party, tenant: &str) -> Result<(), Fail> {
    let owner = party.to_tenant(alloc)?;
    same((party.tenant(), owner.text()), (tenant, tenant))
}

/// A copy of a party is the wanted one, and of this tenant.
fn is_party(alloc: Global, party: &Party, wanted: &Party, tenant: &str) -> Result<(), Fail> {
    let copy = copy_of_party(party)?;
    let is_wanted = copy == *wanted;
    let found = is_of_tenant(alloc, &copy, tenant);
    drop(copy);
    found?;
    same(is_wanted, true)
}

/// A copy of a reply is for the same as the reply, which is this tenant's.
fn is_copied(alloc: Global, copy: &Reply, reply: &Reply, tenant: &str) -> Result<(), Fail> {
    same(reply.tenant() == tenant, true)?;
    is_party(alloc, &copy.recipient, &reply.recipient, tenant)
}

/// A reply is this tenant's, and a copy of it is for the same.
fn is_for(alloc: Global, reply: Reply, tenant: &str) -> Result<(), Fail> {
    let told = match copy_of_reply(&reply) {
        Ok(copy) => {
            let told = is_copied(alloc, &copy, &reply, tenant);
            drop(copy);
            told
        }
        Err(why) => Err(Fail::from(why)),
    };
    drop(reply);
    told
}

#[test]
fn replies(rt: HostRuntime) -> Result<(), Fail> {
    is_for(rt.alloc(), value(rt.alloc())?, "red")?;
    is_for(rt.alloc(), refusal(rt.alloc())?, "blue")
}
