//! Journals and their audit.

ghost use Rattle.std.specs.Prelude.{◌≤◌};

use crate::audits::gate::TenantsMeet;
use crate::audits::seen::{Seen, reports_under, seen_by, seen_under, seen_with};
use grain_id::Tenant;
use grain_kinds::{Kinds, RestingKinds};
use grain_logic::GrainLogic;
use grain_storage::FusedStorage;
use idle_collector::AgeTable;
use silo_core::Silo;
use silo_event::{Answer, Moment, Step, StepFault};
use std::alloc::Global;
use std::sync::Wait;
use std::test::Fail;
use std::thread::Threads;
use tenant_audit::{
    AuditFault, JournalFault, JournalKinds, TenantMachine, laws, read_journal, write_journal,
};
use tenant_gate::{Age, Limits};
use test_helpers::setups::setup_of;
use test_helpers::verdicts::holds;

/// The journal of one tenant whose counter is asked to add 3.
static WORKED: &str =
    "silo-journal 1\nage 900000\ntenant red 2 4\ncall red/c1 1 counter/red:a 01000000036164640600000001000000026279030000000000000003\nactivate counter/red:a\nload counter/red:a ok\nbegin counter/red:a\nend counter/red:a 1\nreply red/c1 1 ok 030000000000000003\nclose 5\n";

static WORKED_REPORT: &str = "tenant red: 5 steps, 1 replies, 0 rows\n";

#[test]
fn a_true_journal_has_no_difference(rt: HostRuntime) -> Result<(), Fail> {
    reports_under(rt.alloc(), WORKED, Kinds, WORKED_REPORT)
}

/// A journal of three tenants, of whom the table has one, and its report.
static OTHERS: &str =
    "silo-journal 1\nage 1\ntenant red 1 1\nstatus blue/c1 1\ntick 5\nreply blue/c1 1 no 21 tenant blue is unknown\nrow counter/amber:a 7 -\nclose 2\n";

static OTHERS_REPORT: &str =
    "tenant red: 1 steps, 0 replies, 0 rows\ntenant amber: row counter/amber:a differs\ntenant blue: 2 steps, 1 replies, 0 rows\n";

#[test]
fn others_are_reported_behind_the_table(rt: HostRuntime) -> Result<(), Fail> {
    reports_under(rt.alloc(), OTHERS, Kinds, OTHERS_REPORT)
}

/// Fails, unless `workers` workers give the report, and a gate was called for each of the three tenants.
fn is_reported_by<R: AllocGlobal + Threads + Wait + Sync>(
    rt: &R,
    workers: usize,
) -> Result<(), Fail>
    requires { (1 ≤ workers) × (workers ≤ 64) }
{
    let gate = TenantsMeet::new(1);
    let seen = seen_with(rt, OTHERS.as_bytes(), workers, &gate)?;
    holds(seen.text.as_str() == OTHERS_REPORT && gate.meeting.come() == 3)
}

#[test]
fn the_report_is_the_same_for_every_number_of_workers(rt: HostRuntime) -> Result<(), Fail> {
    is_reported_by(&rt, 1)?;
    is_reported_by(&rt, 2)?;
    is_reported_by(&rt, 3)?;
    is_reported_by(&rt, 64)
}

/// Two tenants that did nothing.
static QUIET: &str = "silo-journal 1\nage 1\ntenant red 1 1\ntenant blue 1 1\nclose 0\n";

#[test]
fn two_tenants_are_audited_at_once(rt: HostRuntime) -> Result<(), Fail> {
    let gate = TenantsMeet::new(2);
    let seen = seen_with(&rt, QUIET.as_bytes(), 2, &gate)?;
    holds(seen.text.as_str().lines().count() == 2 && !gate.meeting.was_missed())
}

/// A tick that goes back.
static GOES_BACK: &str =
    "silo-journal 1\nage 1\ntenant red 1 1\ntick 5\ntick 4\nbegin counter/red:a\nclose 3\n";

static GOES_BACK_REPORT: &str = "tenant red: step 2 differs\n";

#[test]
fn the_first_step_that_is_not_done_is_told(rt: HostRuntime) -> Result<(), Fail> {
    reports_under(rt.alloc(), GOES_BACK, Kinds, GOES_BACK_REPORT)
}

/// A reply of another code.
static CHANGED: &str =
    "silo-journal 1\nage 1\ntenant red 1 1\nstatus blue/c1 1\nreply blue/c1 1 no 22 tenant blue is unknown\nclose 1\n";

static CHANGED_REPORT: &str =
    "tenant red: 0 steps, 0 replies, 0 rows\ntenant blue: reply 1 differs\n";

#[test]
fn a_changed_reply_is_told(rt: HostRuntime) -> Result<(), Fail> {
    reports_under(rt.alloc(), CHANGED, Kinds, CHANGED_REPORT)
}

fn take<L: GrainLogic>(
    alloc: Global,
    silo: &mut Silo<FusedStorage, L>,
    step: Step,
) -> Result<Answer, StepFault> {
    silo.apply(alloc, step)
}

/// The text of the silo's journal, if it opened empty.
fn text_of<L: JournalKinds + Copy + Drop>(
    alloc: Global,
    silo: &Silo<FusedStorage, L>,
) -> Result<Vec<u8>, Fail> {
    if !silo.opens_empty() {
        return Err("it didn't open empty".into());
    }
    Ok(write_journal(alloc, silo)?)
}

/// Takes a copy of each step.
fn take_all<L: GrainLogic>(
    alloc: Global,
    silo: &mut Silo<FusedStorage, L>,
    steps: &[Step],
) -> Result<(), Fail> {
    for step in steps {
        take(alloc, silo, step.clone()?)?;
    }
    Ok(())
}

/// The journal of the silo after the worked journal's steps.
fn written<L: JournalKinds + Copy + Drop>(
    alloc: Global,
    silo: &mut Silo<FusedStorage, L>,
) -> Result<Vec<u8>, Fail> {
    let journal = read_journal(alloc, WORKED.as_bytes())?;
    let taken = take_all(alloc, silo, journal.steps());
    drop(journal);
    taken?;
    text_of(alloc, silo)
}

/// The same of a new silo of red alone, over no rows.
fn written_anew<L: JournalKinds + Copy + Drop>(alloc: Global, logic: L) -> Result<Vec<u8>, Fail> {
    let mut silo = Silo::new(alloc, setup_of(alloc, &["red"], &[], logic)?)?;
    let text = written(alloc, &mut silo);
    drop(silo);
    text
}

/// The worked journal in the third form, which begins with this head.
fn in_third_form(alloc: Global, head: &str) -> Result<String, Fail> {
    let text = WORKED.replace(alloc, "silo-journal 1\n", head)?;
    Ok(text.replace(alloc, " 01000000", " 02000000")?)
}

/// Fails, unless a text is the worked journal with this head.
fn is_third_form(alloc: Global, text: &[u8], head: &str) -> Result<(), Fail> {
    holds(in_third_form(alloc, head)?.as_bytes() == text)
}

/// Fails, unless an audit found no difference.
fn is_clean(seen: Result<Seen, Fail>) -> Result<(), Fail> {
    let seen = seen?;
    let differs = seen.differs;
    drop(seen);
    holds(!differs)
}

/// Fails, unless a silo of this logic writes the worked journal with this head, and its audit finds no difference.
fn is_written<L: JournalKinds + Copy + Drop>(
    alloc: Global,
    logic: L,
    head: &str,
) -> Result<(), Fail> {
    let text = written_anew(alloc, logic)?;
    is_third_form(alloc, &text, head)?;
    is_clean(seen_under(alloc, text.as_slice(), logic))
}

#[test]
fn a_silo_writes_the_worked_journal(rt: HostRuntime) -> Result<(), Fail> {
    is_written(rt.alloc(), Kinds, "silo-journal 3\nkinds 1\n")?;
    is_written(rt.alloc(), RestingKinds, "silo-journal 3\nkinds 2\n")
}

#[test]
fn an_audit_needs_no_gate(rt: HostRuntime) -> Result<(), Fail> {
    let seen = seen_by(&rt, OTHERS.as_bytes(), 4)?;
    holds(seen.differs && seen.has_amber && seen.text.as_str() == OTHERS_REPORT)
}

/// A machine of red.
fn machine_of_red(alloc: Global) -> Result<TenantMachine<Kinds>, Fail> {
    let limits = Limits {
        activations: 2,
        mailbox: 4,
    };
    let red = Tenant::read(alloc, "red")?;
    let age = Age::new(900_000).ok_or("no age")?;
    let ages = AgeTable::none(alloc);
    Ok(TenantMachine::new(alloc, red, Some(limits), age, ages, Kinds)?)
}

/// Whether the machine takes this moment.
fn is_taken(alloc: Global, machine: &mut TenantMachine<Kinds>, now: u64) -> Result<bool, Fail> {
    let now = Moment::new(now).ok_or("no moment")?;
    let tick = Step::Tick { now };
    let taken = machine.step(alloc, &tick);
    drop(tick);
    Ok(taken?)
}

/// Whether a tick of 5 is taken, one of 4 after it is not, and nothing is replied or stored.
fn are_ticks_taken(alloc: Global, machine: &mut TenantMachine<Kinds>) -> Result<bool, Fail> {
    let is_five_taken = is_taken(alloc, machine, 5)?;
    let is_four_taken = is_taken(alloc, machine, 4)?;
    let is_bare = machine.replies().is_empty() && machine.rows(alloc)?.is_empty();
    Ok(is_five_taken && !is_four_taken && is_bare)
}

#[test]
fn a_machine_takes_steps(rt: HostRuntime) -> Result<(), Fail> {
    let mut machine = machine_of_red(rt.alloc())?;
    let taken = are_ticks_taken(rt.alloc(), &mut machine);
    drop(machine);
    holds(taken?)
}

#[test]
fn faults_are_told_in_plain_words(rt: HostRuntime) -> Result<(), Fail> {
    let line = JournalFault::At { line: 7 };
    let (no_worker, memory) = (AuditFault::NoWorker, AuditFault::Memory);
    let text = format!(in rt.alloc(); "{line}; {no_worker}; {memory}")?;
    holds(
        text.as_str()
            == "line 7 fits no form in its place; a thread couldn't be started; out of memory",
    )
}

#[test]
fn the_laws_are_stated() {
    laws::one_text();
    laws::no_difference();
    audit_model::laws::each_report();
    audit_model::laws::one_report();
    audit_model::laws::no_difference();
    audit_model::laws::none_is_machines();
    audit_model::laws::tenants_in_order();
    audit_model::laws::owners_reported();
    audit_model::laws::starts_as_recorded();
}
