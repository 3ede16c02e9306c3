//! Journals as far as they are read.

ghost use Rattle.std.specs.Prelude.{◌≡◌, [], None, IfOk};
ghost use Rattle.idle_collector.specs.Ages.{IsTable as AreAges};
ghost use Rattle.journal_text.specs.declared.line.Line.TheVariants as line;
ghost use Rattle.journal_text.specs.Form.{newest};
ghost use Rattle.journal_text.specs.Rules.{KeepsRulesIn, comes_after};
ghost use Rattle.journal_text.specs.Text.{history_of};
ghost use Rattle.journal_text.specs.inside.Draft.{has_tenant, last_key, kind_after, kind_fits, tenant_fits, step_fits};
ghost use Rattle.journal_text.specs.inside.Draft.{reply_fits, row_fits, close_fits, AddAnswers};

use crate::journal::Journal;
use crate::line::Line;
use crate::recorded::RecordedReply;
use grain_id::{GrainId, Kind, Tenant};
use grain_storage::Row;
use idle_collector::{AgeFault, AgeTable, MAX_AGES};
use silo_event::Step;
use std::alloc::{AllocError, Global};
use std::marker::Model;
use tenant_gate::{Age, Limits, MAX_TENANTS};

/// A journal as far as it is read, from its age on.
#[derive(Drop)]
pub(crate) struct Draft {
    kinds: u8,
    age: Age,
    ages: Vec<(Kind, u64)>,
    tenants: Vec<(Tenant, Limits)>,
    steps: Vec<Step>,
    replies: Vec<RecordedReply>,
    rows: Vec<(GrainId, Row)>,
}

impl Model for Draft {
    ghost use Rattle.journal_text.specs.Text.{History, history_of};
    ghost use Rattle.std.specs.Coded.{codes};
    ghost use Rattle.request_codec.specs.Code.{coded_tree};

    ghost Value = { History };

    ghost coded = { Prim.hlevel (codes, coded_tree) };

    ghost view = { λ d. history_of d.kinds d.age d.ages.items d.tenants.items d.steps.items d.replies.items d.rows.items };
}

impl Draft {
    /// A journal of which nothing after the age was read yet.
    pub(crate) fn new(alloc: Global, kinds: u8, age: Age) -> Draft
        ensures { result ≡ history_of kinds age [] [] [] [] [] }
    {
        Draft {
            kinds,
            age,
            ages: Vec::new(alloc),
            tenants: Vec::new(alloc),
            steps: Vec::new(alloc),
            replies: Vec::new(alloc),
            rows: Vec::new(alloc),
        }
    }

    /// Whether the kind comes after those that have an age of their own.
    fn comes_after_kinds(&self, kind: &Kind) -> bool
        ensures { result ≡ kind_after (last_key None self.now.ages) kind.now }
    {
        match self.ages.last() {
            Some((last, _)) => last < kind,
            None => true,
        }
    }

    /// Whether the age of that kind may follow what was read so far.
    fn kind_fits(&self, kind: &Kind) -> bool
        ensures { result ≡ kind_fits self.now kind.now }
    {
        self.tenants.is_empty() && self.ages.len() < MAX_AGES && self.comes_after_kinds(kind)
    }

    /// Whether one of the tenants has that name.
    fn has_tenant(&self, name: &str) -> bool
        ensures { result ≡ has_tenant self.now.tenants name.now }
    {
        self.tenants.iter().any(|entry| name == entry.0.text())
    }

    /// Whether a tenant of that name may follow what was read so far.
    fn tenant_fits(&self, name: &str) -> bool
        ensures { result ≡ tenant_fits self.now name.now }
    {
        self.steps.is_empty()
            && self.replies.is_empty()
            && self.rows.is_empty()
            && self.tenants.len() < MAX_TENANTS
            && !self.has_tenant(name)
    }

    /// Whether a step may follow what was read so far.
    fn step_fits(&self) -> bool
        ensures { result ≡ step_fits self.now }
    {
        !self.tenants.is_empty() && self.replies.is_empty() && self.rows.is_empty()
    }

    /// Whether a reply may follow what was read so far.
    fn reply_fits(&self) -> bool
        ensures { result ≡ reply_fits self.now }
    {
        !self.tenants.is_empty() && self.rows.is_empty()
    }

    /// Whether the grain comes after those of the rows.
    fn comes_after_rows(&self, grain: &GrainId) -> bool
        ensures { result ≡ comes_after (last_key None self.now.rows) grain.now }
    {
        match self.rows.last() {
            Some((last, _)) => last < grain,
            None => true,
        }
    }

    /// Whether a row of that grain may follow what was read so far.
    fn row_fits(&self, grain: &GrainId) -> bool
        ensures { result ≡ row_fits self.now grain.now }
    {
        !self.tenants.is_empty() && self.comes_after_rows(grain)
    }

    /// Whether the last line, with that number of steps, may follow what was read so far.
    pub(crate) fn close_fits(&self, steps: u64) -> bool
        ensures { result ≡ close_fits self.now steps }
    {
        !self.tenants.is_empty() && steps == self.steps.len() as u64
    }

    #[tactic(auto, unfolding(crate::specs::inside::Draft::added))]
    fn add_kind(&mut self, kind: Kind, age: u64) -> Result<bool, AllocError>
        ensures { AddAnswers self.old (line.Kind kind age) result self.new }
    {
        if !self.kind_fits(&kind) {
            drop(kind);
            return Ok(false);
        }
        self.ages.push((kind, age))?;
        Ok(true)
    }

    #[tactic(auto, unfolding(crate::specs::inside::Draft::added))]
    fn add_tenant(&mut self, tenant: Tenant, limits: Limits) -> Result<bool, AllocError>
        ensures { AddAnswers self.old (line.Tenant tenant limits) result self.new }
    {
        if !self.tenant_fits(tenant.text()) {
            drop(tenant);
            return Ok(false);
        }
        self.tenants.push((tenant, limits))?;
        Ok(true)
    }

    #[tactic(auto, unfolding(crate::specs::inside::Draft::added))]
    fn add_step(&mut self, step: Step) -> Result<bool, AllocError>
        ensures { AddAnswers self.old (line.Step step) result self.new }
    {
        if !self.step_fits() {
            drop(step);
            return Ok(false);
        }
        self.steps.push(step)?;
        Ok(true)
    }

    #[tactic(auto, unfolding(crate::specs::inside::Draft::added))]
    fn add_reply(&mut self, reply: RecordedReply) -> Result<bool, AllocError>
        ensures { AddAnswers self.old (line.Reply reply) result self.new }
    {
        if !self.reply_fits() {
            drop(reply);
            return Ok(false);
        }
        self.replies.push(reply)?;
        Ok(true)
    }

    #[tactic(auto, unfolding(crate::specs::inside::Draft::added))]
    fn add_row(&mut self, grain: GrainId, row: Row) -> Result<bool, AllocError>
        ensures { AddAnswers self.old (line.Row grain row) result self.new }
    {
        if !self.row_fits(&grain) {
            drop(grain);
            drop(row);
            return Ok(false);
        }
        self.rows.push((grain, row))?;
        Ok(true)
    }

    /// Adds the line if it is a kind's age, a tenant, a step, a reply or a row that may follow what was read so far.
    /// Returns whether it was added.
    #[tactic(auto, unfolding(crate::specs::inside::Draft::added))]
    pub(crate) fn add(&mut self, line: Line) -> Result<bool, AllocError>
        ensures { AddAnswers self.old line result self.new }
    {
        match line {
            Line::Kind(kind, age) => self.add_kind(kind, age.millis()),
            Line::Tenant(tenant, limits) => self.add_tenant(tenant, limits),
            Line::Step(step) => self.add_step(step),
            Line::Reply(reply) => self.add_reply(reply),
            Line::Row(grain, row) => self.add_row(grain, row),
            Line::Head | Line::Kinds(_) | Line::Age(_) | Line::Close(_) => Ok(false),
        }
    }

    /// The journal that was read. It has to keep the rules of a journal, as it does once its close fits.
    pub(crate) fn finish(self, alloc: Global) -> Result<Journal, AllocError>
        requires { KeepsRulesIn newest self }
        ensures { IfOk result (λ journal. journal ≡ self) }
    {
        let ages = table_of(alloc, self.ages)?;
        Ok(Journal {
            kinds: self.kinds,
            age: self.age,
            ages,
            tenants: self.tenants,
            steps: self.steps,
            replies: self.replies,
            rows: self.rows,
        })
    }
}

/// The table of ages that is in order already.
fn table_of(alloc: Global, ages: Vec<(Kind, u64)>) -> Result<AgeTable, AllocError>
    requires { AreAges ages.items }
    ensures { IfOk result (λ table. table ≡ ages.items) }
{
    match AgeTable::new(alloc, ages) {
        Ok(table) => Ok(table),
        Err(AgeFault::Memory) => Err(AllocError),
        Err(AgeFault::TooMany) => unreachable!(),
        Err(AgeFault::Twice(_)) => unreachable!(),
        Err(AgeFault::Range(_)) => unreachable!(),
    }
}
