//! Journals.

ghost use Rattle.std.specs.Prelude.{◌≡◌, IsTrue, None};
ghost use Rattle.journal_text.specs.Rules.{IsKinds, IsTable, are_ascending};
ghost use Rattle.tenant_gate.specs.Age.{IsAge};

use crate::recorded::RecordedReply;
use grain_id::{GrainId, Tenant};
use grain_storage::Row;
use idle_collector::AgeTable;
use silo_event::Step;
use std::marker::Model;
use tenant_gate::{Age, Limits};

/// What a silo was, did and showed in the end. It keeps the rules of a journal's text.
#[derive(Drop)]
pub struct Journal {
    pub(crate) kinds: u8,
    pub(crate) age: Age,
    pub(crate) ages: AgeTable,
    pub(crate) tenants: Vec<(Tenant, Limits)>,
    pub(crate) steps: Vec<Step>,
    pub(crate) replies: Vec<RecordedReply>,
    pub(crate) rows: Vec<(GrainId, Row)>,
}

impl Model for Journal {
    ghost use Rattle.journal_text.specs.Text.{History, history_of};
    ghost use Rattle.journal_text.specs.Form.{newest};
    ghost use Rattle.journal_text.specs.Rules.{KeepsRulesIn};
    ghost use Rattle.std.specs.Coded.{codes};
    ghost use Rattle.request_codec.specs.Code.{coded_tree};

    ghost Value = { History };

    ghost coded = { Prim.hlevel (codes, coded_tree) };

    ghost view = { λ j. history_of j.kinds j.age j.ages j.tenants.items j.steps.items j.replies.items j.rows.items };

    ghost invariant = { λ j. KeepsRulesIn newest
        (history_of j.kinds j.age j.ages j.tenants.items j.steps.items j.replies.items j.rows.items) };
}

impl Journal {
    /// Which logic the kinds had: the number of its version.
    pub fn kinds(&self) -> u8
        ensures kinds { result ≡ self.now.kinds }
        ensures in_range { IsKinds self.now.kinds }
    {
        self.kinds
    }

    /// The tenants with their limits, in the order of the silo's table: 1 to 1,000 of them, none
    /// twice.
    pub fn tenants(&self) -> &[(Tenant, Limits)]
        ensures tenants { result.now ≡ self.now.tenants }
        ensures is_table { IsTable self.now.tenants }
    {
        self.tenants.as_slice()
    }

    /// How long an idle grain stayed, 1 to 86,400,000 milliseconds.
    pub fn age(&self) -> Age
        ensures age { result ≡ self.now.age }
        ensures in_range { IsAge self.now.age }
    {
        self.age
    }

    /// The ages of the kinds that had one of their own.
    pub fn ages(&self) -> &AgeTable
        ensures { result.now ≡ self.now.ages }
    {
        &self.ages
    }

    /// The steps that the silo took, in order.
    pub fn steps(&self) -> &[Step]
        ensures { result.now ≡ self.now.steps }
    {
        self.steps.as_slice()
    }

    /// The replies that the silo gave, in order.
    pub fn replies(&self) -> &[RecordedReply]
        ensures { result.now ≡ self.now.replies }
    {
        self.replies.as_slice()
    }

    /// The rows that the silo held in the end, grains ascending.
    pub fn rows(&self) -> &[(GrainId, Row)]
        ensures rows { result.now ≡ self.now.rows }
        ensures ascending { IsTrue (are_ascending None self.now.rows) }
    {
        self.rows.as_slice()
    }
}
