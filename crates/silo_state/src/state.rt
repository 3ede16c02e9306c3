//! What a silo holds of all its tenants.

ghost use Rattle.std.specs.Prelude.{◌≡◌};

use crate::activations::Activations;
use grain_id::{HashSeed, Tenant};
use grain_logic::GrainLogic;
use grain_storage::GrainStorage;
use idle_collector::AgeTable;
use silo_event::{Moment, Reply};
use std::marker::Model;
use tenant_accounts::Accounts;
use tenant_gate::{Age, Limits};

mod ask;
mod at_once;
mod call;
mod clock;
mod entry;
mod kept;
mod resumed;
mod send;
mod step;
mod store;
mod turn;
mod work;

/// What a silo's state is opened with. These tenants are known, with these limits; of a tenant that stands twice the first are its
/// own. A grain of a kind that has no age in the table has the age beside it. The rows are those of the storage. Grains are found by
/// hashes from the seed, on which nothing that is shown depends.
#[derive(Drop)]
pub struct StateSetup<'a, S: GrainStorage, L: GrainLogic> {
    pub tenants: &'a [(Tenant, Limits)],
    pub age: Age,
    pub ages: AgeTable,
    pub storage: S,
    pub logic: L,
    pub seed: HashSeed,
}

/// All tenants' accounts, activations and rows, and the replies in the order in which they were made.
#[derive(Drop)]
pub struct SiloState<S: GrainStorage, L: GrainLogic> {
    accounts: Accounts,
    activations: Activations<L>,
    storage: S,
    logic: L,
    replies: Vec<Reply>,
}

impl<S: GrainStorage, L: GrainLogic> Model for SiloState<S, L> {
    ghost use Rattle.std.specs.Coded.{codes};
    ghost use Rattle.request_codec.specs.Code.{coded_tree};
    ghost use Rattle.request_codec.specs.contracts.state.StateBytes as state;
    ghost use Rattle.silo_model.specs.Codes.{by_grain_code, by_text_code, by_number_code};
    ghost use Rattle.silo_state.specs.inside.Held.{Held, held_of};

    ghost Value = { Held };

    ghost coded = { Prim.hlevel (codes, by_grain_code, by_text_code, by_number_code, coded_tree, state.the_row.coded) };

    ghost view = { λ b. held_of b.accounts b.activations (S.rows b.storage) b.replies.items (S.failed b.storage) };
}

/// The moment at which the clock begins.
pub(crate) fn beginning() -> Moment
    ensures { result ≡ 0 }
{
    match Moment::new(0) {
        Some(moment) => moment,
        None => unreachable!(),
    }
}

impl<S: GrainStorage, L: GrainLogic> SiloState<S, L> {
    /// All replies, in the order in which they were made.
    pub fn replies(&self) -> &[Reply]
        ensures { result.now ≡ self.now.whole.replies }
    {
        self.replies.as_slice()
    }

    /// The age of the kinds that have none of their own.
    pub fn age(&self) -> Age
        ensures { result ≡ self.now.whole.age }
    {
        self.activations.age()
    }

    /// The ages of the kinds that have one of their own.
    pub fn ages(&self) -> &AgeTable
        ensures { result.now ≡ self.now.whole.ages }
    {
        self.activations.ages()
    }

    /// Where the rows are kept.
    pub fn storage(&self) -> &S
        ensures rows { S.rows result.now ≡ self.now.whole.rows }
        ensures failures { S.failed result.now ≡ self.now.failures }
    {
        &self.storage
    }
}
