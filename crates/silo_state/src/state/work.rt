//! What there is to do without a client requesting it: at a grain, which is a look-up, and at any, which is a walk.
//! None of these takes memory.

ghost use Rattle.std.specs.Prelude.{◌≡◌, ◌↔◌, true, None, Some, IfNone, IfSome, IsTrue, length, option_map};
ghost use Rattle.std.specs.FinMap as map;
ghost use Rattle.std.specs.Option.{option_copied};
ghost use Rattle.grain_id.specs.Names.{Grain};
ghost use Rattle.silo_model.specs.Sends.{first_target};
ghost use Rattle.silo_model.specs.Pending.{has_pending, sends_of};
ghost use Rattle.silo_model.specs.Todo.{work_on};
ghost use Rattle.silo_model.specs.Whole.{shown_to};
ghost use Rattle.silo_state.specs.Work.{first_waiting, step_at, is_settled};
ghost use Rattle.tenant_accounts.specs.Sends.{HasSent, NothingSent, first_send, first_source, send_of, sent_bytes};

use crate::change::PossibleStep;
use crate::state::SiloState;
use grain_id::{Caller, GrainId};
use grain_logic::GrainLogic;
use grain_storage::GrainStorage;
use tenant_accounts::Sent;

impl<S: GrainStorage, L: GrainLogic> SiloState<S, L> {
    /// What is to do with the grain's activation, if anything is: at most one of the three is
    /// possible.
    pub fn work_on(&self, grain: &GrainId) -> Option<PossibleStep>
        ensures { option_map (step_at grain.now) result ≡ work_on L.logic grain.now (map.get self.now.whole.entries grain.now) }
    {
        self.activations.work_on(grain)
    }

    /// The number of the first request that waits at the grain, if one does.
    pub fn first_waiting(&self, grain: &GrainId) -> Option<u64>
        ensures { result ≡ first_waiting (map.get self.now.whole.entries grain.now) }
    {
        self.activations.first_waiting(grain)
    }

    /// The target of the first call that the grain sent, and that is not yet delivered.
    pub fn first_target(&self, grain: &GrainId) -> Option<&GrainId>
        ensures { option_copied result ≡ first_target (map.get self.now.whole.accounts grain.now.tenant) grain.now }
    {
        let Some(account) = self.accounts.get(grain.tenant()) else {
            return None;
        };
        let Some(sent) = account.first_from(grain) else {
            return None;
        };
        Some(&sent.target)
    }

    /// The grain that sent the oldest of what the tenant's grains sent, and is not yet delivered.
    pub fn oldest_sender(&self, tenant: &str) -> Option<&GrainId>
        ensures { option_copied result ≡ first_source (sends_of (map.get self.now.whole.accounts tenant.now)) }
    {
        let Some(account) = self.accounts.get(tenant) else {
            return None;
        };
        account.first_sender()
    }

    /// The oldest of what the tenant's grains sent, and is not yet delivered.
    pub fn oldest_sent(&self, tenant: &str) -> Option<&Sent>
        ensures { option_map send_of (option_copied result) ≡ first_send (sends_of (map.get self.now.whole.accounts tenant.now)) }
    {
        let Some(account) = self.accounts.get(tenant) else {
            return None;
        };
        account.first()
    }

    /// How many calls the tenant's grains sent, of those that are not yet delivered.
    pub fn sent_calls(&self, tenant: &str) -> usize
        ensures { result ≡ length (sends_of (map.get self.now.whole.accounts tenant.now)) }
    {
        let Some(account) = self.accounts.get(tenant) else {
            return 0;
        };
        account.sent_calls()
    }

    /// How many bytes the messages of all these calls have together.
    pub fn sent_bytes(&self, tenant: &str) -> u64
        ensures { result ≡ sent_bytes (sends_of (map.get self.now.whole.accounts tenant.now)) }
    {
        let Some(account) = self.accounts.get(tenant) else {
            return 0;
        };
        account.sent_bytes()
    }

    /// Whether no request waits at the grain, and no turn of it is open.
    pub fn is_settled(&self, grain: &GrainId) -> bool
        ensures { result ≡ is_settled (map.get self.now.whole.entries grain.now) }
    {
        self.activations.is_settled(grain)
    }

    /// A grain with whose activation something is to do, and what, or none if there is none. It walks
    /// over all activations.
    pub fn first_work(&self) -> Option<(&GrainId, PossibleStep)>
        ensures found { IfSome result (λ found. work_on L.logic found.0.now (map.get self.now.whole.entries found.0.now) ≡ Some (step_at
            found.0.now found.1)) }
        ensures none { IfNone result ((id : Grain) → work_on L.logic id (map.get self.now.whole.entries id) ≡ None) }
    {
        self.activations.first_work()
    }

    /// Whether at no grain a request waits or a turn is open. It walks over all activations.
    pub fn are_settled(&self) -> bool
        ensures { IsTrue result ↔ ((id : Grain) → is_settled (map.get self.now.whole.entries id) ≡ true) }
    {
        self.activations.are_settled()
    }

    /// Whether a request of the client waits or is open. It walks over all activations.
    pub fn has_pending(&self, client: &Caller) -> bool
        ensures { result ≡ has_pending client.now (shown_to client.now.tenant self.now.whole) }
    {
        self.activations.has_from(client)
    }

    /// A grain that sent something that is left to deliver, or none if there is none. It walks over
    /// all accounts.
    pub fn first_sender(&self) -> Option<&GrainId>
        ensures found { IfSome result (λ grain. HasSent self.now.whole.accounts grain.now) }
        ensures none { IfNone result (NothingSent self.now.whole.accounts) }
    {
        self.accounts.first_sender()
    }
}
