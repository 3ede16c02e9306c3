//! What there is to do at a grain without a client requesting it. Each of these is a look-up, and takes no memory.

ghost use Rattle.std.specs.Prelude.{◌≡◌, length, option_map};
ghost use Rattle.std.specs.FinMap as map;
ghost use Rattle.std.specs.Option.{option_copied};
ghost use Rattle.silo_model.specs.Sends.{first_target};
ghost use Rattle.silo_model.specs.Pending.{sends_of};
ghost use Rattle.silo_model.specs.Todo.{work_on};
ghost use Rattle.tenant_accounts.specs.Sends.{first_send, first_source, send_of, sent_bytes};
ghost use Rattle.silo_state.specs.Work.{first_waiting, step_at, is_settled};

use crate::silo::Silo;
use grain_id::GrainId;
use grain_logic::GrainLogic;
use grain_storage::GrainStorage;
use silo_state::PossibleStep;
use tenant_accounts::Sent;

impl<S: GrainStorage, L: GrainLogic> Silo<S, L> {
    /// What is to do with the grain's activation, if anything is.
    pub fn work_on(&self, grain: &GrainId) -> Option<PossibleStep>
        ensures { option_map (step_at grain.now) result ≡ work_on L.logic grain.now (map.get self.now.whole.entries grain.now) }
    {
        self.state.work_on(grain)
    }

    /// The number of the first request that waits at the grain, if one does.
    pub fn first_waiting(&self, grain: &GrainId) -> Option<u64>
        ensures { result ≡ first_waiting (map.get self.now.whole.entries grain.now) }
    {
        self.state.first_waiting(grain)
    }

    /// The target of the first call that the grain sent, and that is not yet delivered.
    pub fn first_target(&self, grain: &GrainId) -> Option<&GrainId>
        ensures { option_copied result ≡ first_target (map.get self.now.whole.accounts grain.now.tenant) grain.now }
    {
        self.state.first_target(grain)
    }

    /// The grain that sent the oldest of what the tenant's grains sent, and is not yet delivered.
    pub fn oldest_sender(&self, tenant: &str) -> Option<&GrainId>
        ensures { option_copied result ≡ first_source (sends_of (map.get self.now.whole.accounts tenant.now)) }
    {
        self.state.oldest_sender(tenant)
    }

    /// The oldest of what the tenant's grains sent, and is not yet delivered.
    pub fn oldest_sent(&self, tenant: &str) -> Option<&Sent>
        ensures { option_map send_of (option_copied result) ≡ first_send (sends_of (map.get self.now.whole.accounts tenant.now)) }
    {
        self.state.oldest_sent(tenant)
    }

    /// How many calls the tenant's grains sent, of those that are not yet delivered.
    pub fn sent_calls(&self, tenant: &str) -> usize
        ensures { result ≡ length (sends_of (map.get self.now.whole.accounts tenant.now)) }
    {
        self.state.sent_calls(tenant)
    }

    /// How many bytes the messages of all these calls have together.
    pub fn sent_bytes(&self, tenant: &str) -> u64
        ensures { result ≡ sent_bytes (sends_of (map.get self.now.whole.accounts tenant.now)) }
    {
        self.state.sent_bytes(tenant)
    }

    /// Whether no request waits at the grain, and no turn of it is open.
    pub fn is_settled(&self, grain: &GrainId) -> bool
        ensures { result ≡ is_settled (map.get self.now.whole.entries grain.now) }
    {
        self.state.is_settled(grain)
    }
}
