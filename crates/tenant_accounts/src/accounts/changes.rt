//! What becomes of a tenant's account.

ghost use Rattle.std.specs.Prelude.{◌≡◌};
ghost use Rattle.std.specs.FinMap as map;
ghost use Rattle.tenant_accounts.specs.inside.Deliveries.{changed_account, without_first};

use crate::accounts::Accounts;
use grain_id::GrainId;

impl Accounts {
    /// The first call that the grain sent is taken out of what its tenant's grains sent. Takes no
    /// memory.
    pub fn take_first(&mut self, grain: &GrainId)
        ensures { self.new ≡ changed_account (λ a. record a { sends = without_first grain.now a.sends }) self.old grain.now.tenant
            (map.get self.old grain.now.tenant) }
    {
        if let Some(account) = self.get_mut(grain.tenant()) {
            account.take_first(grain);
        }
    }
}
