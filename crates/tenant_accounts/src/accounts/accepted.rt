//! One request more of a tenant.

ghost use Rattle.std.specs.Prelude.{◌≡◌, ◌<◌, ◌+◌, IfSome};
ghost use Rattle.std.specs.FinMap as map;
ghost use Rattle.tenant_accounts.specs.Kept.{last_number};
ghost use Rattle.tenant_accounts.specs.inside.Numbers.{Numbers, Admits};
ghost use Rattle.tenant_accounts.specs.inside.Deliveries.{changed_account};

use crate::account::Account;
use crate::accounts::{Accounts, place_of};

/// The last number that a request may have.
pub const LAST_NUMBER: u64 = i64::MAX as u64;

impl Accounts {
    /// The number of the tenant's next request, if the tenant is known, a number is left and requests may wait. What looks for its
    /// account next finds it sooner.
    pub fn next_number(&mut self, tenant: &str) -> Option<u64>
        ensures number { IfSome result (λ number. Admits self.old tenant.now number) }
        ensures unchanged { self.new ≡ self.old }
    {
        let place = place_of(&self.by_name, self.latest, tenant)?;
        self.latest = place;
        let (_, account) = self.by_name.get_index(place)?;
        number_after(account)
    }

    /// One request more of the tenant was accepted.
    pub fn count_one(&mut self, tenant: &str)
        requires { IfSome (map.get self.old tenant.now) (λ a. a.count < last_number) }
        ensures { self.new ≡ changed_account (λ a. record a { count = a.count + 1 }) self.old tenant.now
            (map.get self.old tenant.now) }
    {
        if let Some(account) = self.get_mut(tenant) {
            account.count_one();
        }
    }
}

/// The number of the account's next request, if one is left and requests may wait.
fn number_after(account: &Account) -> Option<u64>
    ensures { IfSome result (λ number. Numbers account.now number) }
{
    if account.count() == LAST_NUMBER {
        return None;
    }
    if account.limits().mailbox == 0 {
        return None;
    }
    Some(account.count() + 1)
}
