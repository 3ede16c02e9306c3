//! An account by what was kept of its tenant.

ghost use Rattle.std.specs.Prelude.{◌≡◌, ◌≤◌, IfOk, Some, map, string_bytes};
ghost use Rattle.tenant_accounts.specs.Kept.{account_by, last_number, own_sends};
ghost use Rattle.tenant_accounts.specs.Parts.{kept_in};
ghost use Rattle.tenant_accounts.specs.Sends.{send_of};

use crate::account::{Account, Sent};
use crate::parts::AccountParts;
use std::alloc::{AllocError, Global};
use std::collections::VecDeque;
use tenant_gate::Limits;

impl Account {
    /// The account with these limits, the count that was kept, and of what was sent what the tenant's own grains sent.
    pub(crate) fn resumed(
        alloc: Global,
        limits: Limits,
        part: &AccountParts,
    ) -> Result<Account, AllocError>
        requires { part.now.count ≤ last_number }
        ensures { IfOk result (λ a. a ≡ account_by (string_bytes part.now.name) limits (Some (kept_in part.now).1)) }
    {
        let sent = own_sends(alloc, part.name.as_str(), part.sends.as_slice())?;
        let mut account = Account::new(alloc, limits);
        account.send(alloc, sent)?;
        account.count = part.count;
        Ok(account)
    }
}

/// Copies of what the tenant's own grains sent, in order.
fn own_sends(alloc: Global, tenant: &str, sends: &[Sent]) -> Result<VecDeque<Sent>, AllocError>
    ensures { IfOk result (λ own. map send_of own.items ≡ own_sends tenant.now (map send_of sends.now)) }
{
    let mut own = VecDeque::new(alloc);
    for sent in sends {
        if sent.source.tenant() == tenant {
            own.push_back(sent.copied()?)?;
        }
    }
    Ok(own)
}
