//! Accounts that are opened from what was kept of them.

ghost use Rattle.std.specs.Prelude.{◌≡◌, ◌↔◌, ◌≤◌, IfOk, IfSome, IsSome, IsTrue, OnOk, Some, string_bytes};
ghost use Rattle.std.specs.FinMap as map;
ghost use Rattle.tenant_accounts.specs.Kept.{account_by, last_number, resumed_accounts};
ghost use Rattle.tenant_accounts.specs.Parts.{AreCounted, all_kept_in, kept_in};
ghost use Rattle.tenant_accounts.specs.inside.Deliveries.{changed_account};

use crate::account::Account;
use crate::accounts::{Accounts, LAST_NUMBER};
use crate::parts::AccountParts;
use grain_id::Tenant;
use std::alloc::{AllocError, Global};
use tenant_gate::Limits;

impl Accounts {
    /// The account of each of the tenants, by the first limits of each, with what is kept of it: how many requests were accepted, and
    /// of what was sent what its own grains sent. Of a tenant of which two parts are kept the first counts, and what is kept of other
    /// tenants is left out. None if a count is above 2^63 - 1.
    ///
    /// # Errors
    ///
    /// Out of memory.
    pub fn resumed(
        alloc: Global,
        tenants: &[(Tenant, Limits)],
        kept: &[AccountParts],
    ) -> Result<Option<Accounts>, AllocError>
        ensures resumed { IfOk result (λ found. IfSome found (λ a. a ≡ resumed_accounts tenants.now (all_kept_in kept.now))) }
        ensures counted { IfOk result (λ found. IsSome found ↔ AreCounted kept.now) }
    {
        if !are_counted(kept) {
            return Ok(None);
        }
        Ok(Some(resume_all(alloc, tenants, kept)?))
    }

    /// The tenant's account is made again by what is kept of it, if the tenant is known.
    fn resume(&mut self, alloc: Global, part: &AccountParts) -> Result<(), AllocError>
        requires { part.now.count ≤ last_number }
        ensures { OnOk result (self.new ≡ changed_account
            (λ a. account_by (string_bytes part.now.name) a.limits (Some (kept_in part.now).1)) self.old (string_bytes part.now.name)
            (map.get self.old (string_bytes part.now.name))) }
    {
        if let Some(account) = self.get_mut(part.name.as_str()) {
            *account = Account::resumed(alloc, account.limits(), part)?;
        }
        Ok(())
    }
}

/// The accounts of the tenants by what is kept of them. The parts come from the last to the first, so that of those with one name the
/// first counts.
fn resume_all(
    alloc: Global,
    tenants: &[(Tenant, Limits)],
    kept: &[AccountParts],
) -> Result<Accounts, AllocError>
    requires { AreCounted kept.now }
    ensures { IfOk result (λ a. a ≡ resumed_accounts tenants.now (all_kept_in kept.now)) }
{
    let mut accounts = Accounts::new(alloc, tenants)?;
    let mut rest = kept;
    'parts: while let Some((part, others)) = rest.split_last() {
        accounts.resume(alloc, part)?;
        rest = others;
    }
    Ok(accounts)
}

/// Whether no part counts more requests than may be accepted.
fn are_counted(kept: &[AccountParts]) -> bool
    ensures { IsTrue result ↔ AreCounted kept.now }
{
    'parts: for part in kept {
        if part.count > LAST_NUMBER {
            return false;
        }
    }
    true
}
