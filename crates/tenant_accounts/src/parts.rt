//! What is kept of the accounts where a silo is left.

ghost use Rattle.std.specs.Prelude.{◌≡◌, IfOk, map};
ghost use Rattle.finite_maps.specs.Mapped.{map_values};
ghost use Rattle.tenant_accounts.specs.Kept.{kept_account};
ghost use Rattle.tenant_accounts.specs.Parts.{all_kept_in, kept_in};
ghost use Rattle.tenant_accounts.specs.Sends.{send_of};

use crate::account::{Account, Sent};
use crate::accounts::Accounts;
use std::alloc::{AllocError, Global};

/// A tenant's name, and what is kept of it: how many requests were accepted, and what its grains sent,
/// in order.
#[derive(Drop)]
pub struct AccountParts {
    pub name: String,
    pub count: u64,
    pub sends: Vec<Sent>,
}

impl Account {
    /// A copy of what its grains sent, in order.
    fn copied_sends(&self, alloc: Global) -> Result<Vec<Sent>, AllocError>
        ensures { IfOk result (λ calls. map send_of calls.items ≡ self.now.sends) }
    {
        let mut calls = Vec::new(alloc);
        for (_, sent) in self.sends.iter() {
            calls.push(sent.copied()?)?;
        }
        Ok(calls)
    }
}

/// What is kept of one account.
fn parts_of(alloc: Global, name: &str, account: &Account) -> Result<AccountParts, AllocError>
    ensures { IfOk result (λ parts. kept_in parts ≡ (name.now, kept_account account.now)) }
{
    Ok(AccountParts {
        name: String::from_str(alloc, name)?,
        count: account.count(),
        sends: account.copied_sends(alloc)?,
    })
}

impl Accounts {
    /// What is kept of each account.
    ///
    /// # Errors
    ///
    /// Out of memory.
    pub fn kept(&self, alloc: Global) -> Result<Vec<AccountParts>, AllocError>
        ensures { IfOk result (λ parts. all_kept_in parts.items ≡ map_values kept_account self.now) }
    {
        let mut parts = Vec::new(alloc);
        'places: for place in 0..self.by_name.len() {
            let Some((name, account)) = self.by_name.get_index(place) else {
                unreachable!()
            };
            parts.push(parts_of(alloc, name.as_str(), account)?)?;
        }
        Ok(parts)
    }
}
