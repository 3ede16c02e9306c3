//! Tenants of which something is kept, and which a table leaves out.

ghost use Rattle.std.specs.Prelude.{◌≡◌, find, option_map, string_bytes};
ghost use Rattle.data_command.specs.Folder.{first_left_out, first_out, is_left_account, is_out};

use grain_id::GrainId;
use silo_checkpoint::Saved;
use tenant_accounts::AccountParts;
use tenant_gate::TenantTable;

/// Whether the table hasn't the tenant.
fn is_out(tenants: &TenantTable, tenant: &str) -> bool
    ensures { result ≡ is_out tenants.now tenant.now }
{
    tenants.limits(tenant).is_none()
}

/// Whether the account is that of such a tenant, and a request was accepted, or something that was sent waits.
fn is_left_account(tenants: &TenantTable, account: &AccountParts) -> bool
    ensures { result ≡ is_left_account tenants.now account.now }
{
    (account.count > 0 || account.sends.len() > 0) && is_out(tenants, account.name.as_str())
}

/// The first tenant of such an account.
fn account_out<'a>(tenants: &TenantTable, accounts: &'a [AccountParts]) -> Option<&'a str>
    ensures { option_map (λ name. name.now) result
        ≡ option_map (λ a. string_bytes a.name) (find (is_left_account tenants.now) accounts.now) }
{
    accounts
        .iter()
        .find(|account| is_left_account(tenants, account))
        .map(|account| account.name.as_str())
}

/// The first tenant of a list of grains that the table hasn't.
fn grain_out<'a, T>(tenants: &TenantTable, list: &'a [(GrainId, T)]) -> Option<&'a str>
    ensures { option_map (λ name. name.now) result ≡ first_out tenants.now list.now }
{
    list.iter()
        .find(|entry| is_out(tenants, entry.0.tenant()))
        .map(|entry| entry.0.tenant())
}

/// The first tenant that the table hasn't and of which a checkpoint says that something is kept: a count of requests, calls that wait to
/// be delivered, an active grain, or a row.
pub(crate) fn first_left_out<'a>(tenants: &TenantTable, saved: &'a Saved<'_>) -> Option<&'a str>
    ensures { option_map (λ name. name.now) result ≡ first_left_out tenants.now saved.now.kept saved.now.rows.items }
{
    if let Some(name) = account_out(tenants, saved.kept.accounts.as_slice()) {
        return Some(name);
    }
    if let Some(name) = grain_out(tenants, saved.kept.grains.as_slice()) {
        return Some(name);
    }
    grain_out(tenants, saved.rows.as_slice())
}
