//! The tenant arguments.

ghost use Rattle.std.specs.Prelude.{◌≡◌, ◌++◌, ◌∷◌, [], false, map, IsTrue, IfSome, IfNone};
ghost use Rattle.std.specs.Prelude.{IfOk, IfErr, OnOk};
ghost use Rattle.grain_id.specs.Names.{same_text};
ghost use Rattle.grain_id.specs.Words.{is_word};
ghost use Rattle.tenant_gate.specs.declared.limits.Limits.{Limits};
ghost use Rattle.silo_words.specs.Tenants.{is_named, IsLimitsText, IsTenantText, IsNoTenantText, IsRefusedBehind, MayFollow};
ghost use Rattle.silo_words.specs.Tenants.{NameTenants, IsReason};

use crate::parts::{cut, read_number};
use grain_id::{IdFault, Tenant};
use std::alloc::{AllocError, Global};
use tenant_gate::{Limits, MAX_ACTIVATIONS, MAX_MAILBOX, MAX_TENANTS, TableFault, TenantTable};
use thiserror::Error;

/// A tenant and what it may have.
#[derive(Drop)]
struct TenantLimits {
    tenant: Tenant,
    limits: Limits,
}

/// Why the tenant arguments name no tenants.
#[derive(Clone, Copy, Debug, PartialEq, Eq, Error)]
pub enum TenantsFault {
    #[error("out of memory")]
    Memory,
    /// The number of the first argument that is refused, from 1.
    #[error("tenant argument {0} is refused")]
    Refused(usize),
}

impl From<AllocError> for TenantsFault {
    ghost use Rattle.silo_words.specs.declared.tenants.TenantsFault.TheVariants as faults;

    ghost from_gives = { λ _ e. e ≡ faults.Memory };

    fn from(_refused: AllocError) -> TenantsFault {
        TenantsFault::Memory
    }
}

/// The limits that `ACT:MAIL` writes, if it writes some.
fn read_limits(text: &str) -> Option<Limits>
    ensures some { IfSome result (λ limits. IsLimitsText text.now limits) }
    ensures none { IfNone result ((limits : Limits) → ¬ IsLimitsText text.now limits) }
{
    let (activations, mailbox) = cut(text, ':')?;
    Some(Limits {
        activations: read_number(activations, MAX_ACTIVATIONS)?,
        mailbox: read_number(mailbox, MAX_MAILBOX)?,
    })
}

/// The tenant of that name, if the text is one.
fn read_name(alloc: Global, text: &str) -> Result<Option<Tenant>, AllocError>
    ensures some { IfOk result (λ found. IfSome found (λ tenant. IsTrue (is_word text.now) × (text.now ≡ tenant))) }
    ensures none { IfOk result (λ found. IfNone found (is_word text.now ≡ false)) }
{
    match Tenant::read(alloc, text) {
        Ok(tenant) => Ok(Some(tenant)),
        Err(IdFault::Memory) => Err(AllocError),
        Err(IdFault::Kind | IdFault::Tenant | IdFault::Name | IdFault::Client) => Ok(None),
    }
}

/// The tenant and the limits that `TENANT:ACT:MAIL` writes, if it writes some.
fn read_tenant(alloc: Global, text: &str) -> Result<Option<TenantLimits>, AllocError>
    ensures some { IfOk result (λ read. IfSome read (λ t. IsTenantText text.now t.tenant t.limits)) }
    ensures none { IfOk result (λ read. IfNone read (IsNoTenantText text.now)) }
{
    let Some((name, limits)) = cut(text, ':') else {
        return Ok(None);
    };
    let Some(limits) = read_limits(limits) else {
        return Ok(None);
    };
    let Some(tenant) = read_name(alloc, name)? else {
        return Ok(None);
    };
    Ok(Some(TenantLimits { tenant, limits }))
}

/// Whether both are the same tenant.
fn is_same(tenant: &Tenant, other: &Tenant) -> bool
    ensures { result ≡ same_text tenant.now other.now }
{
    tenant.text() == other.text()
}

/// Whether the tenant is one of these.
fn is_named(list: &[(Tenant, Limits)], tenant: &Tenant) -> bool
    ensures { result ≡ is_named list.now tenant.now }
{
    for (named, _) in list {
        if is_same(tenant, named) {
            return true;
        }
    }
    false
}

/// The tenant that the text writes, if it isn't named before and there is a place for it.
fn next_tenant(
    alloc: Global,
    before: &[(Tenant, Limits)],
    text: &str,
) -> Result<Option<TenantLimits>, AllocError>
    ensures some { IfOk result (λ read. IfSome read (λ t. IsTenantText text.now t.tenant t.limits × MayFollow before.now t.tenant)) }
    ensures none { IfOk result (λ read. IfNone read (IsRefusedBehind before.now text.now)) }
{
    if before.len() >= MAX_TENANTS {
        return Ok(None);
    }
    let Some(read) = read_tenant(alloc, text)? else {
        return Ok(None);
    };
    if is_named(before, &read.tenant) {
        return Ok(None);
    }
    Ok(Some(read))
}

fn add(list: &mut Vec<(Tenant, Limits)>, read: TenantLimits) -> Result<(), AllocError>
    ensures { OnOk result (list.new.items ≡ list.old.items ++ (read.tenant, read.limits) ∷ []) }
{
    list.push((read.tenant, read.limits))?;
    Ok(())
}

/// The table of 1 to 1,000 tenants that the arguments name, in order.
///
/// # Errors
///
/// `Refused` with the number of the first argument that writes no tenant with its limits, or repeats a
/// tenant, or is one too many; and with 1 if there is no argument. `Memory`.
pub fn read_tenants(alloc: Global, texts: &[&str]) -> Result<TenantTable, TenantsFault>
    ensures named { IfOk result (λ table. NameTenants (map (λ text. text.now) texts.now) table) }
    ensures refused { IfErr result (λ fault. IsReason (map (λ text. text.now) texts.now) fault) }
{
    let mut list = Vec::new(alloc);
    for text in texts {
        let Some(read) = next_tenant(alloc, &list, text)? else {
            return Err(TenantsFault::Refused(list.len() + 1));
        };
        add(&mut list, read)?;
    }
    match TenantTable::new(alloc, list) {
        Ok(table) => Ok(table),
        Err(TableFault::Memory) => Err(TenantsFault::Memory),
        Err(TableFault::Empty) => Err(TenantsFault::Refused(1)),
        Err(TableFault::TooMany) => unreachable!(),
        Err(TableFault::Twice(_)) => unreachable!(),
        Err(TableFault::Range(_)) => unreachable!(),
    }
}
