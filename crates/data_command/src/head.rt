//! The words of a silo, as a log's head has them.

ghost use Rattle.std.specs.Prelude.{◌≡◌, ◌++◌, IfOk, OnOk, flat_map, map};
ghost use Rattle.log_text.specs.Head.{kind_line, tenant_line, words_text};
ghost use Rattle.data_command.specs.Words.{tenant_words, words_by};

use grain_id::{Kind, Tenant};
use idle_collector::AgeTable;
use log_text::{push_kind, push_number, push_tenant};
use std::alloc::{AllocError, Global};
use tenant_gate::{Age, Limits, TenantTable};

/// Adds a line for each kind that has an age of its own.
fn push_ages(text: &mut Vec<u8>, ages: &[(Kind, u64)]) -> Result<(), AllocError>
    ensures { OnOk result (text.new.items ≡ text.old.items ++ flat_map kind_line ages.now) }
{
    'ages: for (kind, age) in ages {
        push_kind(text, kind.text().as_bytes(), *age)?;
    }
    Ok(())
}

/// Adds a line for each tenant.
fn push_tenants(text: &mut Vec<u8>, tenants: &[(Tenant, Limits)]) -> Result<(), AllocError>
    ensures { OnOk result (text.new.items ≡ text.old.items ++ flat_map tenant_line (map tenant_words tenants.now)) }
{
    'tenants: for (tenant, limits) in tenants {
        push_tenant(
            text,
            tenant.text().as_bytes(),
            u64::from(limits.activations),
            u64::from(limits.mailbox),
        )?;
    }
    Ok(())
}

/// The lines that a log's head has of a silo: the number of its logic, its deliveries, ages and tenants.
pub(crate) fn head_words(
    alloc: Global,
    kinds: u8,
    sends: u64,
    age: Age,
    ages: &AgeTable,
    tenants: &TenantTable,
) -> Result<Vec<u8>, AllocError>
    ensures { IfOk result (λ words. words.items ≡ words_text (words_by kinds sends age ages.now tenants.now)) }
{
    let mut text = Vec::new(alloc);
    push_number(&mut text, b"kinds", u64::from(kinds))?;
    push_number(&mut text, b"sends", sends)?;
    push_number(&mut text, b"age", age.millis())?;
    push_ages(&mut text, ages.list())?;
    push_tenants(&mut text, tenants.list())?;
    Ok(text)
}
