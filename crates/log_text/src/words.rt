//! The words of a silo, in the head of its log.

ghost use Rattle.std.specs.Prelude.{◌≡◌, ◌++◌, OnErr, OnOk, flat_map};
ghost use Rattle.log_text.specs.Lines.{IsPrefixOf};
ghost use Rattle.log_text.specs.Head.{kind_line, number_line, tenant_line};

use itoa::Buffer;
use std::alloc::AllocError;

/// Adds `LABEL N` and an LF, or a part of it.
fn push_number_parts(text: &mut Vec<u8>, label: &[u8], n: u64) -> Result<(), AllocError>
    ensures ok { OnOk result (text.new.items ≡ text.old.items ++ number_line label.now n) }
    ensures err { IsPrefixOf text.old.items text.new.items }
{
    let mut digits = Buffer::new();
    text.extend_from_slice(label)?;
    text.push(b' ')?;
    text.extend_from_slice(digits.format(n).as_bytes())?;
    text.push(b'\n')?;
    Ok(())
}

/// Adds the line of a word that is a number, as `kinds`, `sends` and `age`. An `Err` changes nothing.
pub fn push_number(text: &mut Vec<u8>, label: &[u8], n: u64) -> Result<(), AllocError>
    ensures ok { OnOk result (text.new.items ≡ text.old.items ++ number_line label.now n) }
    ensures err { OnErr result (text.new.items ≡ text.old.items) }
{
    let before = text.len();
    if push_number_parts(text, label, n).is_err() {
        text.truncate(before);
        return Err(AllocError);
    }
    Ok(())
}

/// Adds the line of a kind with an age of its own, or a part of it.
fn push_kind_parts(text: &mut Vec<u8>, kind: &[u8], age: u64) -> Result<(), AllocError>
    ensures ok { OnOk result (text.new.items ≡ text.old.items ++ kind_line (kind.now, age)) }
    ensures err { IsPrefixOf text.old.items text.new.items }
{
    text.extend_from_slice(b"kind ")?;
    push_number(text, kind, age)
}

/// Adds the line of a kind with an age of its own. An `Err` changes nothing.
pub fn push_kind(text: &mut Vec<u8>, kind: &[u8], age: u64) -> Result<(), AllocError>
    ensures ok { OnOk result (text.new.items ≡ text.old.items ++ kind_line (kind.now, age)) }
    ensures err { OnErr result (text.new.items ≡ text.old.items) }
{
    let before = text.len();
    if push_kind_parts(text, kind, age).is_err() {
        text.truncate(before);
        return Err(AllocError);
    }
    Ok(())
}

/// Adds the line of a tenant with its limits, or a part of it.
fn push_tenant_parts(
    text: &mut Vec<u8>,
    tenant: &[u8],
    act: u64,
    mail: u64,
) -> Result<(), AllocError>
    ensures ok { OnOk result (text.new.items ≡ text.old.items ++ tenant_line (tenant.now, (act, mail))) }
    ensures err { IsPrefixOf text.old.items text.new.items }
{
    let mut digits = Buffer::new();
    text.extend_from_slice(b"tenant ")?;
    text.extend_from_slice(tenant)?;
    text.push(b' ')?;
    push_number(text, digits.format(act).as_bytes(), mail)
}

/// Adds the line of a tenant with its limits. An `Err` changes nothing.
pub fn push_tenant(text: &mut Vec<u8>, tenant: &[u8], act: u64, mail: u64) -> Result<(), AllocError>
    ensures ok { OnOk result (text.new.items ≡ text.old.items ++ tenant_line (tenant.now, (act, mail))) }
    ensures err { OnErr result (text.new.items ≡ text.old.items) }
{
    let before = text.len();
    if push_tenant_parts(text, tenant, act, mail).is_err() {
        text.truncate(before);
        return Err(AllocError);
    }
    Ok(())
}
