//! The lines of rows and of active grains, put at the end of a text.

ghost use Rattle.std.specs.Prelude.{◌≡◌, ◌++◌, flat_map, map, IfOk, OnOk, option_map, string_bytes};
ghost use Rattle.json.specs.Print.{quoted};
ghost use Rattle.grain_id.specs.Names.{same_text};
ghost use Rattle.checkpoint_text.specs.Answers.{grain_in};
ghost use Rattle.rows_command.specs.Listing.{active_end, active_line, active_start, chosen, is_chosen, row_line, state_text, times_text};

use grain_id::GrainId;
use grain_storage::Row;
use request_codec::{StateBytes, decode_state, to_json};
use serde_json::Value;
use silo_state::GrainParts;
use std::alloc::{AllocError, Global};

/// A text as JSON: with its quotes, and with what has to be escaped escaped.
fn quoted(alloc: Global, part: &str) -> Result<String, AllocError>
    ensures { IfOk result (λ text. string_bytes text ≡ quoted part.now) }
{
    let value = Value::String(String::from_str(alloc, part)?);
    value.to_string(alloc)
}

/// A state as JSON.
fn json_of(alloc: Global, state: &StateBytes) -> Result<String, AllocError>
    ensures { IfOk result (λ text. string_bytes text ≡ state_text state.now) }
{
    let datum = decode_state(alloc, state)?;
    let value = to_json(alloc, &datum)?;
    value.to_string(alloc)
}

/// Adds the line of a row.
fn push_row(alloc: Global, text: &mut String, grain: &GrainId, row: &Row) -> Result<(), AllocError>
    ensures { OnOk result (string_bytes text.new ≡ string_bytes text.old ++ row_line (grain.now, row.now)) }
{
    let name = quoted(alloc, grain.text())?;
    let version = row.version;
    match &row.content {
        Some(state) => {
            let state = json_of(alloc, state)?;
            write!(
                text,
                "{{\"row\":{name},\"version\":{version},\"state\":{state}}}\n"
            )
        }
        None => write!(text, "{{\"row\":{name},\"version\":{version}}}\n"),
    }
}

/// Adds the start of an active grain's line.
fn push_start(
    alloc: Global,
    text: &mut String,
    grain: &GrainId,
    version: Option<u64>,
) -> Result<(), AllocError>
    ensures { OnOk result (string_bytes text.new ≡ string_bytes text.old ++ active_start grain.now version) }
{
    let name = quoted(alloc, grain.text())?;
    match version {
        Some(version) => write!(text, "{{\"active\":{name},\"version\":{version}"),
        None => write!(text, "{{\"active\":{name},\"version\":null"),
    }
}

/// Adds when an active grain was last used, and until when it stays.
fn push_times(text: &mut String, last: u64, until: u64) -> Result<(), AllocError>
    ensures { OnOk result (string_bytes text.new ≡ string_bytes text.old ++ times_text last until) }
{
    write!(text, ",\"last\":{last},\"until\":{until}")
}

/// Adds the end of an active grain's line.
fn push_end(alloc: Global, text: &mut String, state: &StateBytes) -> Result<(), AllocError>
    ensures { OnOk result (string_bytes text.new ≡ string_bytes text.old ++ active_end state.now) }
{
    let state = json_of(alloc, state)?;
    write!(text, ",\"state\":{state}}}\n")
}

/// Adds the line of an active grain.
fn push_active(
    alloc: Global,
    text: &mut String,
    grain: &GrainId,
    parts: &GrainParts,
) -> Result<(), AllocError>
    ensures { OnOk result (string_bytes text.new ≡ string_bytes text.old ++ active_line (grain_in (grain.now, parts.now))) }
{
    push_start(alloc, text, grain, parts.version)?;
    push_times(text, parts.last.get(), parts.until)?;
    push_end(alloc, text, &parts.state)
}

fn is_same(one: &str, other: &str) -> bool
    ensures { result ≡ same_text one.now other.now }
{
    one == other
}

/// Whether the grain's lines are printed: all are, or those of the tenant.
fn is_chosen(tenant: Option<&str>, grain: &GrainId) -> bool
    ensures { result ≡ is_chosen (option_map (λ text. text.now) tenant.entry) grain.now }
{
    match tenant {
        Some(tenant) => is_same(grain.tenant(), tenant),
        None => true,
    }
}

/// Adds the line of a row, if it is to be printed.
fn push_chosen_row(
    alloc: Global,
    text: &mut String,
    tenant: Option<&str>,
    grain: &GrainId,
    row: &Row,
) -> Result<(), AllocError>
    ensures { OnOk result (string_bytes text.new
        ≡ string_bytes text.old ++ chosen (option_map (λ name. name.now) tenant.entry) row_line (grain.now, row.now)) }
{
    if is_chosen(tenant, grain) {
        return push_row(alloc, text, grain, row);
    }
    Ok(())
}

/// Adds the line of an active grain, if it is to be printed.
fn push_chosen_active(
    alloc: Global,
    text: &mut String,
    tenant: Option<&str>,
    grain: &GrainId,
    parts: &GrainParts,
) -> Result<(), AllocError>
    ensures { OnOk result (string_bytes text.new ≡ string_bytes text.old
        ++ chosen (option_map (λ name. name.now) tenant.entry) active_line (grain_in (grain.now, parts.now))) }
{
    if is_chosen(tenant, grain) {
        return push_active(alloc, text, grain, parts);
    }
    Ok(())
}

/// Adds the lines of the rows that are to be printed.
pub(crate) fn push_rows(
    alloc: Global,
    text: &mut String,
    tenant: Option<&str>,
    rows: &[(GrainId, Row)],
) -> Result<(), AllocError>
    ensures { OnOk result (string_bytes text.new
        ≡ string_bytes text.old ++ flat_map (chosen (option_map (λ name. name.now) tenant.entry) row_line) rows.now) }
{
    'rows: for (grain, row) in rows {
        push_chosen_row(alloc, text, tenant, grain, row)?;
    }
    Ok(())
}

/// Adds the lines of the active grains that are to be printed.
pub(crate) fn push_actives(
    alloc: Global,
    text: &mut String,
    tenant: Option<&str>,
    grains: &[(GrainId, GrainParts)],
) -> Result<(), AllocError>
    ensures { OnOk result (string_bytes text.new ≡ string_bytes text.old
        ++ flat_map (chosen (option_map (λ name. name.now) tenant.entry) active_line) (map grain_in grains.now)) }
{
    'grains: for (grain, parts) in grains {
        push_chosen_active(alloc, text, tenant, grain, parts)?;
    }
    Ok(())
}
