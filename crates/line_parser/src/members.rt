//! The members of a line, taken from its JSON.

ghost use Rattle.std.specs.Prelude.{◌≡◌, ◌==◌, ◌<◌, ◌^◌, ℕ, IfSome, MatchOption, None, true, codes, option_map};
ghost use Rattle.serde_json.specs.Find.{get, as_object};
ghost use Rattle.serde_json.specs.View.{view};
ghost use Rattle.line_parser.specs.Form.{text_at, natural_at, truth_at, has_members};
ghost use Rattle.line_parser.specs.inside.Step.{IsValueOf, AreMembersOf};
ghost use Rattle.line_parser.specs.declared.line_members.ValueIn.{ValueIn};

use crate::line_members::{LineMembers, ValueIn};
use serde_json::Value;

/// The text of that name.
fn text_at<'v>(value: &'v Value, name: &str) -> Option<&'v str>
    ensures { text_at name.now (view value.now) ≡ option_map (λ s. s.now) result }
{
    value.get(name).and_then(Value::as_str)
}

/// The whole number of that name, 0 to 9,223,372,036,854,775,807.
fn natural_at(value: &Value, name: &str) -> Option<u64>
    ensures value { natural_at name.now (view value.now) ≡ result }
    ensures within { IfSome result (λ n. n < 2 ^ 63) }
{
    let number = value.get(name).and_then(Value::as_i64)?;
    if number < 0 {
        None
    } else {
        Some(number as u64)
    }
}

/// The truth value of that name.
fn truth_at(value: &Value, name: &str) -> Option<bool>
    ensures { truth_at name.now (view value.now) ≡ result }
{
    value.get(name).and_then(Value::as_bool)
}

/// How many members there are, if it is an object.
fn count_of(value: &Value) -> Option<usize>
    ensures { MatchOption result (as_object (view value.now) ≡ None)
        (λ count. (n : ℕ) → has_members n (view value.now) ≡ (count == n)) }
{
    match value.as_object() {
        Some(members) => Some(members.len()),
        None => None,
    }
}

/// The value of that name, and whether it is there.
fn value_at<'v>(value: &'v Value, name: &str) -> (bool, ValueIn<'v>)
    ensures { IsValueOf result.1 result.0 None (get name.now (view value.now)) }
{
    match value.get(name) {
        Some(member) => (true, ValueIn::Json(member)),
        None => (false, ValueIn::Bytes(&[])),
    }
}

/// The members, if it is known whether they have an argument or a state.
fn with_value<'v>(value: &'v Value, count: usize, args: bool, state: bool) -> LineMembers<'v>
    requires { (n : ℕ) → has_members n (view value.now) ≡ (count == n) }
    ensures { (a : ValueIn) → (has_members 6 (view value.now) ≡ true → IsValueOf a args None (get (codes "args") (view value.now)))
        → (has_members 5 (view value.now) ≡ true → IsValueOf a state None (get (codes "state") (view value.now)))
        → AreMembersOf (view value.now) result a }
{
    LineMembers {
        op: text_at(value, "op"),
        from: text_at(value, "from"),
        grain: text_at(value, "grain"),
        method: text_at(value, "method"),
        id: natural_at(value, "id"),
        turn: natural_at(value, "turn"),
        moment: natural_at(value, "now"),
        failed: truth_at(value, "failed"),
        args,
        state,
        refusal: None,
        count,
    }
}

/// The members, with the value that a form with `count` members may have.
fn members_of<'v>(value: &'v Value, count: usize) -> (LineMembers<'v>, ValueIn<'v>)
    requires { (n : ℕ) → has_members n (view value.now) ≡ (count == n) }
    ensures { AreMembersOf (view value.now) result.0 result.1 }
{
    if count == 6 {
        let (args, asked) = value_at(value, "args");
        return (with_value(value, count, args, false), asked);
    }
    if count == 5 {
        let (state, asked) = value_at(value, "state");
        return (with_value(value, count, false, state), asked);
    }
    (with_value(value, count, false, false), ValueIn::Bytes(&[]))
}

/// The members of JSON, if it is an object.
pub(crate) fn members_of_json<'v>(value: &'v Value) -> Option<(LineMembers<'v>, ValueIn<'v>)>
    ensures { MatchOption result (as_object (view value.now) ≡ None) (λ found. AreMembersOf (view value.now) found.0 found.1) }
{
    let Some(count) = count_of(value) else {
        return None;
    };
    Some(members_of(value, count))
}
