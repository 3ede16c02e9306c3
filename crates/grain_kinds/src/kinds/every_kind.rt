//! The methods of every kind.

ghost use Rattle.std.specs.Prelude.{◌≡◌};
ghost use Rattle.request_codec.specs.Tree.{Tree};
ghost use Rattle.turn_arena.specs.NodeValue.{node_value};
ghost use Rattle.grain_logic.specs.Planned.{plan_shown};
ghost use Rattle.grain_logic.specs.Tables.{method_in, plan_by, reads_by, since_of};
ghost use Rattle.grain_kinds.specs.Kinds.EveryKind as every;
ghost use Rattle.grain_kinds.specs.Kinds.EveryKind.{every_kind, rest_plan, stay_plan};

use grain_logic::arguments::{integer_field, is_null};
use grain_logic::shared::shared_plan;
use grain_logic::{Keep, MAX_STAY_MILLISECONDS, MethodFault, Plan};
use std::alloc::Global;
use turn_arena::Node;

/// Whether the method only reads. None of these does.
#[tactic(auto, using(crate::proofs::Reading::every_kind_reads_none))]
pub(crate) fn only_reads(_method: &str) -> bool
    ensures { result ≡ reads_by (method_in every_kind _method.now) }
{
    false
}

/// The version since which the method stands: 1 if there is none of the word.
#[tactic(auto, unfolding(crate::specs::Kinds::EveryKind::every_kind))]
pub(crate) fn since(method: &str) -> u8
    ensures { result ≡ since_of (method_in every_kind method.now) }
{
    if method == "rest" {
        return 2;
    }
    if method == "stay" {
        return 2;
    }
    1
}

/// The plan of a turn of the method, if every kind has it. Any other method is unknown.
#[tactic(auto, using(crate::specs::Kinds::EveryKind::Laws::stored_plan), unfolding(crate::specs::Kinds::EveryKind::every_kind))]
pub(crate) fn plan_of<'a>(alloc: Global, method: &str, args: Node<'a>) -> Plan<'a>
    ensures { (state : Tree) → plan_shown state result ≡ plan_by (method_in every_kind method.now) state (node_value args.entry) }
{
    if method == "rest" {
        return rest(alloc, args);
    }
    if method == "stay" {
        return stay(alloc, args);
    }
    shared_plan(alloc, method, args)
}

/// The number, if it isn't below 0.
fn natural(number: i64) -> Option<u64>
    ensures { result ≡ every.natural number }
{
    if number < 0 {
        None
    } else {
        Some(number as u64)
    }
}

/// The time, if an activation may stay so long.
fn stay_time(time: u64) -> Option<u64>
    ensures { result ≡ every.stay_time time }
{
    if 1 <= time && time <= MAX_STAY_MILLISECONDS {
        return Some(time);
    }
    None
}

/// The time in `{"for": int}`.
fn stay_argument(args: Node<'_>) -> Option<u64>
    ensures { result ≡ every.stay_argument (node_value args.entry) }
{
    stay_time(natural(integer_field(args, "for")?)?)
}

/// The activation rests.
fn rest<'a>(alloc: Global, args: Node<'a>) -> Plan<'a>
    ensures { (state : Tree) → plan_shown state result ≡ rest_plan state (node_value args.entry) }
{
    if is_null(args) {
        return Plan::says(alloc, Keep::Rest);
    }
    Plan::keeps(alloc, Err(MethodFault::Misfit))
}

/// The activation stays for the time that is asked.
fn stay<'a>(alloc: Global, args: Node<'a>) -> Plan<'a>
    ensures { (state : Tree) → plan_shown state result ≡ stay_plan state (node_value args.entry) }
{
    let Some(time) = stay_argument(args) else {
        return Plan::keeps(alloc, Err(MethodFault::Misfit));
    };
    Plan::says(alloc, Keep::Stay(time))
}
