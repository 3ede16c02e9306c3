//! The kind `counter`.

ghost use Rattle.std.specs.Prelude.{◌≡◌};
ghost use Rattle.request_codec.specs.Tree.{Tree};
ghost use Rattle.turn_arena.specs.NodeValue.{node_value};
ghost use Rattle.grain_logic.specs.Adding.{number_of};
ghost use Rattle.grain_logic.specs.Counters as counters;
ghost use Rattle.grain_logic.specs.Adding.{adds_number};
ghost use Rattle.grain_kinds.specs.Kinds.Counter.{counter_methods};
ghost use Rattle.grain_logic.specs.Tables.{method_in, plan_by, reads_by, since_of};
ghost use Rattle.grain_logic.specs.Planned.{plan_shown};
ghost use Rattle.grain_logic.specs.Shared.{for_null, for_shape, integer_field};
ghost use Rattle.grain_logic.specs.Shortcuts.{IsShortcut};

use super::every_kind;
use grain_logic::adding::number_of;
use grain_logic::arguments::{integer_field, is_null};
use grain_logic::{MethodFault, Plan, Shortcut};
use std::alloc::Global;
use turn_arena::Node;

/// Whether the method only reads.
#[tactic(auto, unfolding(crate::specs::Kinds::Counter::counter_methods))]
pub(crate) fn only_reads(method: &str) -> bool
    ensures { result ≡ reads_by (method_in counter_methods method.now) }
{
    if method == "add" {
        return false;
    }
    method == "get" || every_kind::only_reads(method)
}

/// The version since which the method stands: 1 if there is none of the word.
#[tactic(auto, unfolding(crate::specs::Kinds::Counter::counter_methods))]
pub(crate) fn since(method: &str) -> u8
    ensures { result ≡ since_of (method_in counter_methods method.now) }
{
    if method == "add" {
        return 1;
    }
    if method == "get" {
        return 1;
    }
    every_kind::since(method)
}

/// The plan of a turn of a counter.
#[tactic(auto, unfolding(crate::specs::Kinds::Counter::counter_methods))]
#[inline(always)]
pub(crate) fn plan_of<'a>(alloc: Global, method: &str, state: Node<'a>, args: Node<'a>) -> Plan<'a>
    ensures { plan_shown (node_value state.entry) result
        ≡ plan_by (method_in counter_methods method.now) (node_value state.entry) (node_value args.entry) }
{
    if method == "add" {
        return add(alloc, number_of(state), integer_field(args, "by"));
    }
    if method == "get" {
        return get(alloc, number_of(state), args);
    }
    every_kind::plan_of(alloc, method, args)
}

/// `add` adds the number that stands under `by`.
pub(crate) fn shortcut(method: &str) -> Shortcut
    ensures { IsShortcut (plan_by (method_in counter_methods method.now)) result }
{
    if method == "add" {
        return Shortcut::Adds("by");
    }
    Shortcut::None
}

/// The sum is the new number and the answer.
fn add<'a>(alloc: Global, number: i64, by: Option<i64>) -> Plan<'a>
    ensures { (state : Tree) → number_of state ≡ number → plan_shown state result ≡ for_shape state by (adds_number state) }
{
    let Some(by) = by else {
        return Plan::keeps(alloc, Err(MethodFault::Misfit));
    };
    let Some(sum) = number.checked_add(by) else {
        return Plan::keeps(alloc, Err(MethodFault::OutOfRange));
    };
    Plan::becomes(alloc, Node::Int(sum), Node::Int(sum))
}

/// The number is the answer.
fn get<'a>(alloc: Global, number: i64, args: Node<'a>) -> Plan<'a>
    ensures { (state : Tree) → number_of state ≡ number
        → plan_shown state result ≡ for_null state (node_value args.entry) (counters.get_plan state) }
{
    if is_null(args) {
        return Plan::keeps(alloc, Ok(Node::Int(number)));
    }
    Plan::keeps(alloc, Err(MethodFault::Misfit))
}
