//! The methods of every kind: `save`, `reload` and `clear`.

ghost use Rattle.std.specs.Prelude.{◌≡◌};
ghost use Rattle.request_codec.specs.Tree.{Tree};
ghost use Rattle.turn_arena.specs.NodeValue.{node_value};
ghost use Rattle.grain_logic.specs.Planned.{plan_shown, storage_call};
ghost use Rattle.grain_logic.specs.Shared.{for_null, asks_storage, shared_plan};

use crate::arguments::is_null;
use crate::fault::MethodFault;
use crate::plan::{Plan, StoreCall};
use std::alloc::Global;
use turn_arena::Node;

/// The plan of a method that asks the storage and takes null.
fn asking<'a>(alloc: Global, args: Node<'a>, store: StoreCall) -> Plan<'a>
    ensures { (state : Tree) → plan_shown state result ≡ for_null state (node_value args.entry) (asks_storage (storage_call store) state) }
{
    if is_null(args) {
        return Plan::asks(alloc, store);
    }
    Plan::keeps(alloc, Err(MethodFault::Misfit))
}

/// The plan of a method of every kind: `save`, `reload` and `clear` take null and ask the storage. Any
/// other method is unknown.
#[tactic(auto, unfolding(crate::specs::Shared::shared_plan))]
pub fn shared_plan<'a>(alloc: Global, method: &str, args: Node<'a>) -> Plan<'a>
    ensures { (state : Tree) → plan_shown state result ≡ shared_plan method.now state (node_value args.entry) }
{
    if method == "save" {
        return asking(alloc, args, StoreCall::Write);
    }
    if method == "reload" {
        return asking(alloc, args, StoreCall::Read);
    }
    if method == "clear" {
        return asking(alloc, args, StoreCall::Clear);
    }
    Plan::keeps(alloc, Err(MethodFault::UnknownMethod))
}
