//! What a logic is.

use crate::plan::Plan;
use crate::shortcut::Shortcut;
use bumpalo::Bump;
use request_codec::StateBytes;
use std::alloc::{AllocError, Global};
use turn_arena::Node;

/// What grains do with their messages. The functions belong to the type: two values of one type plan alike.
pub trait GrainLogic {
    ghost use Rattle.std.specs.Prelude.{◌≡◌, true, IfOk};
    ghost use Rattle.request_codec.specs.Call.{asks};
    ghost use Rattle.turn_arena.specs.NodeValue.{node_value};
    ghost use Rattle.grain_logic.specs.Logic.{Logic};
    ghost use Rattle.grain_logic.specs.Laws.{IsLawful, FitsState, FitsMessage};
    ghost use Rattle.grain_logic.specs.Shortcuts.{IsShortcut};
    ghost use Rattle.grain_logic.specs.Planned.{plan_shown};

    ghost logic: { Logic };

    /// Whether grains of this kind are known.
    fn knows(&self, kind: &str) -> bool
        ensures { result ≡ logic.knows kind.now };

    /// Whether the method of this kind only reads: it changes nothing, whatever the state and the argument.
    fn is_read(&self, kind: &str, method: &str) -> bool
        ensures { result ≡ logic.is_read kind.now method.now };

    /// The state of a grain of this kind that was never written.
    fn empty(&self, alloc: Global, kind: &str) -> Result<StateBytes, AllocError>
        requires { logic.knows kind.now ≡ true }
        ensures { IfOk result (λ state. state ≡ logic.empty kind.now) };

    /// The plan of a turn of the method. The state and the call must be within the limits of a state and a message.
    fn plan<'a>(
        &self,
        alloc: Global,
        bump: &'a Bump,
        kind: &str,
        method: &'a str,
        state: Node<'a>,
        args: Node<'a>,
    ) -> Result<Plan<'a>, AllocError>
        requires state_fits { FitsState (node_value state) }
        requires call_fits { FitsMessage (asks method.now (node_value args)) }
        ensures { IfOk result
            (λ plan. plan_shown (node_value state.entry) plan
            ≡ logic.plan kind.now method.now (node_value state.entry) (node_value args.entry)) };

    /// What every turn of the method does, if it is so little that the turn can be made by bytes. A logic needn't say so.
    fn shortcut(&self, _kind: &str, _method: &str) -> Shortcut
        ensures { IsShortcut (logic.plan _kind.now _method.now) result }
    {
        Shortcut::None
    }

    // The laws of a logic.
    ghost lawful: { IsLawful logic };
}
