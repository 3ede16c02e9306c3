//! The bodies of turns, which a worker runs without the lock.

ghost use Rattle.std.specs.Prelude.{◌≡◌, ◌+◌, ◌≤◌, ◌++◌, [], map as map_list, vec_len, vec_capacity};
ghost use Rattle.std.specs.VecDeque.{deque_len};
ghost use Rattle.lane_workers.specs.Turns.{turn_of};

use crate::gate::TurnGate;
use bumpalo::Bump;
use grain_logic::{FinishedTurn, GrainLogic, OpenedTurn, run_turn};
use std::alloc::Global;
use std::collections::VecDeque;

/// A turn whose body ran: what it came to, or opened still if memory was refused.
pub type RanTurn<L> = Result<FinishedTurn<L>, OpenedTurn>;

/// Runs the body of a turn, in an arena that is reset after it.
fn run<L: GrainLogic, G: TurnGate>(
    alloc: Global,
    arena: &mut Bump,
    gate: &G,
    logic: &L,
    opened: OpenedTurn,
) -> RanTurn<L>
    ensures { turn_of result ≡ opened }
{
    gate.entered(&opened.grain, opened.number);
    let ran = run_turn(alloc, arena, logic, opened);
    if arena.reset().is_err() {
        *arena = Bump::new(alloc);
    }
    ran
}

/// Runs the bodies of turns, one after another. Each has its own result then, and none is lost.
pub fn run_all<L: GrainLogic, G: TurnGate>(
    alloc: Global,
    arena: &mut Bump,
    gate: &G,
    logic: &L,
    taken: &mut VecDeque<OpenedTurn>,
    ran: &mut Vec<RanTurn<L>>,
)
    requires { vec_len ran.old + deque_len taken.old ≤ vec_capacity ran.old }
    ensures ran { map_list turn_of ran.new.items ≡ map_list turn_of ran.old.items ++ taken.old.items }
    ensures left { taken.new.items ≡ [] }
{
    'turns: while let Some(opened) = taken.pop_front() {
        ran.push_reserved(run(alloc, arena, gate, logic, opened));
    }
}
