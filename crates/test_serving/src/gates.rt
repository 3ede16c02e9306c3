//! A gate and a logic at which turns wait for one another.

use bumpalo::Bump;
use grain_id::GrainId;
use grain_kinds::Kinds;
use grain_logic::{GrainLogic, Plan};
use request_codec::StateBytes;
use std::alloc::{AllocError, Global};
use std::thread;
use test_helpers::meeting::Meeting;
use turn_arena::Node;
use worker_host::TurnGate;

/// For how long the first turn is held up, in polls: so long that another worker comes, and waits.
const PAUSES: u32 = 100_000;

/// A gate at which turns wait for one another.
#[derive(Drop)]
pub struct TurnsMeet {
    pub meeting: Meeting,
    /// Whether the first turn isn't waited for, but held up.
    later: bool,
}

impl TurnsMeet {
    pub fn new(wanted: u64) -> TurnsMeet {
        TurnsMeet {
            meeting: Meeting::new(wanted),
            later: false,
        }
    }

    /// Of all turns but the first.
    pub fn later(wanted: u64) -> TurnsMeet {
        TurnsMeet {
            meeting: Meeting::new(wanted),
            later: true,
        }
    }
}

impl TurnGate for TurnsMeet {
    fn entered(&self, _grain: &GrainId, turn: u64) {
        if turn > 1 || !self.later {
            self.meeting.meet();
            return;
        }
        for _ in 0..PAUSES {
            thread::yield_now();
        }
    }
}

/// A logic whose plans wait for one another: counters, sheets and relays otherwise.
#[derive(Clone, Copy)]
pub struct Together<'m> {
    pub meeting: &'m Meeting,
}

impl GrainLogic for Together<'_> {
    ghost use Rattle.grain_kinds.specs.Kinds.{kinds};
    ghost use Rattle.grain_kinds.specs.LawsOfKinds.{kinds_lawful};

    ghost logic = { kinds };

    fn knows(&self, kind: &str) -> bool {
        Kinds.knows(kind)
    }

    fn is_read(&self, kind: &str, method: &str) -> bool {
        Kinds.is_read(kind, method)
    }

    fn empty(&self, alloc: Global, kind: &str) -> Result<StateBytes, AllocError> {
        Kinds.empty(alloc, kind)
    }

    fn plan<'a>(
        &self,
        alloc: Global,
        bump: &'a Bump,
        kind: &str,
        method: &'a str,
        state: Node<'a>,
        args: Node<'a>,
    ) -> Result<Plan<'a>, AllocError> {
        self.meeting.meet();
        Kinds.plan(alloc, bump, kind, method, state, args)
    }

    ghost lawful = { kinds_lawful 1 };
}
