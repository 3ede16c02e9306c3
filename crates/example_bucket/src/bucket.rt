//! The kind `bucket`: tokens that come back with time. Its table is in `specs/Bucket.antt`.

ghost use Rattle.std.specs.Prelude.{◌≡◌, ◌<◌, ◌≤◌, ◌^◌, IfSome, max};
ghost use Rattle.request_codec.specs.Tree.{Tree};
ghost use Rattle.turn_arena.specs.NodeValue.{node_value};
ghost use Rattle.grain_logic.specs.Planned.{plan_shown};
ghost use Rattle.grain_logic.specs.Shared.{for_shape};
ghost use Rattle.example_bucket.specs.Bucket as bucket;
ghost use Rattle.example_bucket.specs.Bucket.{buckets, full_from, last_moment, takes};
ghost use Rattle.example_bucket.specs.LawsOfBucket.{buckets_lawful};

use bumpalo::Bump;
use grain_logic::arguments::integer_field;
use grain_logic::shared::shared_plan;
use grain_logic::{GrainLogic, MethodFault, Plan, state_of};
use request_codec::StateBytes;
use std::alloc::{AllocError, Global};
use turn_arena::Node;

/// How long a token takes to come back, in milliseconds.
const SECOND: u64 = 1_000;

/// How long all of them take.
const WHOLE_TIME: u64 = 10_000;

/// The last moment that an argument may name: 2^53.
const LAST_MOMENT: u64 = 9_007_199_254_740_992;

/// The number by which a journal would name this logic.
pub const NUMBER: u8 = 1;

/// Grains that are buckets.
#[derive(Clone, Copy, Drop)]
pub struct Buckets;

impl GrainLogic for Buckets {
    ghost logic = { buckets };

    ghost lawful = { buckets_lawful };

    fn knows(&self, kind: &str) -> bool {
        kind == "bucket"
    }

    fn is_read(&self, _: &str, _: &str) -> bool {
        false
    }

    fn empty(&self, alloc: Global, _: &str) -> Result<StateBytes, AllocError> {
        state_of(alloc, Node::Int(0))
    }

    fn plan<'a>(
        &self,
        alloc: Global,
        _: &'a Bump,
        _: &str,
        method: &'a str,
        state: Node<'a>,
        args: Node<'a>,
    ) -> Result<Plan<'a>, AllocError> {
        if method == "take" {
            return Ok(take(alloc, state, now_in(args)));
        }
        Ok(shared_plan(alloc, method, args))
    }
}

/// The number, if it is a moment.
fn moment_of(number: i64) -> Option<u64>
    ensures moment { result ≡ bucket.moment_of number }
    ensures within { IfSome result (λ moment. moment ≤ last_moment) }
{
    if number < 0 {
        return None;
    }
    let moment = number as u64;
    if moment <= LAST_MOMENT {
        return Some(moment);
    }
    None
}

/// The moment in `{"now": int}`.
fn now_in(args: Node<'_>) -> Option<u64>
    ensures moment { result ≡ bucket.now_in (node_value args.entry) }
    ensures within { IfSome result (λ moment. moment ≤ last_moment) }
{
    moment_of(integer_field(args, "now")?)
}

/// From when the bucket of a state is full.
fn full_from(state: Node<'_>) -> u64
    ensures within { result < 2 ^ 63 }
    ensures full { result ≡ bucket.full_from (node_value state.entry) }
{
    match state {
        Node::Int(number) => {
            if number < 0 {
                return 0;
            }
            number as u64
        }
        Node::Null => 0,
        Node::Bool(_) => 0,
        Node::Text(_) => 0,
        Node::List(_) => 0,
        Node::Map(_) => 0,
        Node::Bytes(_) => 0,
    }
}

/// The later of two moments.
fn later(one: u64, other: u64) -> u64
    ensures { result ≡ max one other }
{
    one.max(other)
}

/// A token, if one is there.
fn take_at<'a>(alloc: Global, full: u64, now: u64) -> Plan<'a>
    requires full { full < 2 ^ 63 }
    requires now { now ≤ last_moment }
    ensures { (state : Tree) → full_from state ≡ full → plan_shown state result ≡ takes state now }
{
    let next = later(full, now) + SECOND;
    if next <= now + WHOLE_TIME {
        return Plan::becomes(alloc, Node::Int(next as i64), Node::Bool(true));
    }
    Plan::keeps(alloc, Ok(Node::Bool(false)))
}

/// A token, if one is there and the argument says when.
fn take<'a>(alloc: Global, state: Node<'a>, now: Option<u64>) -> Plan<'a>
    requires { IfSome now (λ moment. moment ≤ last_moment) }
    ensures { plan_shown (node_value state.entry) result ≡ for_shape (node_value state.entry) now (takes (node_value state.entry)) }
{
    let Some(now) = now else {
        return Plan::keeps(alloc, Err(MethodFault::Misfit));
    };
    take_at(alloc, full_from(state), now)
}
