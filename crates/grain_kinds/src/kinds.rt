//! The table of the kinds, a module each, at each version.

ghost use Rattle.std.specs.Prelude.{◌≡◌, true, false, None, is_some, IfOk};
ghost use Rattle.request_codec.specs.Tree as tree;
ghost use Rattle.request_codec.specs.Tree.{no_members, no_fields};
ghost use Rattle.turn_arena.specs.Ascending.{MapsAscend};
ghost use Rattle.turn_arena.specs.NodeValue.{node_value};
ghost use Rattle.grain_kinds.specs.Kinds.{table};
ghost use Rattle.grain_kinds.specs.inside.Since.{known_since};
ghost use Rattle.grain_logic.specs.Laws.{FitsState};
ghost use Rattle.grain_logic.specs.Shortcuts.{IsShortcut};
ghost use Rattle.grain_logic.specs.Tables.{kind_in, kind_at, method_at, method_of, empty_by, reads_by, plan_by, since_of};
ghost use Rattle.grain_logic.specs.Planned.{plan_shown};

mod counter;
mod every_kind;
mod relay;
mod sheet;

use bumpalo::Bump;
use grain_logic::{MethodFault, Plan, Shortcut, state_of};
use request_codec::StateBytes;
use std::alloc::{AllocError, Global};
use turn_arena::Node;

/// The number of the newest version. One more method or kind makes a new version.
pub(crate) const NEWEST: u8 = 2;

fn is_known(kind: &str) -> bool
    ensures { result ≡ is_some (kind_in table kind.now) }
{
    kind == "counter" || kind == "sheet" || kind == "relay"
}

/// The version since which the kind is known: 1 if there is none of the word.
fn known_since(_kind: &str) -> u8
    ensures { result ≡ known_since (kind_in table _kind.now) }
{
    1
}

/// Whether the method of the kind only reads.
fn only_reads(kind: &str, method: &str) -> bool
    ensures { result ≡ reads_by (method_of (kind_in table kind.now) method.now) }
{
    if kind == "counter" {
        return counter::only_reads(method);
    }
    if kind == "sheet" {
        return sheet::only_reads(method);
    }
    if kind == "relay" {
        return relay::only_reads(method);
    }
    false
}

/// The version since which the method of the kind stands: 1 if there is none.
fn since(kind: &str, method: &str) -> u8
    ensures { result ≡ since_of (method_of (kind_in table kind.now) method.now) }
{
    if kind == "counter" {
        return counter::since(method);
    }
    if kind == "sheet" {
        return sheet::since(method);
    }
    if kind == "relay" {
        return relay::since(method);
    }
    1
}

fn empty_map<'a>() -> Node<'a>
    ensures { node_value result ≡ tree.map no_fields }
{
    Node::Map(&[])
}

fn empty_list<'a>() -> Node<'a>
    ensures { node_value result ≡ tree.list no_members }
{
    Node::List(&[])
}

/// The empty state of a kind.
fn empty_of<'a>(kind: &str) -> Node<'a>
    ensures { node_value result ≡ empty_by (kind_in table kind.now) }
{
    if kind == "counter" {
        return Node::Int(0);
    }
    if kind == "sheet" {
        return empty_map();
    }
    if kind == "relay" {
        return empty_list();
    }
    Node::Null
}

/// The plan by the module of the kind. A kind that isn't known has no method.
#[inline(always)]
fn plan_by<'a>(
    alloc: Global,
    bump: &'a Bump,
    kind: &str,
    method: &str,
    state: Node<'a>,
    args: Node<'a>,
) -> Result<Plan<'a>, AllocError>
    requires { MapsAscend (node_value state) }
    ensures { IfOk result
        (λ plan. plan_shown (node_value state.entry) plan
        ≡ plan_by (method_of (kind_in table kind.now) method.now) (node_value state.entry) (node_value args.entry)) }
{
    if kind == "counter" {
        return Ok(counter::plan_of(alloc, method, state, args));
    }
    if kind == "sheet" {
        return sheet::plan_of(alloc, bump, method, state, args);
    }
    if kind == "relay" {
        return relay::plan_of(alloc, bump, method, state, args);
    }
    Ok(Plan::keeps(alloc, Err(MethodFault::UnknownMethod)))
}

/// What every turn of the method does, if it is little.
fn shortcut_of(kind: &str, method: &str) -> Shortcut
    ensures { IsShortcut (plan_by (method_of (kind_in table kind.now) method.now)) result }
{
    if kind == "counter" {
        return counter::shortcut(method);
    }
    if kind == "sheet" {
        return sheet::shortcut(method);
    }
    Shortcut::None
}

/// Whether grains of the kind are known at a version.
pub(crate) fn knows_at(version: u8, kind: &str) -> bool
    ensures { result ≡ is_some (kind_at table version kind.now) }
{
    if version < known_since(kind) {
        return false;
    }
    is_known(kind)
}

/// Whether what stands under the two words, stands at a version.
#[tactic(auto, using(crate::proofs::Newer::newest_has))]
#[inline(always)]
fn stands(version: u8, kind: &str, method: &str) -> bool
    ensures now { result ≡ true → method_of (kind_in table kind.now) method.now ≡ method_at table version kind.now method.now }
    ensures later { result ≡ false → None ≡ method_at table version kind.now method.now }
{
    if version >= NEWEST {
        return true;
    }
    if version < known_since(kind) {
        return false;
    }
    since(kind, method) <= version
}

/// Whether the method of the kind only reads, at a version.
pub(crate) fn reads_at(version: u8, kind: &str, method: &str) -> bool
    ensures { result ≡ reads_by (method_at table version kind.now method.now) }
{
    if !stands(version, kind, method) {
        return false;
    }
    only_reads(kind, method)
}

/// The state of a grain of the kind that was never written, at a version.
pub(crate) fn empty_at(_version: u8, alloc: Global, kind: &str) -> Result<StateBytes, AllocError>
    requires { is_some (kind_at table _version kind.now) ≡ true }
    ensures { IfOk result (λ state. state ≡ empty_by (kind_at table _version kind.now)) }
{
    state_of(alloc, empty_of(kind))
}

/// The plan of a turn of the method at a version. A method that the version doesn't have yet is unknown.
#[tactic(auto, using(grain_logic::proofs::Fits::formed_ascends))]
#[inline(always)]
pub(crate) fn plan_at<'a>(
    version: u8,
    alloc: Global,
    bump: &'a Bump,
    kind: &str,
    method: &str,
    state: Node<'a>,
    args: Node<'a>,
) -> Result<Plan<'a>, AllocError>
    requires { FitsState (node_value state) }
    ensures { IfOk result
        (λ plan. plan_shown (node_value state.entry) plan
        ≡ plan_by (method_at table version kind.now method.now) (node_value state.entry) (node_value args.entry)) }
{
    if !stands(version, kind, method) {
        return Ok(Plan::keeps(alloc, Err(MethodFault::UnknownMethod)));
    }
    plan_by(alloc, bump, kind, method, state, args)
}

/// What every turn of the method does, if it is little, at a version.
pub(crate) fn shortcut_at(version: u8, kind: &str, method: &str) -> Shortcut
    ensures { IsShortcut (plan_by (method_at table version kind.now method.now)) result }
{
    if !stands(version, kind, method) {
        return Shortcut::None;
    }
    shortcut_of(kind, method)
}
