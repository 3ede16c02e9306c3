//! Turns of each method of each kind, and their plans. States, arguments and answers are JSON.

use crate::compare::{are_bytes, same};
use crate::rows::{Fields, Subject, hold, put, show, tell};
use crate::values::{grain, message, read_state, spelled, state};
use bumpalo::Bump;
use grain_kinds::{Kinds, NewestKinds, RestingKinds, Version, newest};
use grain_logic::{
    FinishedTurn, GrainLogic, MethodFault, OpenedTurn, OwnedPlan, plan_turn, run_turn,
};
use request_codec::{Message, StateBytes, decode_state, to_json};
use std::alloc::{AllocError, Global};
use std::test::Fail;
use turn_arena::number_asked;

/// Turns of all kinds: a grain, its state, a method and its argument.
static TURNS: &str = r#"
# The answer or the fault, and the state after it.
turn | counter/red:a | 2 | add | {"by":3} | 5;5;
turn | counter/red:a | null | add | {"by":3} | 3;3;
turn | counter/red:a | 2 | get | null | 2;2;
turn | sheet/red:a | 2 | put | {"name":"b","value":true} | null;{"b":true};
turn | sheet/red:a | {"b":true,"d":[1]} | put | {"name":"c","value":{"x":2}} | null;{"b":true,"c":{"x":2},"d":[1]};
turn | sheet/red:a | {"b":true,"c":{"x":2},"d":[1]} | put | {"name":"c","value":"y"} | null;{"b":true,"c":"y","d":[1]};
turn | sheet/red:a | {"b":true} | put | {"name":"bb","value":-7} | null;{"b":true,"bb":-7};
turn | sheet/red:a | {"b":true} | get | {"name":"b"} | true;{"b":true};
turn | sheet/red:a | {"b":true} | get | {"name":"c"} | null;{"b":true};
turn | sheet/red:a | {"b":true} | list | null | ["b"];{"b":true};
turn | sheet/red:a | {"b":true} | drop | {"name":"b"} | true;{};
turn | sheet/red:a | {"b":true} | drop | {"name":"c"} | false;{"b":true};
turn | relay/red:a | [] | join | {"grain":"sheet/red:a"} | true;["sheet/red:a"];
turn | relay/red:a | ["sheet/red:a"] | join | {"grain":"sheet/red:a"} | false;["sheet/red:a"];
turn | relay/red:a | ["sheet/red:a"] | leave | {"grain":"sheet/red:a"} | true;[];
turn | relay/red:a | ["sheet/red:a"] | leave | {"grain":"sheet"} | false;["sheet/red:a"];
# A grain that stands twice, and a text that names none: no relay, so it counts as an empty one.
turn | relay/red:a | ["sheet/red:b","sheet/red:b"] | join | {"grain":"sheet/red:a"} | true;["sheet/red:a"];
turn | relay/red:a | ["sheet/red:b","sheet"] | join | {"grain":"sheet/red:a"} | true;["sheet/red:a"];
turn | counter/red:a | 9223372036854775807 | add | {"by":3} | OutOfRange;9223372036854775807;
turn | counter/red:a | 2 | add | 2 | Misfit;2;
turn | counter/red:a | 2 | put | {"by":3} | UnknownMethod;2;
turn | relay/red:a | 2 | clear | 2 | Misfit;2;
turn | relay/red:a | [] | join | {"grain":"sheet"} | Misfit;[];
turn | relay/red:a | ["counter/red:b","counter/red:c","counter/red:d","counter/red:e"] | join | {"grain":"sheet/red:a"} | OutOfRange;["counter/red:b","counter/red:c","counter/red:d","counter/red:e"];

# What is asked of the storage, and what is sent.
asked | counter/red:a | 2 | save | null | counter/red:a;Write
asked | sheet/red:a | 2 | reload | null | sheet/red:a;Read
asked | relay/red:a | 2 | clear | null | relay/red:a;Clear
asked | counter/red:a | 2 | get | null | counter/red:a;None

# Sheets of the field `a` with a text; a `put` makes them 8 bytes longer. Its fault, and how long the state is that it leaves.
wide | sheet/red:a | 06 00000001 00000001 'a 04 0003ffe9 78*262121 | put | {"name":"bcd","value":null} | (None, 262144)
wide | sheet/red:a | 06 00000001 00000001 'a 04 0003ffea 78*262122 | put | {"name":"bcd","value":null} | (Some(TooLarge), 262137)
"#;

/// A turn that sends as much as one may.
static SENDING: &str =
    "asked | relay/red:a | [\"counter/red:b\",\"counter/red:c\",\"counter/red:d\",\"counter/red:e\"] | send | {\"args\":5,\"method\":\"add\"} | relay/red:a;None;counter/red:b;add;counter/red:c;add;counter/red:d;add;counter/red:e;add";

/// Turns by the newest version: some of its methods say that the activation rests or stays.
static NEWEST: &str = r#"
# The answer or the fault, the state, which is kept, and what is said of the activation.
turn | counter/red:a | 2 | rest | null | null;2;Rest
turn | sheet/red:a | {"b":true} | rest | null | null;{"b":true};Rest
turn | relay/red:a | 2 | rest | null | null;2;Rest
turn | counter/red:a | 2 | stay | {"for":1} | null;2;Stay(1)
turn | sheet/red:a | [1] | stay | {"for":50} | null;[1];Stay(50)
turn | relay/red:a | [] | stay | {"for":86400000} | null;[];Stay(86400000)
turn | counter/red:a | 2 | stay | {"for":0} | Misfit;2;Same
turn | counter/red:a | 2 | stay | {"for":86400001} | Misfit;2;Same
turn | counter/red:a | 2 | stay | {"for":-1} | Misfit;2;Same
turn | counter/red:a | 2 | stay | {"for":"50"} | Misfit;2;Same
turn | counter/red:a | 2 | stay | 50 | Misfit;2;Same
turn | counter/red:a | 2 | rest | {} | Misfit;2;Same
turn | counter/red:a | 2 | sleep | null | UnknownMethod;2;Same
turn | lamp/red:a | 2 | rest | null | UnknownMethod;2;Same
turn | counter/red:a | 2 | get | null | 2;2;Same
turn | counter/red:a | 2 | save | null | null;2;Same
turn | sheet/red:a | {"b":true} | put | {"name":"b","value":true} | null;{"b":true};Same
"#;

/// Plans of turns, in bytes of their own: the other state, the answer, and what is asked and sent.
static PLANS: &str = r#"
plan | sheet/red:a | {} | put | {"name":"b","value":true} | {"b":true};null;None;0
plan | counter/red:a | 2 | get | null | none;2;None;0
# The plan that a finished turn lends.
lent plan | sheet/red:a | {} | put | {"name":"b","value":true} | {"b":true};null;None;0
"#;

/// What kinds are known, which of their methods only read, and which do no more than add a number or set a field.
static KINDS: &str = r#"
# A kind that is known, and whether the method only reads.
reads | counter | get | (true, true)
reads | sheet | get | (true, true)
reads | sheet | list | (true, true)
reads | relay | get | (true, false)
reads | counter | list | (true, false)
reads | counters | get | (false, false)

# The empty state of a kind.
empty | relay | 05 00000000 | true

# A kind, a method, and what every turn of the method does, by both logics.
shortcut | counter | add | (Adds("by"), Adds("by"))
shortcut | counter | get | (None, None)
shortcut | counter | put | (None, None)
shortcut | counter | rest | (None, None)
shortcut | sheet | put | (Sets("name", "value"), Sets("name", "value"))
shortcut | sheet | add | (None, None)
shortcut | sheet | drop | (None, None)
shortcut | sheet | stay | (None, None)
shortcut | relay | add | (None, None)
shortcut | counters | add | (None, None)

# What a message asks, if it is a number alone.
asks | 02 00000003 'add 06 00000001 00000002 'by 03 0000000000000003 | Some(("add", "by", 3))
asks | 02 00000003 'add 00 | None
"#;

/// Writes a state as JSON.
fn put_state(alloc: Global, state: &StateBytes, out: &mut String) -> Result<(), Fail> {
    let value = decode_state(alloc, state)?;
    let json = to_json(alloc, &value);
    drop(value);
    let json = json?;
    let text = json.to_string(alloc);
    drop(json);
    put(out, text?.as_str())
}

fn put_outcome(
    alloc: Global,
    outcome: &Result<StateBytes, MethodFault>,
    out: &mut String,
) -> Result<(), Fail> {
    match outcome {
        Ok(answer) => put_state(alloc, answer, out),
        Err(fault) => {
            show(out, *fault)?;
            put(out, "")
        }
    }
}

/// The state of a row, given by its bytes or as JSON.
fn state_of(alloc: Global, call: &str, text: &str) -> Result<StateBytes, Fail> {
    if call == "wide" {
        return read_state(alloc, &spelled(alloc, text)?);
    }
    state(alloc, text)
}

/// Turn 7 of the grain of a row, opened on the row's state.
fn opened(alloc: Global, call: &str, fields: &mut Fields<'_>) -> Result<OpenedTurn, Fail> {
    let grain = grain(alloc, fields.text())?;
    let state = state_of(alloc, call, fields.text())?;
    let message = message(alloc, fields.text(), fields.text())?;
    Ok(OpenedTurn {
        grain,
        number: 7,
        reading: false,
        state,
        message,
    })
}

/// The turn, run by a logic.
fn finished<L: GrainLogic>(
    alloc: Global,
    logic: &L,
    opened: OpenedTurn,
) -> Result<FinishedTurn<L>, Fail> {
    let bump = Bump::new(alloc);
    match run_turn(alloc, &bump, logic, opened) {
        Ok(finished) => Ok(finished),
        Err(back) => {
            drop(back);
            Err(Fail::from(AllocError))
        }
    }
}

/// What a turn results in.
fn put_turn<L: GrainLogic>(
    alloc: Global,
    turn: &FinishedTurn<L>,
    out: &mut String,
) -> Result<(), Fail> {
    put_outcome(alloc, turn.outcome(), out)?;
    put_state(alloc, turn.state(), out)
}

/// Whether a turn is turn 7.
fn is_seventh(turn: &FinishedTurn<Kinds>) -> bool {
    turn.number() == 7 && turn.input().number == 7
}

fn put_sent(target: &str, method: &str, out: &mut String) -> Result<(), Fail> {
    write!(out, ";{target};{method}")?;
    Ok(())
}

fn put_sends(turn: &FinishedTurn<Kinds>, out: &mut String) -> Result<(), Fail> {
    for (target, call) in turn.sends() {
        put_sent(target.text(), call.method(), out)?;
    }
    Ok(())
}

/// A turn is turn 7; its grain, and what it asks and sends.
fn put_asked(turn: &FinishedTurn<Kinds>, out: &mut String) -> Result<(), Fail> {
    same(is_seventh(turn), true)?;
    put(out, turn.grain().text())?;
    show(out, turn.store_call())?;
    put_sends(turn, out)
}

/// The fault of a turn, and how many bytes the state has that it leaves.
fn put_length(turn: &FinishedTurn<Kinds>, out: &mut String) -> Result<(), Fail> {
    let fault = match turn.outcome() {
        Ok(_) => None,
        Err(fault) => Some(*fault),
    };
    show(out, (fault, turn.state().bytes().len()))
}

fn put_parts(alloc: Global, plan: &OwnedPlan, out: &mut String) -> Result<(), Fail> {
    match &plan.state {
        Some(next) => put_state(alloc, next, out)?,
        None => put(out, "none")?,
    }
    put_outcome(alloc, &plan.outcome, out)?;
    let (store, sends) = (plan.store, plan.sends.len());
    write!(out, "{store:?};{sends}")?;
    Ok(())
}

fn put_plan(alloc: Global, plan: OwnedPlan, out: &mut String) -> Result<(), Fail> {
    let told = put_parts(alloc, &plan, out);
    drop(plan);
    told
}

/// The plan of a turn.
fn planned(alloc: Global, turn: &OpenedTurn) -> Result<OwnedPlan, AllocError> {
    let bump = Bump::new(alloc);
    plan_turn(
        alloc,
        &bump,
        &Kinds,
        &turn.grain,
        &turn.state,
        &turn.message,
    )
}

/// What a turn is planned to result in.
fn put_planned(
    alloc: Global,
    turn: Result<OpenedTurn, Fail>,
    out: &mut String,
) -> Result<(), Fail> {
    let turn = turn?;
    let plan = planned(alloc, &turn);
    drop(turn);
    put_plan(alloc, plan?, out)
}

/// What a call asks of a turn that was run.
fn put_finished(
    alloc: Global,
    call: &str,
    turn: &FinishedTurn<Kinds>,
    out: &mut String,
) -> Result<(), Fail> {
    match call {
        "turn" => put_turn(alloc, turn, out),
        "wide" => put_length(turn, out),
        "lent plan" => put_plan(alloc, turn.plan().clone()?, out),
        _ => put_asked(turn, out),
    }
}

/// The same of one that is yet to be run.
fn put_run(
    alloc: Global,
    call: &str,
    turn: Result<OpenedTurn, Fail>,
    out: &mut String,
) -> Result<(), Fail> {
    put_finished(alloc, call, &finished(alloc, &Kinds, turn?)?, out)
}

impl Subject for Kinds {
    fn answer(
        &mut self,
        alloc: Global,
        call: &str,
        fields: &mut Fields<'_>,
        out: &mut String,
    ) -> Result<(), Fail> {
        let turn = opened(alloc, call, fields);
        if call == "plan" {
            return put_planned(alloc, turn, out);
        }
        put_run(alloc, call, turn, out)
    }
}

#[test]
fn methods_answer_or_refuse(rt: HostRuntime) -> Result<(), Fail> {
    hold(rt.alloc(), &mut Kinds, TURNS)?;
    hold(rt.alloc(), &mut Kinds, SENDING)
}

#[test]
fn turns_are_planned(rt: HostRuntime) -> Result<(), Fail> {
    hold(rt.alloc(), &mut Kinds, PLANS)
}

/// What a turn results in, and what it says of the activation.
fn put_kept(alloc: Global, turn: &FinishedTurn<NewestKinds>, out: &mut String) -> Result<(), Fail> {
    put_turn(alloc, turn, out)?;
    show(out, turn.keep())
}

impl Subject for NewestKinds {
    fn answer(
        &mut self,
        alloc: Global,
        call: &str,
        fields: &mut Fields<'_>,
        out: &mut String,
    ) -> Result<(), Fail> {
        let turn = opened(alloc, call, fields)?;
        put_kept(alloc, &finished(alloc, self, turn)?, out)
    }
}

#[test]
fn the_newest_version_answers_or_refuses(rt: HostRuntime) -> Result<(), Fail> {
    hold(rt.alloc(), &mut NewestKinds, NEWEST)
}

/// What logics and messages say with no turn.
#[derive(Clone, Copy)]
struct Known;

/// Whether the empty state of a kind has these bytes.
fn begins_as(alloc: Global, kind: &str, bytes: &[u8]) -> Result<bool, Fail> {
    if Kinds.knows(kind) {
        return Ok(are_bytes(Kinds.empty(alloc, kind)?.bytes(), bytes));
    }
    Err(Fail::from("the kind is unknown"))
}

/// The same of bytes that words spell.
fn begins_as_spelled(alloc: Global, kind: &str, words: &str) -> Result<bool, Fail> {
    begins_as(alloc, kind, &spelled(alloc, words)?)
}

/// Writes what a message asks, if it is a number alone.
fn put_number_asked(alloc: Global, words: &str, out: &mut String) -> Result<(), Fail> {
    let message = Message::read(alloc, &spelled(alloc, words)?)?;
    show(out, number_asked(&message))
}

/// Writes whether a kind is known, and whether its method only reads.
fn put_known(kind: &str, method: &str, out: &mut String) -> Result<(), Fail> {
    show(out, (Kinds.knows(kind), Kinds.is_read(kind, method)))
}

/// Writes what every turn of a method does, by both logics.
fn put_shortcuts(kind: &str, method: &str, out: &mut String) -> Result<(), Fail> {
    let alone = Kinds.shortcut(kind, method);
    show(out, (alone, RestingKinds.shortcut(kind, method)))
}

impl Subject for Known {
    fn answer(
        &mut self,
        alloc: Global,
        call: &str,
        fields: &mut Fields<'_>,
        out: &mut String,
    ) -> Result<(), Fail> {
        let first = fields.text();
        let second = fields.text();
        match call {
            "reads" => put_known(first, second, out),
            "empty" => tell(out, begins_as_spelled(alloc, first, second)),
            "asks" => put_number_asked(alloc, first, out),
            _ => put_shortcuts(first, second, out),
        }
    }
}

#[test]
fn kinds_are_known(rt: HostRuntime) -> Result<(), Fail> {
    hold(rt.alloc(), &mut Known, KINDS)
}

#[test]
fn each_version_has_its_number() -> Result<(), Fail> {
    same((Kinds::number(), RestingKinds::number()), (1, 2))?;
    same(NewestKinds::number(), newest())
}

/// The number of the turn that comes back, if memory is refused to its plan.
fn given_back(alloc: Global, opened: OpenedTurn) -> u64 {
    let bump = Bump::new(alloc);
    bump.set_allocation_limit(Some(0));
    match run_turn(alloc, &bump, &Kinds, opened) {
        Ok(turn) => {
            drop(turn);
            0
        }
        Err(back) => {
            let number = back.number;
            drop(back);
            number
        }
    }
}

#[test]
fn a_turn_comes_back_if_memory_is_refused(rt: HostRuntime) -> Result<(), Fail> {
    let mut row = Fields::of("sheet/red:a | {} | put | {\"name\":\"b\",\"value\":true}");
    let opened = opened(rt.alloc(), "turn", &mut row)?;
    same(given_back(rt.alloc(), opened), 7)
}
