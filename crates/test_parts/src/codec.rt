//! Messages, states and JSON, in memory of their own and in an arena.
//!
//! The calls of `turn_arena` that aren't here are run by the turns of `kinds`.

use crate::compare::{are_bytes, is_text, same, same_copy};
use crate::rows::{Fields, Subject, hold, show, tell};
use crate::values::{message, parsed, read_state, spelled, state};
use bumpalo::Bump;
use request_codec::{
    CodecFault, Datum, Message, SharedState, StateBytes, decode, decode_message, decode_state,
    encode, encode_json, from_json, migrate_message, read_old_state, to_json,
};
use serde_json::Value;
use std::alloc::{AllocError, Global};
use std::test::Fail;
use turn_arena::{
    ArenaFault, Node, bytes_in, decode_in, encode_node, list_in, map_in, node_in, put_in, text_in,
};

/// Bytes that are read as a message, or refused: see `spelled`.
static MESSAGES: &str = r#"
# Bytes that are read or refused: as a call, as a message that is kept, and into an arena.
message | 02 00000003 'add 06 00000001 00000002 'by 03 0000000000000003 | read
message | 02 00000003 'add 06 00000002 00000001 'a 05 00000005 00 02 01 03 fffffffffffffffe 04 00000002 'hi 00000001 'b 06 00000000 | read
# A part of a message, and one byte more.
message |  | refused
message | 02 00000003 'add | refused
message | 02 00000003 'add 06 00000001 00000002 'by 03 0000000000000003 00 | refused
# Another version.
message | 00 00000001 'a 00 | refused
message | 01 00000001 'a 00 | refused
message | 03 00000001 'a 00 | refused
# Names out of order.
message | 02 00000001 'a 06 00000002 00000001 'b 00 00000001 'a 00 | refused
# A name twice, and names in order.
message | 02 00000001 'a 06 00000002 00000001 'a 00 00000001 'a 00 | refused
message | 02 00000001 'a 06 00000002 00000001 'a 00 00000001 'b 00 | read
# Counts above what is left.
message | 02 00000001 'a 06 00000002 | refused
message | 02 00000001 'a 05 ffffffff | refused
# Text that isn't UTF-8.
message | 02 00000001 'a 04 00000002 c080 | refused
# 32 levels, and 33.
message | 02 00000001 'a 0500000001*31 05 00000000 | read
message | 02 00000001 'a 0500000001*32 05 00000000 | refused
# 65,536 bytes, and one more.
message | 02 00000001 'a 04 0000fff5 78*65525 | read
message | 02 00000001 'a 04 0000fff6 78*65526 | refused
# Bytes, no bytes, a count above what is left, and no value.
message | 02 00000001 'a 07 00000002 00ff | read
message | 02 00000001 'a 07 00000000 | read
message | 02 00000001 'a 07 00000002 00 | refused
message | 02 00000001 'a 08 00000000 | refused
# Bytes at level 32, and at level 33.
message | 02 00000001 'a 0500000001*31 07 00000000 | read
message | 02 00000001 'a 0500000001*32 07 00000000 | refused
# 65,536 bytes, and one more.
message | 02 00000001 'a 07 0000fff5 78*65525 | read
message | 02 00000001 'a 07 0000fff6 78*65526 | refused

# Nothing spells a part of a message: each of the 28 parts of this one is refused by all that read messages.
cuts | 02 00000003 'add 06 00000001 00000002 'by 03 0000000000000003 | 28

# An arena takes no memory for a count above what is left. No clause says so.
message room | 02 00000001 'a 05 ffffffff | (Some(NotAMessage), 0)
state room | 06 ffffffff | (Some(NotAMessage), 0)
"#;

/// The same of a state.
static STATES: &str = r#"
# Bytes that are read or refused: as a state, and into an arena.
state | 06 00000002 00000001 'a 05 00000005 00 02 01 03 fffffffffffffffe 04 00000002 'hi 00000001 'b 06 00000000 | read
state | 02 | read
# Many values, which an arena takes in several pieces.
state | 05 000000c8 00*200 | read
state |  | refused
state | 06 00000002 00000001 'a 05 00000005 00 02 01 03 fffffffffffffffe 04 00000002 'hi 00000001 'b 06 00000000 00 | refused
state | 07 | refused
# Names out of order, one twice, and in order.
state | 06 00000002 00000001 'b 00 00000001 'a 00 | refused
state | 06 00000002 00000001 'a 00 00000001 'a 00 | refused
state | 06 00000002 00000001 'a 00 00000001 'b 00 | read
state | 06 ffffffff | refused
# 32 levels, and 33.
state | 0500000001*31 05 00000000 | read
state | 0500000001*32 05 00000000 | refused
# 262,144 bytes, and one more.
state | 04 0003fffb 78*262139 | read
state | 04 0003fffc 78*262140 | refused
# Bytes that are no text, a count above what is left, and no value.
state | 07 00000002 c080 | read
state | 07 00000001 | refused
state | 08 00000000 | refused
# 262,144 bytes, and one more.
state | 07 0003fffb 78*262139 | read
state | 07 0003fffc 78*262140 | refused
"#;

/// What is read and written.
static WRITTEN: &str = r#"
# A message has 65,536 bytes at most: how long a text is, and how long its message.
length | 65525 | Ok(65536)
length | 65526 | Err(TooLong)

# Bytes of a message, its method and its argument: read and written, from a value and from JSON.
call | 02 00000003 'get 00 | get | null | true
call | 02 00000003 'add 06 00000001 00000002 'by 03 0000000000000003 | add | {"by":3} | true
call | 02 00000001 'a 06 00000002 00000001 'a 00 00000001 'b 00 | a | {"a":null,"b":null} | true
call | 02 00000001 'a 07 00000002 00ff | a | {"$hex":"00ff"} | true

# Bytes of a state, and its value: read, written and shared.
value | 02 | true | true

# Numbers are states.
decimal | 04 00000004 '1024 | 1024 | true
decimal | 04 00000014 '18446744073709551615 | 18446744073709551615 | true
integer | 03 fffffffffffffffe | -2 | true
integer | 03 8000000000000000 | -9223372036854775808 | true

# Values are written by an arena as they were read.
written | 06 00000002 00000001 'a 05 00000005 00 02 01 03 fffffffffffffffe 04 00000002 'hi 00000001 'b 06 00000000 | true
written | 05 00000002 03 0000000000000001 04 00000001 'x | true
written | 06 00000001 00000001 'a 00 | true
written | 07 00000002 00ff | true
"#;

/// JSON that is converted.
static JSON: &str = r#"
# Whole numbers of 32 levels are converted alone: JSON, and its faults as a value and as a message.
json | {"$hex":"0F"} | (Some(NotHex), Some(NotHex))
json | {"$hex":"0"} | (Some(NotHex), Some(NotHex))
json | {"$hex":null} | (Some(NotHex), Some(NotHex))
# Nothing in it is looked at.
json | {"$hex":1.5} | (Some(NotHex), Some(NotHex))
json | {"$hex":{"$hex":"00"}} | (Some(NotHex), Some(NotHex))
# A number comes first, wherever it stands.
json | [{"$hex":"0F"},1.5] | (Some(NotWhole), Some(NotWhole))
json | [1.5,{"$hex":"0F"}] | (Some(NotWhole), Some(NotWhole))
# Beside another member it is a name as any other.
json | {"$hex":"0F","x":1} | (None, None)
json | {"$hex":1.5,"x":1} | (Some(NotWhole), Some(NotWhole))
json | {"$hex":""} | (None, None)
# At level 32, and at level 33.
json | [[[[[[[[[[[[[[[[[[[[[[[[[[[[[[[{"$hex":[["00"]]}]]]]]]]]]]]]]]]]]]]]]]]]]]]]]]] | (Some(NotHex), Some(NotHex))
json | [[[[[[[[[[[[[[[[[[[[[[[[[[[[[[[[{"$hex":"00"}]]]]]]]]]]]]]]]]]]]]]]]]]]]]]]]] | (Some(TooDeep), Some(TooDeep))
json | 1.5 | (Some(NotWhole), Some(NotWhole))
json | -0 | (Some(NotWhole), Some(NotWhole))
json | 9223372036854775808 | (Some(NotWhole), Some(NotWhole))
json | [1.0] | (Some(NotWhole), Some(NotWhole))
json | {"a":1e2} | (Some(NotWhole), Some(NotWhole))
json | {"by":[3.0]} | (Some(NotWhole), Some(NotWhole))
json | 0 | (None, None)
json | 9223372036854775807 | (None, None)
json | -9223372036854775808 | (None, None)
json | [[[[[[[[[[[[[[[[[[[[[[[[[[[[[[[[]]]]]]]]]]]]]]]]]]]]]]]]]]]]]]]] | (None, None)
json | [[[[[[[[[[[[[[[[[[[[[[[[[[[[[[[[[]]]]]]]]]]]]]]]]]]]]]]]]]]]]]]]]] | (Some(TooDeep), Some(TooDeep))
"#;

/// Messages and states of the form before.
static OLD_FORMS: &str = r#"
# Messages of the form before, and those of now.
migrated | 01 00000003 'get 00 | 02 00000003 'get 00 | true
migrated | 01 00000001 'a 05 00000001 04 00000001 'x | 02 00000001 'a 05 00000001 04 00000001 'x | true
# A map whose one name is the name of bytes in JSON stays a map.
migrated | 01 00000001 'a 06 00000001 00000004 '$hex 04 00000002 '00 | 02 00000001 'a 06 00000001 00000004 '$hex 04 00000002 '00 | true

# Bytes that are no message of the form before.
old message |  | Some(NotAMessage)
old message | 01 00000003 'get | Some(NotAMessage)
old message | 01 00000003 'get 00 00 | Some(NotAMessage)
old message | 02 00000003 'get 00 | Some(NotAMessage)
old message | 01 00000001 'a 07 00000000 | Some(NotAMessage)
old message | 01 00000001 'a 05 00000002 00 07 00000001 78 | Some(NotAMessage)

# States of the form before hold no bytes.
old state | 06 00000002 00000001 'a 05 00000005 00 02 01 03 fffffffffffffffe 04 00000002 'hi 00000001 'b 06 00000000 | None
old state | 02 | None
old state | 08 | Some(NotAMessage)
old state | 07 00000000 | Some(NotAMessage)
old state | 06 00000001 00000001 'a 05 00000001 07 00000001 78 | Some(NotAMessage)
"#;

/// The same of a value of each form, as a message and as a state.
static EACH_FORM: [&str; 2] = [
    "call | 02 00000003 'add 06 00000002 00000001 'a 05 00000005 00 02 01 03 fffffffffffffffe 04 00000002 'hi 00000001 'b 06 00000000 | add | {\"a\":[null,true,false,-2,\"hi\"],\"b\":{}} | true",
    "value | 06 00000002 00000001 'a 05 00000005 00 02 01 03 fffffffffffffffe 04 00000002 'hi 00000001 'b 06 00000000 | {\"a\":[null,true,false,-2,\"hi\"],\"b\":{}} | true",
];

/// The same bytes are read by two crates.
#[derive(Clone, Copy)]
struct Codec;

/// The fault of reading into an arena, and how many bytes the arena takes.
fn arena_fault(alloc: Global, is_state: bool, bytes: &[u8]) -> (Option<ArenaFault>, usize) {
    let bump = Bump::new(alloc);
    let fault = if is_state {
        node_in(&bump, bytes).err()
    } else {
        decode_in(&bump, bytes).err()
    };
    (fault, bump.allocated_bytes())
}

/// The faults of a call, of a message that is kept, and of one in an arena.
type Faults = (Option<CodecFault>, Option<CodecFault>, Option<ArenaFault>);

const READ: Faults = (None, None, None);

const REFUSED: Faults = (
    Some(CodecFault::NotAMessage),
    Some(CodecFault::NotAMessage),
    Some(ArenaFault::NotAMessage),
);

fn message_faults(alloc: Global, bytes: &[u8]) -> Faults {
    let called = decode(alloc, bytes).err();
    let kept = Message::read(alloc, bytes).err();
    (called, kept, arena_fault(alloc, false, bytes).0)
}

fn state_faults(alloc: Global, bytes: &[u8]) -> Faults {
    let read = StateBytes::read(alloc, bytes).err();
    (read, read, arena_fault(alloc, true, bytes).0)
}

/// Whether bytes are read or refused, by all.
fn put_faults(faults: Faults, out: &mut String) -> Result<(), Fail> {
    if faults == READ {
        return Ok(out.push_str("read")?);
    }
    if faults == REFUSED {
        return Ok(out.push_str("refused")?);
    }
    show(out, faults)
}

/// Each part of bytes, from the first on, is refused by all that read messages. How many parts there are.
fn refused_parts(alloc: Global, bytes: &[u8]) -> Result<usize, Fail> {
    for count in 0..bytes.len() {
        same(message_faults(alloc, &bytes[..count]), REFUSED)?;
    }
    Ok(bytes.len())
}

/// A text of that many bytes `x`.
fn long_text(alloc: Global, count: u64) -> Result<Datum, Fail> {
    let mut text = String::new(alloc);
    for _ in 0..count {
        text.push('x')?;
    }
    Ok(Datum::Text(text))
}

/// How long the message of the method `a` and of a value is, or its fault.
fn message_length(alloc: Global, value: Datum) -> Result<usize, CodecFault> {
    let message = encode(alloc, "a", &value);
    drop(value);
    Ok(message?.bytes().len())
}

/// The same of a text of that many bytes.
fn text_length(alloc: Global, count: &str) -> Result<Result<usize, CodecFault>, Fail> {
    Ok(message_length(alloc, long_text(alloc, count.parse()?)?))
}

/// Whether a value is this JSON.
fn is_json(alloc: Global, value: Datum, wanted: &str) -> Result<bool, Fail> {
    let json = to_json(alloc, &value);
    drop(value);
    let json = json?;
    let text = json.to_string(alloc);
    drop(json);
    Ok(is_text(&text?, wanted))
}

fn is_call(alloc: Global, call: (String, Datum), method: &str, json: &str) -> Result<bool, Fail> {
    let (name, value) = call;
    Ok(is_json(alloc, value, json)? && is_text(&name, method))
}

/// A message that was kept, and a copy of it, say this.
fn is_kept(alloc: Global, message: &Message, method: &str, json: &str) -> Result<bool, Fail> {
    same_copy(message)?;
    let call = decode_message(alloc, message)?;
    Ok(is_call(alloc, call, method, json)? && is_text(message.method(), method))
}

/// The message of a method and JSON, with no value made of it.
fn direct(alloc: Global, method: &str, json: &str) -> Result<Message, Fail> {
    let json = parsed(alloc, json)?;
    let message = encode_json(alloc, method, &json);
    drop(json);
    Ok(message?)
}

fn is_decoded(alloc: Global, bytes: &[u8], method: &str, json: &str) -> Result<bool, Fail> {
    is_call(alloc, decode(alloc, bytes)?, method, json)
}

fn is_encoded(alloc: Global, bytes: &[u8], method: &str, json: &str) -> Result<bool, Fail> {
    let kept = message(alloc, method, json)?;
    Ok(is_kept(alloc, &kept, method, json)? && are_bytes(kept.bytes(), bytes))
}

fn is_direct(alloc: Global, bytes: &[u8], method: &str, json: &str) -> Result<bool, Fail> {
    Ok(are_bytes(direct(alloc, method, json)?.bytes(), bytes))
}

/// The bytes are the message of this method and this argument, and nothing else is.
fn is_message(alloc: Global, bytes: &[u8], method: &str, json: &str) -> Result<bool, Fail> {
    let decoded = is_decoded(alloc, bytes, method, json)?;
    let encoded = is_encoded(alloc, bytes, method, json)?;
    Ok(decoded && encoded && is_direct(alloc, bytes, method, json)?)
}

fn shared(alloc: Global, bytes: &[u8]) -> Result<SharedState, Fail> {
    Ok(SharedState::new(alloc, read_state(alloc, bytes)?)?.clone()?)
}

/// A state has these bytes, its copy is the same, and its value is this JSON.
fn is_of(alloc: Global, state: &StateBytes, bytes: &[u8], json: &str) -> Result<bool, Fail> {
    same_copy(state)?;
    let value = decode_state(alloc, state)?;
    Ok(is_json(alloc, value, json)? && are_bytes(state.bytes(), bytes))
}

fn is_shared(alloc: Global, bytes: &[u8]) -> Result<bool, Fail> {
    Ok(are_bytes(shared(alloc, bytes)?.state().bytes(), bytes))
}

/// The bytes are the state of this value, and the state is shared.
fn is_state(alloc: Global, bytes: &[u8], json: &str) -> Result<bool, Fail> {
    let shared = is_shared(alloc, bytes)?;
    Ok(shared && is_of(alloc, &state(alloc, json)?, bytes, json)?)
}

fn has(state: StateBytes, bytes: &[u8]) -> bool {
    are_bytes(state.bytes(), bytes)
}

/// The faults of JSON, if it is converted, and if it is encoded with no value made of it.
fn json_faults(alloc: Global, json: Value) -> (Option<CodecFault>, Option<CodecFault>) {
    let converted = from_json(alloc, &json).err();
    let encoded = encode_json(alloc, "a", &json).err();
    drop(json);
    (converted, encoded)
}

type JsonFaults = Result<(Option<CodecFault>, Option<CodecFault>), Fail>;

fn faults_of_json(alloc: Global, text: &str) -> JsonFaults {
    Ok(json_faults(alloc, parsed(alloc, text)?))
}

/// The state of these bytes, read into an arena and written.
fn written(alloc: Global, bytes: &[u8]) -> Result<StateBytes, Fail> {
    let bump = Bump::new(alloc);
    Ok(encode_node(alloc, node_in(&bump, bytes)?)?)
}

/// What bytes are read as.
fn put_read(alloc: Global, call: &str, bytes: &[u8], out: &mut String) -> Result<(), Fail> {
    match call {
        "message" => put_faults(message_faults(alloc, bytes), out),
        "state" => put_faults(state_faults(alloc, bytes), out),
        "cuts" => tell(out, refused_parts(alloc, bytes)),
        "message room" => show(out, arena_fault(alloc, false, bytes)),
        "state room" => show(out, arena_fault(alloc, true, bytes)),
        "old message" => show(out, migrate_message(alloc, bytes).err()),
        _ => show(out, read_old_state(alloc, bytes).err()),
    }
}

fn is_decimal(alloc: Global, bytes: &[u8], number: &str) -> Result<bool, Fail> {
    Ok(has(StateBytes::decimal(alloc, number.parse()?)?, bytes))
}

fn is_integer(bytes: &[u8], number: &str) -> Result<bool, Fail> {
    Ok(has(StateBytes::integer(number.parse()?), bytes))
}

/// Whether the bytes of a message are migrated to those.
fn is_migrated(alloc: Global, bytes: &[u8], new: &str) -> Result<bool, Fail> {
    let new = spelled(alloc, new)?;
    Ok(are_bytes(migrate_message(alloc, bytes)?.bytes(), &new))
}

fn is_written(alloc: Global, bytes: &[u8]) -> Result<bool, Fail> {
    Ok(has(written(alloc, bytes)?, bytes))
}

/// Whether bytes are what is written of the fields.
fn are_of(alloc: Global, call: &str, bytes: &[u8], fields: &mut Fields<'_>) -> Result<bool, Fail> {
    let first = fields.text();
    match call {
        "call" => is_message(alloc, bytes, first, fields.text()),
        "value" => is_state(alloc, bytes, first),
        "decimal" => is_decimal(alloc, bytes, first),
        "integer" => is_integer(bytes, first),
        "migrated" => is_migrated(alloc, bytes, first),
        _ => is_written(alloc, bytes),
    }
}

/// The same of bytes that words spell.
fn are_spelled(
    alloc: Global,
    call: &str,
    words: &str,
    fields: &mut Fields<'_>,
) -> Result<bool, Fail> {
    are_of(alloc, call, &spelled(alloc, words)?, fields)
}

fn put_spelled(alloc: Global, call: &str, words: &str, out: &mut String) -> Result<(), Fail> {
    put_read(alloc, call, &spelled(alloc, words)?, out)
}

impl Subject for Codec {
    fn answer(
        &mut self,
        alloc: Global,
        call: &str,
        fields: &mut Fields<'_>,
        out: &mut String,
    ) -> Result<(), Fail> {
        let first = fields.text();
        match call {
            "length" => tell(out, text_length(alloc, first)),
            "json" => tell(out, faults_of_json(alloc, first)),
            "call" | "value" | "decimal" | "integer" | "migrated" | "written" => tell(
                out,
                are_spelled(alloc, call, first, fields),
            ),
            _ => put_spelled(alloc, call, first, out),
        }
    }
}

#[test]
fn messages_are_read(rt: HostRuntime) -> Result<(), Fail> {
    hold(rt.alloc(), &mut Codec, MESSAGES)
}

#[test]
fn states_are_read(rt: HostRuntime) -> Result<(), Fail> {
    hold(rt.alloc(), &mut Codec, STATES)
}

#[test]
fn messages_and_states_are_written(rt: HostRuntime) -> Result<(), Fail> {
    for row in &EACH_FORM {
        hold(rt.alloc(), &mut Codec, *row)?;
    }
    hold(rt.alloc(), &mut Codec, WRITTEN)
}

#[test]
fn json_is_converted(rt: HostRuntime) -> Result<(), Fail> {
    hold(rt.alloc(), &mut Codec, JSON)
}

#[test]
fn old_forms_are_migrated(rt: HostRuntime) -> Result<(), Fail> {
    hold(rt.alloc(), &mut Codec, OLD_FORMS)
}

/// A map of one field.
#[tactic(auto, using(turn_arena::proofs::FieldPlaces::none_ascend))]
fn map_of<'a>(bump: &'a Bump, name: &'a str, node: Node<'a>) -> Result<Node<'a>, AllocError> {
    map_in(bump, put_in(bump, &[], name, node)?)
}

/// A list of the map of one field, of a text and of two bytes.
fn list_of<'a>(bump: &'a Bump) -> Result<Node<'a>, AllocError> {
    let items = [
        map_of(bump, "a", Node::Int(2))?,
        text_in(bump, "x")?,
        bytes_in(bump, b"\0\xff")?,
    ];
    list_in(bump, &items)
}

/// Whether a node is the map of that list.
fn is_map(node: Node<'_>) -> bool {
    match node {
        Node::Map([field]) => field.name == "a" && matches!(field.node, Node::Int(2)),
        _ => false,
    }
}

/// Whether a node is the text or the bytes of that list.
fn is_leaf(node: Node<'_>) -> bool {
    match node {
        Node::Text(text) => text == "x",
        Node::Bytes(bytes) => bytes == b"\0\xff".as_slice(),
        _ => false,
    }
}

/// Whether a node is that list.
fn is_list(node: Node<'_>) -> bool {
    match node {
        Node::List([map, text, bytes]) => is_map(*map) && is_leaf(*text) && is_leaf(*bytes),
        _ => false,
    }
}

#[test]
fn nodes_are_made(rt: HostRuntime) -> Result<(), Fail> {
    let bump = Bump::new(rt.alloc());
    same(is_list(list_of(&bump)?), true)
}
