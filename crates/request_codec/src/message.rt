//! Messages.

ghost use Rattle.std.specs.Prelude.{◌≡◌, ℕ, List, Some, Err, IfOk, IsSome};
ghost use Rattle.request_codec.specs.Tree.{Tree};
ghost use Rattle.request_codec.specs.Call.{message_call, call_of};
ghost use Rattle.request_codec.specs.Spelling.{SpellsMessage};
ghost use Rattle.std.specs.Prelude.{◌↔◌, IsTrue, bytes_eq};
ghost use Rattle.std.specs.Cmp.{on_equiv, on_per, partial_equiv_from_equiv};
ghost use Rattle.std.specs.Cmp.Lexicographic.{nat_list_eq_equiv};
ghost use Rattle.request_codec.specs.Written.{message_spelling};
ghost use Rattle.request_codec.specs.Answers.{Reads};
ghost use Rattle.request_codec.specs.declared.fault.CodecFault.TheVariants as faults;

use crate::bytes::text_of;
use crate::fault::CodecFault;
use crate::shared_bytes::{SharedBytes, keep, keep_copy, show};
use crate::value_end::is_message;
use std::alloc::{AllocError, Global};
use std::marker::Model;
use std::sync::Arc;

/// Bytes that spell a method and one value: at most 65,536 of them, the value no deeper than 32.
#[derive(Debug, Drop)]
pub struct Message {
    kept: Arc<SharedBytes>,
}

impl Model for Message {
    ghost use Rattle.std.specs.Arc.{arc_value};
    ghost use Rattle.request_codec.specs.inside.SharedBytes.{bytes_of_shared};
    ghost use Rattle.std.specs.Prelude.{IsSome};
    ghost use Rattle.request_codec.specs.Call.{Call, coded_call};

    ghost Value = { Call };

    ghost coded = { coded_call };

    ghost use Rattle.request_codec.specs.Call.{message_call, call_of};

    ghost view = { λ m. call_of (bytes_of_shared (arc_value m.kept)) };

    ghost invariant = { λ m. IsSome (message_call (bytes_of_shared (arc_value m.kept))) };
}

/// The same bytes, which spell the call that is shown of them.
fn spelled(bytes: &[u8]) -> &[u8]
    requires { IsSome (message_call bytes.now) }
    ensures same { result.now ≡ bytes.now }
    ensures reads { message_call result.now ≡ Some (call_of bytes.now) }
    ensures spelled { SpellsMessage (call_of bytes.now).method (call_of bytes.now).argument bytes.now }
    ensures exact { result.now ≡ message_spelling (call_of bytes.now) }
{
    bytes
}

/// The method in a message's bytes.
fn method_in(bytes: &[u8]) -> &str
    requires { IsSome (message_call bytes.now) }
    ensures { result.now ≡ (call_of bytes.now).method }
{
    match bytes {
        [_, behind @ ..] => match text_of(behind) {
            Some((method, _)) => method,
            None => unreachable!(),
        },
        [] => unreachable!(),
    }
}

impl Message {
    /// The message of bytes that are known to spell one.
    pub fn from_spelling(bytes: Vec<u8>) -> Result<Message, AllocError>
        requires { IsSome (message_call bytes.items) }
        ensures { IfOk result (λ made. message_call bytes.items ≡ Some made) }
    {
        Ok(Message { kept: keep(bytes)? })
    }

    /// The message of a copy of bytes that are known to spell one.
    pub fn copy_spelling(alloc: Global, bytes: &[u8]) -> Result<Message, AllocError>
        requires { IsSome (message_call bytes.now) }
        ensures { IfOk result (λ made. message_call bytes.now ≡ Some made) }
    {
        Ok(Message {
            kept: keep_copy(alloc, bytes)?,
        })
    }

    /// The message whose bytes these are. It keeps the very bytes.
    pub fn read(alloc: Global, bytes: &[u8]) -> Result<Message, CodecFault>
        ensures reads { Reads (λ read. read) result (message_call bytes.now) }
        ensures spelled { IfOk result (λ read. SpellsMessage read.method read.argument bytes.now) }
        ensures exact { IfOk result (λ read. message_spelling read ≡ bytes.now) }
        ensures none { result ≡ Err faults.NotAMessage
            → (method : List ℕ) → (v : Tree) → SpellsMessage method v bytes.now → ⊥ }
    {
        if !is_message(bytes) {
            return Err(CodecFault::NotAMessage);
        }
        Ok(Message {
            kept: keep_copy(alloc, bytes)?,
        })
    }

    /// The bytes, which spell the method and the argument.
    pub fn bytes(&self) -> &[u8]
        ensures reads { message_call result.now ≡ Some self.now }
        ensures spelled { SpellsMessage self.now.method self.now.argument result.now }
        ensures exact { result.now ≡ message_spelling self.now }
    {
        spelled(show(&self.kept))
    }

    /// The method. The value after it is not read.
    pub fn method(&self) -> &str
        ensures { result.now ≡ self.now.method }
    {
        method_in(show(&self.kept))
    }
}

impl Clone for Message {
    ghost is_clone = { λ message copy. copy ≡ message };

    fn clone(&self) -> Result<Message, AllocError> {
        Ok(Message {
            kept: self.kept.clone()?,
        })
    }
}

/// Two messages are equal exactly where they spell the same call.
impl PartialEq for Message {
    ghost eq = { λ a b. bytes_eq (message_spelling a) (message_spelling b) };

    ghost laws = { on_per message_spelling (partial_equiv_from_equiv nat_list_eq_equiv) };

    fn eq(&self, other: &Message) -> bool
        ensures by_bytes { result ≡ bytes_eq (message_spelling self.now) (message_spelling other.now) }
        ensures by_value { IsTrue result ↔ (self.now ≡ other.now) }
    {
        self.bytes() == other.bytes()
    }
}

impl Eq for Message {
    ghost laws = { on_equiv message_spelling nat_list_eq_equiv };
}
