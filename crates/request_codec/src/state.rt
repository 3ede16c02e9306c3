//! States.

ghost use Rattle.std.specs.Prelude.{◌≡◌, Some, Err, IfOk, IsSome, decimal};
ghost use Rattle.request_codec.specs.Tree.{Tree, integer, text};
ghost use Rattle.request_codec.specs.Call.{state_value, value_of_state};
ghost use Rattle.request_codec.specs.Spelling.{SpellsState};
ghost use Rattle.std.specs.Prelude.{◌↔◌, IsTrue, bytes_eq};
ghost use Rattle.std.specs.Cmp.{on_equiv, on_per, partial_equiv_from_equiv};
ghost use Rattle.std.specs.Cmp.Lexicographic.{nat_list_eq_equiv};
ghost use Rattle.request_codec.specs.Written.{spelling};
ghost use Rattle.request_codec.specs.Answers.{Reads};
ghost use Rattle.request_codec.specs.declared.fault.CodecFault.TheVariants as faults;

use crate::fault::CodecFault;
use crate::small_bytes::{
    SmallBytes, copy_held, hold, hold_copy, hold_integer, hold_text, hold_text_in, show, text_block,
};
use crate::value_end::is_state;
use itoa::Buffer;
use std::alloc::{AllocError, Global};
use std::marker::Model;

/// Bytes that spell one value: at most 262,144 of them, the value no deeper than 32.
#[derive(Debug, Drop)]
pub struct StateBytes {
    held: SmallBytes,
}

impl Model for StateBytes {
    ghost use Rattle.request_codec.specs.inside.SmallBytes.{bytes_of_small};
    ghost use Rattle.std.specs.Prelude.{IsSome};
    ghost use Rattle.request_codec.specs.Tree.{Tree};
    ghost use Rattle.request_codec.specs.Code.{coded_tree};

    ghost Value = { Tree };

    ghost coded = { coded_tree };

    ghost use Rattle.request_codec.specs.Call.{state_value, value_of_state};

    ghost view = { λ s. value_of_state (bytes_of_small s.held) };

    ghost invariant = { λ s. IsSome (state_value (bytes_of_small s.held)) };
}

/// Room for the decimal text of any number, to be taken before the number is known.
#[derive(Debug, Drop)]
pub struct DecimalRoom {
    block: Box<[u8; 25]>,
}

impl DecimalRoom {
    /// Room for up to 20 digits.
    pub fn new(alloc: Global) -> Result<DecimalRoom, AllocError> {
        Ok(DecimalRoom {
            block: text_block(alloc)?,
        })
    }
}

/// The same bytes, which spell the value that is shown of them.
fn spelled(bytes: &[u8]) -> &[u8]
    requires { IsSome (state_value bytes.now) }
    ensures same { result.now ≡ bytes.now }
    ensures reads { state_value result.now ≡ Some (value_of_state bytes.now) }
    ensures spelled { SpellsState (value_of_state bytes.now) bytes.now }
    ensures exact { result.now ≡ spelling (value_of_state bytes.now) }
{
    bytes
}

impl StateBytes {
    /// The state of bytes that are known to spell one.
    pub fn from_spelling(bytes: Vec<u8>) -> Result<StateBytes, AllocError>
        requires { IsSome (state_value bytes.items) }
        ensures { IfOk result (λ made. state_value bytes.items ≡ Some made) }
    {
        Ok(StateBytes { held: hold(bytes)? })
    }

    /// The state whose bytes these are. It keeps the very bytes.
    pub fn read(alloc: Global, bytes: &[u8]) -> Result<StateBytes, CodecFault>
        ensures reads { Reads (λ read. read) result (state_value bytes.now) }
        ensures spelled { IfOk result (λ read. SpellsState read bytes.now) }
        ensures exact { IfOk result (λ read. spelling read ≡ bytes.now) }
        ensures none { result ≡ Err faults.NotAMessage → (v : Tree) → SpellsState v bytes.now → ⊥ }
    {
        if !is_state(bytes) {
            return Err(CodecFault::NotAMessage);
        }
        Ok(StateBytes {
            held: hold_copy(alloc, bytes)?,
        })
    }

    /// The state that is a whole number, which takes no memory.
    pub fn integer(number: i64) -> StateBytes
        ensures { result ≡ integer number }
    {
        StateBytes {
            held: hold_integer(number),
        }
    }

    /// The state that is the decimal text of a number. Up to 17 digits take no memory.
    pub fn decimal(alloc: Global, number: u64) -> Result<StateBytes, AllocError>
        ensures { IfOk result (λ state. state ≡ text (decimal number)) }
    {
        let mut buffer = Buffer::new();
        Ok(StateBytes {
            held: hold_text(alloc, buffer.format(number).as_bytes())?,
        })
    }

    /// The state that is the decimal text of a number, by room that is there. Takes no memory.
    pub fn decimal_in(room: DecimalRoom, number: u64) -> StateBytes
        ensures { result ≡ text (decimal number) }
    {
        let mut buffer = Buffer::new();
        StateBytes {
            held: hold_text_in(room.block, buffer.format(number).as_bytes()),
        }
    }

    /// The bytes, which spell the value.
    pub fn bytes(&self) -> &[u8]
        ensures reads { state_value result.now ≡ Some self.now }
        ensures spelled { SpellsState self.now result.now }
        ensures exact { result.now ≡ spelling self.now }
    {
        spelled(show(&self.held))
    }
}

impl Clone for StateBytes {
    ghost is_clone = { λ state copy. copy ≡ state };

    fn clone(&self) -> Result<StateBytes, AllocError> {
        Ok(StateBytes {
            held: copy_held(&self.held)?,
        })
    }
}

/// Two states are equal exactly where they spell the same value.
impl PartialEq for StateBytes {
    ghost eq = { λ a b. bytes_eq (spelling a) (spelling b) };

    ghost laws = { on_per spelling (partial_equiv_from_equiv nat_list_eq_equiv) };

    fn eq(&self, other: &StateBytes) -> bool
        ensures by_bytes { result ≡ bytes_eq (spelling self.now) (spelling other.now) }
        ensures by_value { IsTrue result ↔ (self.now ≡ other.now) }
    {
        self.bytes() == other.bytes()
    }
}

impl Eq for StateBytes {
    ghost laws = { on_equiv spelling nat_list_eq_equiv };
}
