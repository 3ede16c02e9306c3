//! Stored rows of grains, under versions.
//!
//! A layer above may rely on this: a storage is a finite map from grains to rows, each a version and
//! a content or none, and a count of the calls that failed; its calls answer and leave what the
//! definitions say. What a write, a clearing and a poke are is in `specs/Rows.antt`, what the calls
//! of a storage answer in `specs/Answers.antt`, and which call of a `FusedStorage` fails in
//! `specs/inside/Fuse.antt`. `GrainStorage` is the contract that each storage is proved against.
#![tactic(auto)]

mod fault;
mod fused;
mod memory;
mod row;
mod storage;

pub use fault::StoreFault;
pub use fused::FusedStorage;
pub use memory::MemoryStorage;
pub use row::Row;
pub use storage::GrainStorage;
