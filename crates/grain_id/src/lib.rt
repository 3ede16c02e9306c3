//! Names of kinds, tenants, clients and grains.
//!
//! A layer above may rely on this: a value is made by reading a text by the grammar, contracts see
//! it as the bytes of its parts, and equality, order and hash are those of the parts. A value holds
//! one text, which all clones share, so a clone and a comparison take no memory. The grammar and the
//! order are in `specs/Words.antt`, `specs/Names.antt` and `specs/Reading.antt`; `laws` has the round trip,
//! and `proofs/Order.antt` and `proofs/ByGrain.antt` have the lemmas for the layers above.
#![tactic(auto)]

mod caller;
mod fault;
mod grain;
mod hash_seed;
mod kind;
pub mod laws;
mod name_cache;
mod name_text;
mod tenant;
mod words;

pub use caller::Caller;
pub use fault::IdFault;
pub use grain::GrainId;
pub use hash_seed::HashSeed;
pub use kind::Kind;
pub use name_cache::NameCache;
pub use tenant::Tenant;
