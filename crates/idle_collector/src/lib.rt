//! A moment for each grain that is noted, and the grains whose moment has come.
//!
//! A layer above may rely on this: a collector is a finite map from grains to moments, its calls change
//! that map as they say, and `due` gives exactly the grains whose moment has come, ascending. How long
//! a grain stays is for the layer above to say: it notes the moment. A grain that is expected has room
//! for its note, which then takes no memory. The definitions are in `specs/Notes.antt`. The note that
//! came last is held aside, as `specs/inside/Aside.antt` says; the others are filed, in a set for each moment, as
//! `specs/inside/Sets.antt` says. `proofs/Due.antt` has `due-there`, which says of one grain whether it's
//! among the due ones.
#![tactic(auto)]

mod ages;
mod by_moment;
mod collector;
mod latest;

pub use ages::{AgeFault, AgeTable, MAX_AGES};
pub use collector::Collector;
