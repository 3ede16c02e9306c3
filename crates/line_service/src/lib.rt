//! The lanes that the lines of an input make up, and what is written and printed once these were served.
//!
//! A layer above may rely on this: `asked_by` sorts the steps of lines into the lanes that give them, in the order of
//! the lanes' first lines, and returns the refusals of the other lines that have bytes, in order; `write_outcome`
//! writes exactly the text of refusals, of each lane's replies and of the replies to grains; `push_reasons` and
//! `push_counts` add which lines made no step, and how many lines, answers, refusals by code and steps there are. What
//! lines request is defined in `specs/Asked.antt`, the text in `specs/ServedText.antt`, `specs/Reasons.antt` and
//! `specs/Counts.antt`; how code keeps the place of each lane is in `specs/inside/Places.antt`.
#![tactic(auto)]

mod asked;
mod counting;
mod giver;
mod lane_places;
mod reasons;
mod told;
mod writing;

pub use asked::{LanesAndRefusals, asked_by};
pub use counting::push_counts;
pub use reasons::push_reasons;
pub use writing::write_outcome;
