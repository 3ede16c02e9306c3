//! Lines that are served by threads: the command `silo serve` of the program.
//!
//! A layer above may rely on this: `serve_input` reads all lines before it serves any, and what it returns is what
//! serving their lanes leaves, over no rows at the start; `write_served` writes exactly the text of that. `serve_lines`
//! does both, and keeps the journal; it returns the requested diagnostics about the lines, whose text `telling` makes.
//! What was served is defined in `specs/Lanes.antt`, the diagnostics in `specs/Telling.antt`, and what results from it
//! all in `specs/Serving.antt`. `laws` says of the journal what `specs/Laws.antt` states.
#![tactic(auto)]

mod fault;
mod lanes;
pub mod laws;
mod serving;
mod telling;
mod writing;

pub use fault::ServiceFault;
pub use lanes::{ServedInput, serve_input, serve_read};
pub use serving::serve_lines;
pub use telling::asks_to_tell;
pub use writing::write_served;
