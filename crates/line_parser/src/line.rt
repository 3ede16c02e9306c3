//! What a line says.

use silo_event::Step;

/// Why a line says no step.
#[derive(Clone, Copy, Debug, PartialEq, Eq)]
pub enum LineRefusal {
    /// The line is no request.
    NotARequest,
    /// The line has more than 65,536 bytes.
    TooLong,
}

/// What a line says.
#[derive(Debug, Drop)]
pub enum Line {
    /// The line has no bytes.
    Nothing,
    /// The line says no step.
    Refusal(LineRefusal),
    /// The line says a step.
    Step(Step),
}
