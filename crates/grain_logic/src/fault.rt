//! Why a method has no value for its answer.

use thiserror::Error;

/// Why a method has no value for its answer: the codes 60 to 63, in this order.
#[derive(Clone, Copy, Debug, PartialEq, Eq, Error)]
pub enum MethodFault {
    /// The kind has no such method.
    #[error("method is unknown")]
    UnknownMethod,
    /// The arguments don't have the shape that the method takes.
    #[error("arguments do not fit")]
    Misfit,
    /// The result leaves its range.
    #[error("result is out of range")]
    OutOfRange,
    /// The state would be too large.
    #[error("state is too large")]
    TooLarge,
}
