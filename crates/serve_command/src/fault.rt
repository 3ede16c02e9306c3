//! Why an input wasn't served.

ghost use Rattle.std.specs.Prelude.{◌≡◌};

use line_text::LineFault;
use thiserror::Error;

/// Why an input wasn't served.
#[derive(Clone, Copy, Debug, PartialEq, Eq, Error)]
pub enum ServiceFault {
    /// Reading failed, memory was refused, or the input is too much.
    #[error("the input wasn't read, or memory was refused")]
    Failed(LineFault),
    /// No thread could be started.
    #[error("no thread could be started")]
    NoWorker,
    /// What the workers left isn't what serving the lanes leaves.
    #[error("the threads left what serving the lanes doesn't leave")]
    Strayed,
}

impl From<LineFault> for ServiceFault {
    ghost use Rattle.serve_command.specs.declared.fault.ServiceFault.TheVariants as service;

    ghost from_gives = { λ why e. e ≡ service.Failed why };

    fn from(why: LineFault) -> ServiceFault {
        ServiceFault::Failed(why)
    }
}
