//! Who may call whom.

ghost use Rattle.std.specs.Prelude.{◌≡◌};
ghost use Rattle.tenant_gate.specs.Gate.{judged};

use grain_id::GrainId;
use thiserror::Error;

/// Why a caller doesn't pass the gate. It names nobody, so it takes no memory.
#[derive(Clone, Copy, Debug, PartialEq, Eq, Error)]
pub enum GateRefusal {
    /// The caller's tenant is unknown.
    #[error("the caller's tenant is unknown")]
    UnknownTenant,
    /// The grain is another tenant's.
    #[error("the grain is another tenant's")]
    AcrossTenants,
}

/// The gate: a caller passes where its tenant is known and the grain is its own. Given is what is kept for the
/// caller's tenant, nothing where the tenant is unknown; one that passes gets it back. Whether the grain's
/// tenant is known isn't asked.
pub fn judge<A: Copy>(kept: Option<A>, caller: &str, target: &GrainId) -> Result<A, GateRefusal>
    ensures { result ≡ judged kept caller.now target.now }
{
    let Some(kept) = kept else {
        return Err(GateRefusal::UnknownTenant);
    };
    if target.tenant() == caller {
        Ok(kept)
    } else {
        Err(GateRefusal::AcrossTenants)
    }
}
