//! Why a list is no table, and why a call doesn't pass.

ghost use Rattle.std.specs.Prelude.{◌≡◌};
ghost use Rattle.tenant_gate.specs.declared.fault.TableFault.TheVariants as faults;
ghost use Rattle.tenant_gate.specs.declared.fault.GateFault.TheVariants as refusals;

use grain_id::Tenant;
use std::alloc::AllocError;
use thiserror::Error;

/// Why a list of tenants is no table.
#[derive(Debug, Drop, Error)]
pub enum TableFault {
    /// There is no tenant.
    #[error("there is no tenant")]
    Empty,
    /// There are more than 1,000 tenants.
    #[error("there are more than 1,000 tenants")]
    TooMany,
    /// The first tenant that repeats an earlier one.
    #[error("tenant {0} stands there twice")]
    Twice(Tenant),
    /// The first tenant whose limits are out of range.
    #[error("the limits of tenant {0} are out of range")]
    Range(Tenant),
    /// Memory was refused.
    #[error("out of memory")]
    Memory,
}

impl From<AllocError> for TableFault {
    ghost from_gives = { λ _ fault. fault ≡ faults.Memory };

    fn from(_refused: AllocError) -> TableFault {
        TableFault::Memory
    }
}

/// Why a tenant may not call a grain.
#[derive(Debug, Drop, Error)]
pub enum GateFault {
    /// The silo doesn't know the caller's tenant.
    #[error("tenant {0} is unknown")]
    Unknown(Tenant),
    /// The caller's tenant, and the tenant of the grain, which is another one.
    #[error("tenant {0} may not call a grain of tenant {1}")]
    Across(Tenant, Tenant),
    /// Memory for the names in the fault was refused.
    #[error("out of memory")]
    Memory,
}

impl From<AllocError> for GateFault {
    ghost from_gives = { λ _ fault. fault ≡ refusals.Memory };

    fn from(_refused: AllocError) -> GateFault {
        GateFault::Memory
    }
}
