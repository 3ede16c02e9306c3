//! The first difference between what a journal recorded of a tenant and what its machine does.

ghost use Rattle.std.specs.Prelude.{◌≡◌, IfOk, true};
ghost use Rattle.std.specs.List.{AllByRecursion};
ghost use Rattle.silo_model.specs.Run.{concerns};
ghost use Rattle.tenant_audit.specs.inside.Comparison.{Stops};

use crate::steps_of_tenant::StepsOfTenant;
use grain_id::GrainId;
use grain_logic::GrainLogic;
use std::alloc::{AllocError, Global};
use tenant_machine::TenantMachine;

/// Where what was recorded of a tenant first differs from what the tenant's machine does. Steps and
/// replies are counted from 1, among those of the tenant: its own steps and nobody's, and the replies to
/// its callers and grains.
#[derive(Debug, Drop)]
pub enum Difference {
    /// The step isn't done.
    Step(usize),
    /// The reply is another, or only one of the two has it.
    Reply(usize),
    /// The grain's row is another, or only one of the two has it, and this is the least such grain.
    Row(GrainId),
}

/// Takes the steps, each of which concerns the machine's tenant, up to the first that isn't done: the
/// place of that one among them, counted from 1.
pub fn first_not_done<L: GrainLogic>(
    alloc: Global,
    machine: &mut TenantMachine<L>,
    steps: StepsOfTenant<'_, '_>,
) -> Result<Option<usize>, AllocError>
    requires { AllByRecursion (λ step. concerns machine.old.tenant step ≡ true) steps }
    ensures { IfOk result (λ place. Stops L.logic machine.old steps.entry place machine.new) }
{
    let all = steps.len();
    let mut rest = steps;
    'steps: while let Some((step, later)) = rest.split_first() {
        if !machine.step(alloc, step)? {
            return Ok(Some(all - later.len()));
        }
        rest = later;
    }
    Ok(None)
}
