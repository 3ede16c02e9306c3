//! Whether the storage failed in what was done.

ghost use Rattle.std.specs.Prelude.{◌≡◌, not};
ghost use Rattle.std.specs.List.{list_all};
ghost use Rattle.silo_event.specs.Failed.{has_failed};

use silo_event::Step;

/// Whether the storage failed in none of them.
pub(crate) fn all_stored(steps: &[Step]) -> bool
    ensures { result ≡ list_all (λ s. not (has_failed s)) steps.now }
{
    steps.iter().all(|step| !step.has_failed())
}
