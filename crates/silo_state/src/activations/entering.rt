//! How a grain gets an activation.

ghost use Rattle.std.specs.Prelude.{◌≡◌, None, OnErr, OnOk};
ghost use Rattle.std.specs.FinMap as map;

use activation_directory::{Activation, Directory};
use grain_id::GrainId;
use std::alloc::{AllocError, Global};

/// The grain gets the activation, which is noted with this moment.
///
/// # Errors
///
/// Out of memory: nothing changed.
#[inline(never)]
pub(crate) fn enter(
    alloc: Global,
    directory: &mut Directory,
    grain: &GrainId,
    mut activation: Activation,
    noted: u64,
) -> Result<(), AllocError>
    requires { map.get directory.old.activations grain.now ≡ None }
    ensures entered { OnOk result (directory.new.activations
        ≡ map.insert directory.old.activations grain.now (record activation { noted = noted })) }
    ensures unchanged { OnErr result (directory.new.activations ≡ directory.old.activations) }
{
    let named = grain.clone()?;
    activation.noted = noted;
    match directory.insert(alloc, named, activation) {
        Ok(()) => Ok(()),
        Err(refused) => {
            drop(refused);
            Err(AllocError)
        }
    }
}
