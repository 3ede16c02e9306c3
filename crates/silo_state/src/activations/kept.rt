//! Whether all activations are idle, and what is kept of them then.

ghost use Rattle.std.specs.Prelude.{◌≡◌, ◌↔◌, true, IfOk, IsTrue, OnOk};
ghost use Rattle.std.specs.BTreeMap.{IsOrdered};
ghost use Rattle.std.specs.FinMap as map;
ghost use Rattle.finite_maps.specs.Mapped.{map_values, with_values};
ghost use Rattle.grain_id.specs.Names.{grain_cmp};
ghost use Rattle.silo_model.specs.Collected.{AllIdle};
ghost use Rattle.silo_model.specs.Idle.{is_idle};
ghost use Rattle.silo_model.specs.Segments.{kept_grain};
ghost use Rattle.silo_state.specs.KeptParts.{grains_in, kept_grain_in};
ghost use Rattle.silo_state.specs.Shown.{entry_of};

use crate::activations::Activations;
use crate::change;
use crate::parts::{GrainParts, parts_of};
use activation_directory::Activation;
use grain_id::GrainId;
use grain_logic::GrainLogic;
use std::alloc::{AllocError, Global};
use std::collections::BTreeMap;

impl<L: GrainLogic> Activations<L> {
    /// Whether each activation is idle. It walks over all activations.
    pub fn are_idle(&self) -> bool
        ensures { IsTrue result ↔ AllIdle self.now.entries }
    {
        'places: for place in 0..self.directory.len() {
            let Some((_, activation)) = self.directory.at(place) else {
                unreachable!()
            };
            if !change::is_idle(activation) {
                return false;
            }
        }
        true
    }

    /// What is kept of each, by its grain, where all are idle. It walks over all activations.
    ///
    /// # Errors
    ///
    /// Out of memory.
    fn kept_by_grain(&self, alloc: Global) -> Result<BTreeMap<GrainId, GrainParts>, AllocError>
        requires { AllIdle self.now.entries }
        ensures kept { IfOk result (λ grains. grains_in grains.entries ≡ map_values kept_grain self.now.entries) }
        ensures ordered { IfOk result (λ grains. IsOrdered grain_cmp grains) }
    {
        let mut grains = BTreeMap::new(alloc);
        'places: for place in 0..self.directory.len() {
            let Some((grain, activation)) = self.directory.at(place) else {
                unreachable!()
            };
            put_grain(&mut grains, grain, activation)?;
        }
        // For the proof: grains ascend.
        let _ = grains.len();
        Ok(grains)
    }

    /// What is kept of each, where all are idle, grains ascending. It walks over all activations.
    ///
    /// # Errors
    ///
    /// Out of memory.
    pub fn kept(&self, alloc: Global) -> Result<Vec<(GrainId, GrainParts)>, AllocError>
        requires { AllIdle self.now.entries }
        ensures kept { IfOk result (λ grains. grains_in grains.items ≡ map_values kept_grain self.now.entries) }
        ensures ascending { IfOk result (λ grains.
            with_values kept_grain_in grains.items ≡ map.entries (map_values kept_grain self.now.entries)) }
    {
        let grains = self.kept_by_grain(alloc)?;
        listed(alloc, grains)
    }
}

/// The entries of the map, in its order.
fn listed(
    alloc: Global,
    grains: BTreeMap<GrainId, GrainParts>,
) -> Result<Vec<(GrainId, GrainParts)>, AllocError>
    ensures { IfOk result (λ list. list.items ≡ grains.entries) }
{
    let mut list = Vec::with_capacity(alloc, grains.len())?;
    for entry in grains {
        list.push(entry)?;
    }
    Ok(list)
}

/// Puts what is kept of an idle activation among the others.
fn put_grain(
    grains: &mut BTreeMap<GrainId, GrainParts>,
    grain: &GrainId,
    activation: &Activation,
) -> Result<(), AllocError>
    requires { is_idle (entry_of activation.now) ≡ true }
    ensures { OnOk result (grains_in grains.new.entries
        ≡ map.insert (grains_in grains.old.entries) grain.now (kept_grain (entry_of activation.now))) }
{
    let parts = parts_of(activation)?;
    let key = grain.clone()?;
    grains.insert(key, parts)?;
    Ok(())
}
