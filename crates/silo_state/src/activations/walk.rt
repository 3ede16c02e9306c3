//! What there is to do at one grain, and at any: that is a walk over all activations.

ghost use Rattle.std.specs.Prelude.{◌≡◌, ◌↔◌, ◌&&◌, true, None, Some, IfNone, IfSome, IsTrue, option_map};
ghost use Rattle.std.specs.FinMap as map;
ghost use Rattle.grain_id.specs.Names.{Grain, same_text};
ghost use Rattle.silo_model.specs.Todo.{work_on};
ghost use Rattle.turn_mailbox.specs.Contents.{has_from};
ghost use Rattle.silo_state.specs.Work.{first_waiting, step_at, is_settled, pending_in_part};

use crate::activations::Activations;
use crate::change;
use crate::change::PossibleStep;
use activation_directory::Activation;
use grain_id::{Caller, GrainId};
use grain_logic::GrainLogic;

impl<L: GrainLogic> Activations<L> {
    /// What is to do with the grain's activation, if anything is: at most one of the three is
    /// possible.
    pub fn work_on(&self, grain: &GrainId) -> Option<PossibleStep>
        ensures { option_map (step_at grain.now) result ≡ work_on L.logic grain.now (map.get self.now.entries grain.now) }
    {
        let Some(activation) = self.get(grain) else {
            return None;
        };
        change::possible_work(activation)
    }

    /// The number of the first request that waits at the grain, if one does.
    pub fn first_waiting(&self, grain: &GrainId) -> Option<u64>
        ensures { result ≡ first_waiting (map.get self.now.entries grain.now) }
    {
        let Some(activation) = self.get(grain) else {
            return None;
        };
        change::first_waiting(activation)
    }

    /// Whether no request waits at the grain, and no turn of it is open.
    pub fn is_settled(&self, grain: &GrainId) -> bool
        ensures { result ≡ is_settled (map.get self.now.entries grain.now) }
    {
        let Some(activation) = self.get(grain) else {
            return true;
        };
        change::is_quiet(activation)
    }

    /// A grain with whose activation something is to do, and what, or none if there is none. It walks
    /// over all activations.
    pub fn first_work(&self) -> Option<(&GrainId, PossibleStep)>
        ensures found { IfSome result (λ found. work_on L.logic found.0.now (map.get self.now.entries found.0.now)
            ≡ Some (step_at found.0.now
            found.1)) }
        ensures none { IfNone result ((id : Grain) → work_on L.logic id (map.get self.now.entries id) ≡ None) }
    {
        'places: for place in 0..self.directory.len() {
            let Some((grain, _)) = self.directory.at(place) else {
                unreachable!()
            };
            if let Some(work) = self.work_on(grain) {
                return Some((grain, work));
            }
        }
        None
    }

    /// Whether a request of the client waits or is open at a grain of its tenant. It walks over all
    /// activations.
    pub fn has_from(&self, client: &Caller) -> bool
        ensures { result ≡ pending_in_part client.now self.now.entries }
    {
        'places: for place in 0..self.directory.len() {
            let Some((grain, activation)) = self.directory.at(place) else {
                unreachable!()
            };
            if is_from_at(grain, activation, client) {
                return true;
            }
        }
        false
    }

    /// Whether at no grain a request waits or a turn is open. It walks over all activations.
    pub fn are_settled(&self) -> bool
        ensures { IsTrue result ↔ ((id : Grain) → is_settled (map.get self.now.entries id) ≡ true) }
    {
        'places: for place in 0..self.directory.len() {
            let Some((grain, _)) = self.directory.at(place) else {
                unreachable!()
            };
            if !self.is_settled(grain) {
                return false;
            }
        }
        true
    }
}

/// Whether the grain is of the client's tenant, and a request of the client waits or is open there.
fn is_from_at(grain: &GrainId, activation: &Activation, client: &Caller) -> bool
    ensures { result ≡ (same_text grain.now.tenant client.now.tenant && has_from activation.now.mailbox client.now) }
{
    grain.tenant() == client.tenant() && activation.mailbox.has_from(client)
}
