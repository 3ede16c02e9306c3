//! How an activation comes to be ready, and how its turns are closed.

ghost use Rattle.std.specs.Prelude.{◌≡◌, ◌⊎◌, false, Some, OnOk, OnErr};
ghost use Rattle.std.specs.Option.{option_map};
ghost use Rattle.std.specs.FinMap as map;
ghost use Rattle.activation_directory.specs.declared.activation.Phase.TheVariants.{Waiting};
ghost use Rattle.grain_logic.specs.Laws.{IsKeep};
ghost use Rattle.grain_logic.specs.Planned.{keep_of};
ghost use Rattle.silo_model.specs.Machine.{Entry, ready};
ghost use Rattle.silo_state.specs.Shown.{phase_of, entry_of};
ghost use Rattle.silo_state.specs.inside.Activations.{HasRoom, IsLoading};
ghost use Rattle.silo_state.specs.Entries.{Closes};
ghost use Rattle.silo_state.specs.inside.Notes.{none_waits};

use crate::activations::Activations;
use crate::change;
use activation_directory::{Activation, Directory, Phase};
use grain_id::GrainId;
use grain_logic::{GrainLogic, Keep};
use request_codec::StateBytes;
use silo_event::{Moment, Party};
use std::alloc::AllocError;
use std::mem::replace;

impl<L: GrainLogic> Activations<L> {
    /// Makes room for another note of a grain, if no request waits there: it may be idle as soon as it is ready.
    ///
    /// # Errors
    ///
    /// Out of memory: nothing changed.
    pub fn expect(&mut self, grain: &GrainId, idle_after: bool) -> Result<(), AllocError>
        requires { (e : Entry) → map.get self.old.entries grain.now ≡ Some e → idle_after ≡ none_waits e }
        ensures room { OnOk result (HasRoom self.new grain.now) }
        ensures entries { self.new.entries ≡ self.old.entries }
        ensures times { self.new.times ≡ self.old.times }
    {
        if !idle_after {
            return Ok(());
        }
        self.collector.expect(grain)?;
        Ok(())
    }

    /// The grain's activation, which loads, is ready with this state, which stands on this version. It
    /// neither rests nor stays. Takes no memory.
    pub fn make_ready(&mut self, grain: &GrainId, state: StateBytes, version: Option<u64>)
        requires loading { IsLoading (map.get self.old.entries grain.now) }
        requires room { HasRoom self.old grain.now }
        ensures put { (e : Entry) → map.get self.old.entries grain.now ≡ Some e
            → self.new.entries ≡ map.insert self.old.entries grain.now
            (record e { phase = ready state version; until = 0; resting = false }) }
        ensures times { self.new.times ≡ self.old.times }
    {
        let latest = change::due_if_used(grain, self.clock, &self.ages, self.age);
        let Some(activation) = self.directory.get_mut(grain) else {
            unreachable!()
        };
        change::make_ready(activation, state, version);
        // Requests wait where an activation loads. If none did, it would be idle at once, and may be due earlier.
        let Some(due) = change::due_at(grain, activation, &self.ages, self.age) else {
            return;
        };
        let moment = due.min(latest);
        let earlier = replace(&mut activation.noted, moment);
        self.collector.forget_at(grain, earlier);
        self.collector.note_expected(moment);
    }

    /// Closes the grain's turn of that number, and returns who sent its request. Its activation is then in this phase,
    /// if one is given, was last used at this moment, and rests or stays as the turn said. If it rests and is idle
    /// then, it is dropped. Takes no memory.
    pub fn close(
        &mut self,
        grain: &GrainId,
        turn: u64,
        phase: Option<Phase>,
        keep: Keep,
        last: Moment,
    ) -> Option<Party>
        requires used { (last ≡ self.old.times.clock) ⊎ (phase ≡ Some Waiting) }
        requires in_range { IsKeep (keep_of keep) }
        ensures closes { Closes self.old.entries grain.now turn (option_map phase_of phase) (keep_of keep) last result self.new.entries }
        ensures times { self.new.times ≡ self.old.times }
    {
        let Some(activation) = self.directory.get_mut(grain) else {
            return None;
        };
        let Some(sender) = change::close(activation, turn, phase, keep, last) else {
            return None;
        };
        if change::goes(activation) {
            self.collector.forget_at(grain, activation.noted);
            let_go(&mut self.directory, grain);
            return Some(sender);
        }
        Some(sender)
    }

    /// Takes the grain's activation out. Takes no memory.
    pub fn remove(&mut self, grain: &GrainId) -> Option<Activation>
        ensures found { option_map entry_of result ≡ map.get self.old.entries grain.now }
        ensures removed { self.new.entries ≡ map.remove self.old.entries grain.now }
        ensures times { self.new.times ≡ self.old.times }
    {
        let Some(activation) = self.directory.remove(grain) else {
            return None;
        };
        self.collector.forget_at(grain, activation.noted);
        Some(activation)
    }
}

/// The grain's activation goes. Takes no memory.
#[inline(never)]
fn let_go(directory: &mut Directory, grain: &GrainId)
    ensures { directory.new.activations ≡ map.remove directory.old.activations grain.now }
{
    drop(directory.remove(grain));
}
