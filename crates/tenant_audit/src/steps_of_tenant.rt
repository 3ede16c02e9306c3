//! The steps that concern one tenant, taken one after another.

ghost use Rattle.std.specs.Prelude.{◌≡◌, ◌∷◌, [], MatchOption, length, map};
ghost use Rattle.tenant_audit.specs.inside.Parted.{merged, placed};

use silo_event::Step;
use std::marker::Model;

/// A step of a journal, and its place among the steps, counted from 0.
#[derive(Clone, Copy)]
pub struct PlacedStep<'j> {
    pub place: usize,
    pub step: &'j Step,
}

/// The steps that concern a tenant and are still to come, in order: its own and nobody's.
#[derive(Drop)]
pub struct StepsOfTenant<'p, 'j> {
    own: &'p [PlacedStep<'j>],
    nobodys: &'p [PlacedStep<'j>],
}

impl<'p, 'j> Model for StepsOfTenant<'p, 'j> {
    ghost use Rattle.std.specs.Prelude.{List};
    ghost use Rattle.std.specs.Coded.{codes};
    ghost use Rattle.request_codec.specs.Code.{coded_tree};
    ghost use Rattle.silo_event.specs.declared.step.Step.{Step};
    ghost use Rattle.tenant_audit.specs.inside.Parted.{merged};

    ghost Value = { List Step };

    ghost coded = { Prim.hlevel (codes, coded_tree) };

    ghost view = { λ s. merged s.own.now s.nobodys.now };
}

impl<'p, 'j> StepsOfTenant<'p, 'j> {
    /// Both in one, by their places.
    pub fn new(own: &'p [PlacedStep<'j>], nobodys: &'p [PlacedStep<'j>]) -> StepsOfTenant<'p, 'j>
        ensures { result ≡ merged own.now nobodys.now }
    {
        StepsOfTenant { own, nobodys }
    }

    /// How many are still to come.
    pub fn len(&self) -> usize
        ensures { result ≡ length self.now }
    {
        self.own.len() + self.nobodys.len()
    }

    /// The first one, and those after it.
    pub fn split_first(&self) -> Option<(&'j Step, StepsOfTenant<'p, 'j>)>
        ensures { MatchOption result (self.now ≡ []) (λ parts. self.now ≡ parts.0.now ∷ parts.1) }
    {
        let (own, nobodys) = (self.own, self.nobodys);
        let Some((first, later)) = own.split_first() else {
            let Some((other, others)) = nobodys.split_first() else {
                return None;
            };
            return Some((other.step, StepsOfTenant::new(own, others)));
        };
        if let Some((other, others)) = nobodys.split_first() {
            if other.place < first.place {
                return Some((other.step, StepsOfTenant::new(own, others)));
            }
        }
        Some((first.step, StepsOfTenant::new(later, nobodys)))
    }
}
