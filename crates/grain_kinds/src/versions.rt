//! The versions of the logic: each is a type, with its number.

ghost use Rattle.std.specs.Prelude.{◌≡◌, refl};
ghost use Rattle.grain_kinds.specs.VersionNumbers.{nearest_is_version};
ghost use Rattle.grain_kinds.specs.Versions as versions;

use crate::kinds::{NEWEST, empty_at, knows_at, plan_at, reads_at, shortcut_at};
use bumpalo::Bump;
use grain_logic::{GrainLogic, Plan, Shortcut};
use request_codec::StateBytes;
use std::alloc::{AllocError, Global};
use std::marker::{Brand, PhantomData};
use turn_arena::Node;

/// The newest version: that of the logic that the program runs.
pub fn newest() -> u8
    ensures { result ≡ versions.newest }
{
    NEWEST
}

/// The version that is nearest to a number.
#[inline(always)]
fn nearest(number: u8) -> u8
    ensures { result ≡ versions.nearest number }
{
    if number <= 1 {
        return 1;
    }
    if NEWEST <= number {
        return NEWEST;
    }
    number
}

/// A version of the logic: it knows what stands since it or an earlier one, and answers that as the earlier one does.
pub trait Version: GrainLogic {
    ghost use Rattle.std.specs.Prelude.{◌≡◌, ℕ};
    ghost use Rattle.grain_kinds.specs.Kinds.{logic_of};
    ghost use Rattle.grain_kinds.specs.Versions.{IsVersion};

    ghost number: { ℕ };

    /// Its number, by which journals name it.
    fn number() -> u8
        ensures { result ≡ number };

    // The number is the logic's.
    ghost named: { logic_of number ≡ Self.logic };

    // A journal may name it.
    ghost may_be_named: { IsVersion number };
}

/// The version that is nearest to the number.
#[derive(Clone, Copy, Debug)]
pub struct KindsAt<const NUMBER: u8>;

/// The first version.
pub type Kinds = KindsAt<1>;

pub const Kinds: Kinds = KindsAt;

/// The second: each kind has `rest`, which takes null, and `stay`, which takes `{"for": int}`, a number of milliseconds from 1 to
/// 86,400,000; both keep the state and answer null.
pub type RestingKinds = KindsAt<2>;

pub const RestingKinds: RestingKinds = KindsAt;

/// The newest, which the program runs.
pub type NewestKinds = KindsAt<NEWEST>;

pub const NewestKinds: NewestKinds = KindsAt;

impl<const NUMBER: u8> Version for KindsAt<NUMBER> {
    ghost use Rattle.grain_kinds.specs.Versions.{nearest};

    ghost number = { nearest NUMBER };

    fn number() -> u8 {
        nearest(NUMBER)
    }

    ghost named = { refl };

    ghost may_be_named = { nearest_is_version NUMBER };
}

impl<const NUMBER: u8> GrainLogic for KindsAt<NUMBER> {
    ghost use Rattle.grain_kinds.specs.Kinds.{logic_of};
    ghost use Rattle.grain_kinds.specs.LawsOfKinds.{kinds_lawful};
    ghost use Rattle.grain_kinds.specs.Versions.{nearest};

    ghost logic = { logic_of (nearest NUMBER) };

    ghost lawful = { kinds_lawful (nearest NUMBER) };

    #[tactic(auto, unfolding(crate::specs::Kinds::logic_of, grain_logic::specs::Tables::at_version))]
    fn knows(&self, kind: &str) -> bool {
        knows_at(nearest(NUMBER), kind)
    }

    #[tactic(auto, unfolding(crate::specs::Kinds::logic_of, grain_logic::specs::Tables::at_version))]
    fn is_read(&self, kind: &str, method: &str) -> bool {
        reads_at(nearest(NUMBER), kind, method)
    }

    #[tactic(auto, unfolding(crate::specs::Kinds::logic_of, grain_logic::specs::Tables::at_version))]
    fn empty(&self, alloc: Global, kind: &str) -> Result<StateBytes, AllocError> {
        empty_at(nearest(NUMBER), alloc, kind)
    }

    #[tactic(auto, unfolding(crate::specs::Kinds::logic_of, grain_logic::specs::Tables::at_version))]
    #[inline(always)]
    fn plan<'a>(
        &self,
        alloc: Global,
        bump: &'a Bump,
        kind: &str,
        method: &'a str,
        state: Node<'a>,
        args: Node<'a>,
    ) -> Result<Plan<'a>, AllocError> {
        plan_at(nearest(NUMBER), alloc, bump, kind, method, state, args)
    }

    #[tactic(auto, unfolding(crate::specs::Kinds::logic_of, grain_logic::specs::Tables::at_version))]
    fn shortcut(&self, kind: &str, method: &str) -> Shortcut {
        shortcut_at(nearest(NUMBER), kind, method)
    }
}

/// The number of a version that is known only when it runs. A proof picks it where `Brand` is passed.
pub trait NamedVersion {
    ghost use Rattle.std.specs.Prelude.{ℕ};

    ghost version: { ℕ };
}

impl NamedVersion for Brand {
    ghost version = { 1 };
}

/// The version of a number that is known only when it runs, as that which a journal names.
#[derive(Drop)]
pub struct NamedKinds<N: NamedVersion> {
    number: u8,
    of: PhantomData<N>,
    ghost is_named: { number ≡ N.version },
}

impl<N: NamedVersion> NamedKinds<N> {
    /// The version of this number.
    pub fn new(number: u8) -> NamedKinds<N>
        requires { number ≡ N.version }
    {
        NamedKinds {
            number,
            of: PhantomData,
        }
    }
}

impl<N: NamedVersion> GrainLogic for NamedKinds<N> {
    ghost use Rattle.grain_kinds.specs.Kinds.{logic_of};
    ghost use Rattle.grain_kinds.specs.LawsOfKinds.{kinds_lawful};

    ghost logic = { logic_of N.version };

    ghost lawful = { kinds_lawful N.version };

    #[tactic(auto, unfolding(crate::specs::Kinds::logic_of, grain_logic::specs::Tables::at_version))]
    fn knows(&self, kind: &str) -> bool {
        knows_at(self.number, kind)
    }

    #[tactic(auto, unfolding(crate::specs::Kinds::logic_of, grain_logic::specs::Tables::at_version))]
    fn is_read(&self, kind: &str, method: &str) -> bool {
        reads_at(self.number, kind, method)
    }

    #[tactic(auto, unfolding(crate::specs::Kinds::logic_of, grain_logic::specs::Tables::at_version))]
    fn empty(&self, alloc: Global, kind: &str) -> Result<StateBytes, AllocError> {
        empty_at(self.number, alloc, kind)
    }

    #[tactic(auto, unfolding(crate::specs::Kinds::logic_of, grain_logic::specs::Tables::at_version))]
    fn plan<'a>(
        &self,
        alloc: Global,
        bump: &'a Bump,
        kind: &str,
        method: &'a str,
        state: Node<'a>,
        args: Node<'a>,
    ) -> Result<Plan<'a>, AllocError> {
        plan_at(self.number, alloc, bump, kind, method, state, args)
    }

    #[tactic(auto, unfolding(crate::specs::Kinds::logic_of, grain_logic::specs::Tables::at_version))]
    fn shortcut(&self, kind: &str, method: &str) -> Shortcut {
        shortcut_at(self.number, kind, method)
    }
}
