//! What the program runs: the newest version of its kinds. It is named here alone.

ghost use Rattle.std.specs.Prelude.{◌≡◌};
ghost use Rattle.grain_kinds.specs.Versions.{newest};
ghost use Rattle.grain_kinds.specs.Kinds.{newest_kinds};
ghost use Rattle.command_parts.specs.Setups.{starting, version_of};
ghost use Rattle.silo_program.specs.Program.{program_start};

use command_parts::Start;
use grain_id::HashSeed;
use grain_kinds::{NewestKinds, Version};
use idle_collector::AgeTable;
use tenant_gate::{Age, TenantTable};

/// The tenants that arguments name, and the ages of kinds that a text names.
#[derive(Drop)]
pub struct Named {
    pub tenants: TenantTable,
    pub ages: AgeTable,
}

/// What a silo of the program starts from, for these tenants under these ages. Its maps are of the seed.
pub fn start_of(seed: HashSeed, named: Named, age: Age) -> Start<NewestKinds>
    ensures starts { starting (version_of newest_kinds result.kinds) result.tenants result.age result.ages
        ≡ program_start named.tenants age named.ages }
    ensures tenants { result.tenants ≡ named.tenants }
    ensures age { result.age ≡ age }
    ensures ages { result.ages ≡ named.ages }
    ensures kinds { result.kinds ≡ newest }
{
    Start {
        seed,
        tenants: named.tenants,
        age,
        ages: named.ages,
        logic: NewestKinds,
        kinds: NewestKinds::number(),
    }
}
