//! Names of kinds, tenants, clients and grains: their faults and lengths, as keys, names read before, and their hashes by a seed.

use crate::compare::{same, same_copy};
use crate::rows::{Fields, Subject, hold, put, put_all, show, tell};
use crate::values::{caller, grain, kind, numbered, tenant};
use grain_id::{Caller, GrainId, HashSeed, IdFault, Kind, NameCache, Tenant};
use std::alloc::Global;
use std::collections::{BTreeMap, BTreeSet, HashMap};
use std::hash::{BuildHasher, Hash};
use std::test::Fail;

/// 32 bytes.
const WORD: &str = "abcdefghijklmnopqrstuvwxyz-01234";

/// Calls about names that stand alone, and a map of grains.
#[derive(Drop)]
struct Names {
    places: BTreeMap<GrainId, u64>,
}

/// What a text in which each `@` stands for `WORD` is read as, and its fault; the parts of a grain and of a caller; whether one
/// of two names is below the other, and whether a hashed map that has one finds the other; the hash of a grain.
static NAMES: &str = "
# Texts, and their faults.
grain | counter/red:a/b:c | None
grain |  | Some(Kind)
grain | counter | Some(Kind)
grain | counter:a | Some(Kind)
grain | /red:a | Some(Kind)
grain | Counter/Red: | Some(Kind)
grain | coun:ter/red:a | Some(Kind)
grain | counter/red | Some(Tenant)
grain | counter/:a | Some(Tenant)
grain | counter/Red: | Some(Tenant)
grain | counter/red/x:a | Some(Tenant)
grain | counter/red: | Some(Name)
grain | counter/red:a b | Some(Name)
grain | counter/red:é | Some(Name)
grain | counter/red:\x7f | Some(Name)
# The greatest lengths, and one byte more.
grain | @/@:@@@@ | None
grain | @5/red:a | Some(Kind)
grain | counter/@5:a | Some(Tenant)
grain | counter/red:@@@@5 | Some(Name)
caller | red/c1 | None
caller |  | Some(Tenant)
caller | red | Some(Tenant)
caller | /c1 | Some(Tenant)
caller | Red/C1 | Some(Tenant)
caller | red/ | Some(Client)
caller | red/C1 | Some(Client)
caller | red/c1/x | Some(Client)
caller | @/@ | None
caller | @5/c1 | Some(Tenant)
caller | red/@5 | Some(Client)
tenant | red-2 | None
tenant |  | Some(Tenant)
tenant | 2red | Some(Tenant)
tenant | -red | Some(Tenant)
tenant | Red | Some(Tenant)
tenant | red_2 | Some(Tenant)
tenant | réd | Some(Tenant)
kind | counter | None
kind |  | Some(Kind)
kind | 2red | Some(Kind)
kind | -red | Some(Kind)
kind | Red | Some(Kind)
kind | red_2 | Some(Kind)
kind | red  | Some(Kind)

# The parts of a grain, and those that are made of it.
parts | counter/red:a/b:c | counter;red;a/b:c;counter/red:a/b:c;counter;red;
client | red/c1 | red/c1;red;c1;red;

# Whether the first is below the second, and whether a hashed map that has the first finds the second.
grains | counter/red:b | counter/red:b | (false, true)
grains | counter/red:b | counter/red-2:a | (true, false)
callers | red/c1 | red/c1 | (false, true)
callers | red/z | red-2/a | (true, false)
tenants | red | red | (false, true)
tenants | red | red-2 | (true, false)
kinds | sheet | sheet | (false, true)
kinds | sheet | relay | (false, false)

# The hashes were computed by another program.
hash | fixed | counter/red:a | 6341382374643041536
hash | seven | counter/red:a | 17233714272596419755

# As keys of an ordered map each part decides before the next, whatever the texts as wholes say.
place | counter/red2:a | 4 | None
place | sheet/blue:a | 5 | None
place | counter/red:b | 2 | None
place | counter/red-2:a | 3 | None
place | counter/red:a | 1 | None
places | 12345

# By the fixed seed a thousand names have one hash, by another they have as many as they are.
hashes | fixed | 1
hashes | seven | 1000
";

fn fault_of(alloc: Global, form: &str, text: &str) -> Option<IdFault> {
    match form {
        "grain" => GrainId::read(alloc, text).err(),
        "caller" => Caller::read(alloc, text).err(),
        "tenant" => Tenant::read(alloc, text).err(),
        _ => Kind::read(alloc, text).err(),
    }
}

fn put_own(grain: &GrainId, out: &mut String) -> Result<(), Fail> {
    put_all(
        out,
        &[grain.kind(), grain.tenant(), grain.name(), grain.text()],
    )
}

fn put_made(alloc: Global, grain: &GrainId, out: &mut String) -> Result<(), Fail> {
    put(out, grain.to_kind(alloc)?.text())?;
    put(out, grain.to_tenant(alloc)?.text())
}

/// Writes the parts of a grain, and those that are made of it.
fn put_parts(alloc: Global, grain: Result<GrainId, Fail>, out: &mut String) -> Result<(), Fail> {
    let grain = grain?;
    put_own(&grain, out)?;
    put_made(alloc, &grain, out)
}

fn put_client(alloc: Global, caller: Result<Caller, Fail>, out: &mut String) -> Result<(), Fail> {
    let caller = caller?;
    put_all(out, &[caller.text(), caller.tenant(), caller.client()])?;
    put(out, caller.to_tenant(alloc)?.text())
}

/// Whether a hashed map that has one finds the other.
fn finds<K: Eq + Hash + Drop>(alloc: Global, one: K, other: &K) -> Result<bool, Fail> {
    let mut map = HashMap::new(alloc);
    map.insert(one, 1)?;
    Ok(map.get(other).is_some())
}

/// Whether one is below the other, and whether a hashed map that has one finds the other. Fails if a copy of one isn't equal.
fn compared<K: Ord + Hash + Clone + Drop>(
    alloc: Global,
    one: K,
    other: Result<K, Fail>,
) -> Result<(bool, bool), Fail> {
    let other = other?;
    same_copy(&one)?;
    let is_less = one < other;
    let found = finds(alloc, one, &other);
    drop(other);
    Ok((is_less, found?))
}

/// The same of two texts of a form.
fn compared_as(alloc: Global, form: &str, one: &str, other: &str) -> Result<(bool, bool), Fail> {
    match form {
        "grains" => compared(alloc, grain(alloc, one)?, grain(alloc, other)),
        "callers" => compared(alloc, caller(alloc, one)?, caller(alloc, other)),
        "tenants" => compared(alloc, tenant(alloc, one)?, tenant(alloc, other)),
        _ => compared(alloc, kind(alloc, one)?, kind(alloc, other)),
    }
}

fn seed_of(word: &str) -> HashSeed {
    match word {
        "fixed" => HashSeed::fixed(),
        _ => HashSeed::new(7),
    }
}

/// The hash of a grain, by a seed.
fn hashed(alloc: Global, seed: HashSeed, text: &str) -> Result<u64, Fail> {
    let grain = grain(alloc, text)?;
    Ok(seed.hash_one(&grain))
}

/// What stands before a number of eight digits in the texts of grains that have one hash by the fixed seed: the last eight bytes of it
/// are what the sixteen before them lead to, so that a product is 0.
const BEFORE_THE_NUMBER: &str = "counter/red:nfnb0vHDf,J7";

fn add_hash(
    alloc: Global,
    found: &mut BTreeSet<u64>,
    seed: HashSeed,
    number: u64,
) -> Result<(), Fail> {
    let mut text = numbered(alloc, BEFORE_THE_NUMBER, number)?;
    text.push_str("0123456789abcdef")?;
    found.insert(hashed(alloc, seed, &text)?)?;
    Ok(())
}

/// How many hashes a thousand such grains have.
fn hashes_of_a_thousand(alloc: Global, seed: HashSeed) -> Result<usize, Fail> {
    let mut found = BTreeSet::new(alloc);
    for number in 10_000_000..10_001_000 {
        add_hash(alloc, &mut found, seed, number)?;
    }
    Ok(found.len())
}

/// Writes the places, in the order of their grains.
fn put_places(places: &BTreeMap<GrainId, u64>, out: &mut String) -> Result<(), Fail> {
    for place in places.values() {
        show(out, *place)?;
    }
    Ok(())
}

/// The fault of a text in which each `@` stands for `WORD`.
fn fault_of_text(alloc: Global, form: &str, text: &str) -> Result<Option<IdFault>, Fail> {
    let whole = text.replace(alloc, "@", WORD)?;
    Ok(fault_of(alloc, form, &whole))
}

/// Writes what a row asks of one text.
fn put_of_text(alloc: Global, call: &str, text: &str, out: &mut String) -> Result<(), Fail> {
    match call {
        "parts" => put_parts(alloc, grain(alloc, text), out),
        "client" => put_client(alloc, caller(alloc, text), out),
        "hashes" => tell(out, hashes_of_a_thousand(alloc, seed_of(text))),
        _ => tell(out, fault_of_text(alloc, call, text)),
    }
}

/// Writes what a row asks of two texts.
fn put_of_two(
    alloc: Global,
    call: &str,
    one: &str,
    other: &str,
    out: &mut String,
) -> Result<(), Fail> {
    if call == "hash" {
        return tell(out, hashed(alloc, seed_of(one), other));
    }
    tell(out, compared_as(alloc, call, one, other))
}

/// Places a grain: which place it had.
fn placed(
    alloc: Global,
    places: &mut BTreeMap<GrainId, u64>,
    text: &str,
    fields: &mut Fields<'_>,
) -> Result<Option<u64>, Fail> {
    let place = fields.number()?;
    Ok(places.insert(grain(alloc, text)?, place)?)
}

impl Subject for Names {
    fn answer(
        &mut self,
        alloc: Global,
        call: &str,
        fields: &mut Fields<'_>,
        out: &mut String,
    ) -> Result<(), Fail> {
        let first = fields.text();
        match call {
            "hash" | "grains" | "callers" | "tenants" | "kinds" => {
                put_of_two(alloc, call, first, fields.text(), out)
            }
            "place" => tell(out, placed(alloc, &mut self.places, first, fields)),
            "places" => put_places(&self.places, out),
            _ => put_of_text(alloc, call, first, out),
        }
    }
}

#[test]
fn names_are_read_compared_and_hashed(rt: HostRuntime) -> Result<(), Fail> {
    let mut names = Names {
        places: BTreeMap::new(rt.alloc()),
    };
    hold(rt.alloc(), &mut names, NAMES)
}

/// Reads a grain, which is to have this text.
fn reads(names: &mut NameCache, alloc: Global, text: &str) -> Result<(), Fail> {
    same(names.read_grain(alloc, text)?.text() == text, true)
}

/// Reads the grain of a number twice.
fn reads_twice(names: &mut NameCache, alloc: Global, number: u64) -> Result<(), Fail> {
    let text = numbered(alloc, "counter/red:", number)?;
    reads(names, alloc, &text)?;
    reads(names, alloc, &text)
}

/// Reads many grains, each twice.
fn reads_many(names: &mut NameCache, alloc: Global) -> Result<(), Fail> {
    for number in 0..20_000 {
        reads_twice(names, alloc, number)?;
    }
    Ok(())
}

/// Reads a client, which is to be `c1`.
fn reads_client(names: &mut NameCache, alloc: Global) -> Result<(), Fail> {
    same(names.read_caller(alloc, "red/c1")?.client() == "c1", true)
}

/// More names are read than are kept, so that some take the place of others.
#[test]
fn names_read_lately(rt: HostRuntime) -> Result<(), Fail> {
    let mut names = NameCache::new(rt.alloc());
    reads_many(&mut names, rt.alloc())?;
    reads_client(&mut names, rt.alloc())?;
    reads_client(&mut names, rt.alloc())
}
