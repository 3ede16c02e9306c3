//! The seed from which names are hashed.

ghost use Rattle.std.specs.Prelude.{◌≡◌};
ghost use Rattle.std.specs.Hash.FoldHasher as folding;
ghost use Rattle.grain_id.specs.Hashing.{begun_by};

use std::hash::{BuildHasher, FoldHasher, Hasher};

/// The seed from which a map hashes its names.
///
/// Whoever knows it finds names of one hash in no time, and a map looks through all that it has of one hash. By another
/// seed their hashes differ. No answer of a map depends on it.
#[derive(Clone, Copy)]
pub struct HashSeed {
    begun: FoldHasher,
}

impl HashSeed {
    /// A seed of the caller's own, as from the system's random source.
    pub fn new(seed: u64) -> HashSeed
        ensures { result.begun ≡ begun_by seed }
    {
        let mut begun = FoldHasher::default();
        begun.write_u64(seed);
        HashSeed { begun }
    }

    /// The one that everybody knows, which a map has that is given none.
    pub fn fixed() -> HashSeed
        ensures { result.begun ≡ folding.initial }
    {
        HashSeed {
            begun: FoldHasher::default(),
        }
    }
}

impl BuildHasher for HashSeed {
    type Hasher = FoldHasher;

    ghost build_hasher = { λ seed. seed.begun };

    fn build_hasher(&self) -> FoldHasher {
        self.begun
    }
}
