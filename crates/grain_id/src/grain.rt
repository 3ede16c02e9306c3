//! Grains.

ghost use Rattle.std.specs.Prelude.{◌≡◌, IsTrue, IfOk, MatchResult, Some, Err, refl};
ghost use Rattle.std.specs.Hash as fed;
ghost use Rattle.std.specs.Arc.{arc_value};
ghost use Rattle.std.specs.Hash.{same_Alike};
ghost use Rattle.std.specs.Cmp.{partial_equiv_from_equiv};
ghost use Rattle.grain_id.specs.Names.{is_grain, grain_text, grain_eq, grain_cmp, IsTextOfGrain, IsTextOfNoGrain};
ghost use Rattle.grain_id.specs.Reading.{Gives, IfFaulty, grain_read};
ghost use Rattle.grain_id.specs.inside.Places.{IsPlacedGrain};
ghost use Rattle.grain_id.specs.Order.{grain_cmp_total, grain_cmp_partial, grain_eq_equiv, grain_eq_decides, grain_ties};

use crate::fault::IdFault;
use crate::kind::Kind;
use crate::name_text::NameText;
use crate::tenant::Tenant;
use crate::words;
use std::alloc::{AllocError, Global};
use std::cmp::Ordering;
use std::fmt;
use std::hash::{Hash, Hasher};
use std::marker::Model;
use std::sync::Arc;

/// The identity of a grain, written `kind/tenant:name`.
///
/// It is one text with the places of its `/` and its `:`, both below 66. Clones share it.
#[derive(Debug, Drop)]
pub struct GrainId {
    placed: Arc<Placed>,
}

/// The text and the places of its separators, shared by all clones.
#[derive(Debug, Drop)]
struct Placed {
    text: NameText,
    slash: u8,
    colon: u8,
}

impl Model for GrainId {
    ghost use Rattle.std.specs.Arc.{arc_value};
    ghost use Rattle.grain_id.specs.Names.{Grain};
    ghost use Rattle.grain_id.specs.inside.NameTexts.{bytes_of};
    ghost use Rattle.grain_id.specs.inside.Places.{grain_at, IsPlacedGrain};

    ghost Value = { Grain };

    ghost view = { λ g. grain_at (bytes_of (arc_value g.placed).text) (arc_value g.placed).slash (arc_value g.placed).colon };

    ghost invariant = { λ g. IsPlacedGrain (bytes_of (arc_value g.placed).text) (arc_value g.placed).slash (arc_value g.placed).colon };
}

/// The places of the `/` and the `:`, or the first part from the left that isn't well formed.
#[tactic(auto, unfolding(crate::specs::Reading::grain_read))]
fn places(text: &str) -> Result<(u8, u8), IdFault>
    ensures { MatchResult result (λ places. IsPlacedGrain text.now places.0 places.1) (λ fault. grain_read text.now ≡ Err fault) }
{
    let Some((kind, rest)) = words::cut(text, '/') else {
        return Err(IdFault::Kind);
    };
    if !words::is_word(kind) {
        return Err(IdFault::Kind);
    }
    let Some((tenant, name)) = words::cut(rest, ':') else {
        return Err(IdFault::Tenant);
    };
    if !words::is_word(tenant) {
        return Err(IdFault::Tenant);
    }
    if !words::is_name(name) {
        return Err(IdFault::Name);
    }
    let slash = kind.len();
    let colon = slash + 1 + tenant.len();
    Ok((slash as u8, colon as u8))
}

/// The text and its places, to be shared.
fn share(alloc: Global, placed: Placed) -> Result<Arc<Placed>, AllocError>
    ensures { IfOk result (λ shared. arc_value shared ≡ placed) }
{
    Ok(Arc::new(alloc, placed)?)
}

impl GrainId {
    /// Reads `kind/tenant:name`: the first `/` ends the kind, the first `:` after it ends the
    /// tenant, and the name may hold both.
    ///
    /// # Errors
    ///
    /// The first part from the left that isn't well formed, `Kind`, `Tenant` or `Name` (a missing
    /// `/` is a fault of the kind, a missing `:` one of the tenant), or `Memory`.
    pub fn read(alloc: Global, text: &str) -> Result<GrainId, IdFault>
        ensures gives { Gives result (grain_read text.now) }
        ensures whole { IfOk result (λ grain. IsTextOfGrain text.now grain) }
        ensures none { IfFaulty result (IsTextOfNoGrain text.now) }
    {
        let (slash, colon) = places(text)?;
        let text = NameText::of(alloc, text)?;
        Ok(GrainId {
            placed: share(alloc, Placed { text, slash, colon })?,
        })
    }

    /// `kind/tenant:name`.
    pub fn text(&self) -> &str
        ensures text { result.now ≡ grain_text self.now }
        ensures well_formed { IsTrue (is_grain self.now) }
    {
        self.placed.text.as_str()
    }

    /// The kind's name.
    pub fn kind(&self) -> &str
        ensures { result.now ≡ self.now.kind }
    {
        words::before(&self.placed.text, usize::from(self.placed.slash))
    }

    /// The tenant's name.
    pub fn tenant(&self) -> &str
        ensures { result.now ≡ self.now.tenant }
    {
        words::between(
            &self.placed.text,
            usize::from(self.placed.slash),
            usize::from(self.placed.colon),
        )
    }

    /// The name within its kind and tenant.
    pub fn name(&self) -> &str
        ensures { result.now ≡ self.now.name }
    {
        words::after(&self.placed.text, usize::from(self.placed.colon))
    }

    /// The kind, as a value of its own.
    pub fn to_kind(&self, alloc: Global) -> Result<Kind, AllocError>
        ensures { IfOk result (λ k. k ≡ self.now.kind) }
    {
        // Read, so that the proof sees that the parts are well formed.
        let _text = &self.placed.text;
        Kind::of_word(alloc, self.kind())
    }

    /// The tenant, as a value of its own.
    pub fn to_tenant(&self, alloc: Global) -> Result<Tenant, AllocError>
        ensures { IfOk result (λ t. t ≡ self.now.tenant) }
    {
        // Read, so that the proof sees that the parts are well formed.
        let _text = &self.placed.text;
        Tenant::of_word(alloc, self.tenant())
    }
}

/// Its text.
impl fmt::Display for GrainId {
    ghost output = { λ grain. Some (grain_text grain) };

    fn fmt<W: fmt::Write>(&self, f: &mut fmt::Formatter<W>) -> fmt::Result {
        f.write_str(self.text())
    }
}

impl Clone for GrainId {
    ghost is_clone = { λ grain copy. copy ≡ grain };

    fn clone(&self) -> Result<GrainId, AllocError> {
        Ok(GrainId {
            placed: self.placed.clone()?,
        })
    }
}

impl PartialEq for GrainId {
    ghost eq = { grain_eq };

    ghost laws = { partial_equiv_from_equiv grain_eq_equiv };

    fn eq(&self, other: &GrainId) -> bool {
        self.text() == other.text()
    }
}

impl Eq for GrainId {
    ghost laws = { grain_eq_equiv };
}

impl PartialOrd for GrainId {
    ghost partial_cmp = { λ a b. Some (grain_cmp a b) };

    ghost laws = { grain_cmp_partial };

    fn partial_cmp(&self, other: &GrainId) -> Option<Ordering> {
        Some(self.cmp(other))
    }
}

impl Ord for GrainId {
    ghost cmp = { grain_cmp };

    ghost total = { grain_cmp_total };

    ghost matches_partial_cmp = { λ a b. refl };

    ghost matches_eq = { grain_ties };

    fn cmp(&self, other: &GrainId) -> Ordering {
        self.kind()
            .cmp(other.kind())
            .then_with(|| self.tenant().cmp(other.tenant()))
            .then_with(|| self.name().cmp(other.name()))
    }
}

impl Hash for GrainId {
    ghost hash_input = { λ grain. fed.str (grain_text grain) };

    ghost respects_eq = { (same_Alike (λ grain. fed.str (grain_text grain)) grain_eq_decides).fed };

    fn hash<H: Hasher>(&self, state: &mut H) {
        self.text().hash(state);
    }
}
