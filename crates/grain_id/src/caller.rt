//! Clients of tenants.

ghost use Rattle.std.specs.Prelude.{◌≡◌, IsTrue, IfOk, MatchResult, Some, Err, refl};
ghost use Rattle.std.specs.Hash as fed;
ghost use Rattle.std.specs.Arc.{arc_value};
ghost use Rattle.std.specs.Hash.{same_Alike};
ghost use Rattle.std.specs.Cmp.{partial_equiv_from_equiv};
ghost use Rattle.grain_id.specs.Names.{is_client, client_text, client_eq, client_cmp, IsTextOfClient, IsTextOfNoClient};
ghost use Rattle.grain_id.specs.Reading.{Gives, IfFaulty, caller_read};
ghost use Rattle.grain_id.specs.inside.Places.{IsPlacedClient};
ghost use Rattle.grain_id.specs.Order.{client_cmp_total, client_cmp_partial, client_eq_equiv, client_eq_decides, client_ties};

use crate::fault::IdFault;
use crate::name_text::NameText;
use crate::tenant::Tenant;
use crate::words;
use std::alloc::{AllocError, Global};
use std::cmp::Ordering;
use std::fmt;
use std::hash::{Hash, Hasher};
use std::marker::Model;
use std::sync::Arc;

/// A client of a tenant, written `tenant/client`.
///
/// It is one text with the place of its `/`, at most 32. Clones share it.
#[derive(Debug, Drop)]
pub struct Caller {
    placed: Arc<Placed>,
}

/// The text and the place of its `/`, shared by all clones.
#[derive(Debug, Drop)]
struct Placed {
    text: NameText,
    slash: u8,
}

impl Model for Caller {
    ghost use Rattle.std.specs.Arc.{arc_value};
    ghost use Rattle.grain_id.specs.Names.{Client};
    ghost use Rattle.grain_id.specs.inside.NameTexts.{bytes_of};
    ghost use Rattle.grain_id.specs.inside.Places.{client_at, IsPlacedClient};

    ghost Value = { Client };

    ghost view = { λ c. client_at (bytes_of (arc_value c.placed).text) (arc_value c.placed).slash };

    ghost invariant = { λ c. IsPlacedClient (bytes_of (arc_value c.placed).text) (arc_value c.placed).slash };
}

/// The place of the `/`, or the first part from the left that isn't well formed.
#[tactic(auto, unfolding(crate::specs::Reading::caller_read))]
fn place(text: &str) -> Result<u8, IdFault>
    ensures { MatchResult result (λ slash. IsPlacedClient text.now slash) (λ fault. caller_read text.now ≡ Err fault) }
{
    let Some((tenant, client)) = words::cut(text, '/') else {
        return Err(IdFault::Tenant);
    };
    if !words::is_word(tenant) {
        return Err(IdFault::Tenant);
    }
    if !words::is_word(client) {
        return Err(IdFault::Client);
    }
    Ok(tenant.len() as u8)
}

/// The text and its place, to be shared.
fn share(alloc: Global, placed: Placed) -> Result<Arc<Placed>, AllocError>
    ensures { IfOk result (λ shared. arc_value shared ≡ placed) }
{
    Ok(Arc::new(alloc, placed)?)
}

impl Caller {
    /// Reads `tenant/client`: the first `/` ends the tenant.
    ///
    /// # Errors
    ///
    /// The first part from the left that isn't well formed, `Tenant` or `Client` (a missing `/` is
    /// a fault of the tenant), or `Memory`.
    pub fn read(alloc: Global, text: &str) -> Result<Caller, IdFault>
        ensures gives { Gives result (caller_read text.now) }
        ensures whole { IfOk result (λ caller. IsTextOfClient text.now caller) }
        ensures none { IfFaulty result (IsTextOfNoClient text.now) }
    {
        let slash = place(text)?;
        let text = NameText::of(alloc, text)?;
        Ok(Caller {
            placed: share(alloc, Placed { text, slash })?,
        })
    }

    /// `tenant/client`.
    pub fn text(&self) -> &str
        ensures text { result.now ≡ client_text self.now }
        ensures well_formed { IsTrue (is_client self.now) }
    {
        self.placed.text.as_str()
    }

    /// The tenant's name.
    pub fn tenant(&self) -> &str
        ensures { result.now ≡ self.now.tenant }
    {
        words::before(&self.placed.text, usize::from(self.placed.slash))
    }

    /// The client's name within the tenant.
    pub fn client(&self) -> &str
        ensures { result.now ≡ self.now.client }
    {
        words::after(&self.placed.text, usize::from(self.placed.slash))
    }

    /// The tenant, as a value of its own.
    pub fn to_tenant(&self, alloc: Global) -> Result<Tenant, AllocError>
        ensures { IfOk result (λ t. t ≡ self.now.tenant) }
    {
        // Read, so that the proof sees that the parts are well formed.
        let _text = &self.placed.text;
        Tenant::of_word(alloc, self.tenant())
    }
}

/// Its text.
impl fmt::Display for Caller {
    ghost output = { λ caller. Some (client_text caller) };

    fn fmt<W: fmt::Write>(&self, f: &mut fmt::Formatter<W>) -> fmt::Result {
        f.write_str(self.text())
    }
}

impl Clone for Caller {
    ghost is_clone = { λ caller copy. copy ≡ caller };

    fn clone(&self) -> Result<Caller, AllocError> {
        Ok(Caller {
            placed: self.placed.clone()?,
        })
    }
}

impl PartialEq for Caller {
    ghost eq = { client_eq };

    ghost laws = { partial_equiv_from_equiv client_eq_equiv };

    fn eq(&self, other: &Caller) -> bool {
        self.text() == other.text()
    }
}

impl Eq for Caller {
    ghost laws = { client_eq_equiv };
}

impl PartialOrd for Caller {
    ghost partial_cmp = { λ a b. Some (client_cmp a b) };

    ghost laws = { client_cmp_partial };

    fn partial_cmp(&self, other: &Caller) -> Option<Ordering> {
        Some(self.cmp(other))
    }
}

impl Ord for Caller {
    ghost cmp = { client_cmp };

    ghost total = { client_cmp_total };

    ghost matches_partial_cmp = { λ a b. refl };

    ghost matches_eq = { client_ties };

    fn cmp(&self, other: &Caller) -> Ordering {
        self.tenant()
            .cmp(other.tenant())
            .then_with(|| self.client().cmp(other.client()))
    }
}

impl Hash for Caller {
    ghost hash_input = { λ caller. fed.str (client_text caller) };

    ghost respects_eq = { (same_Alike (λ caller. fed.str (client_text caller)) client_eq_decides).fed };

    fn hash<H: Hasher>(&self, state: &mut H) {
        self.text().hash(state);
    }
}
