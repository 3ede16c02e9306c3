//! Tenants.

ghost use Rattle.std.specs.Prelude.{◌≡◌, IsTrue, IfOk, Some, false, refl};
ghost use Rattle.std.specs.Hash as fed;
ghost use Rattle.std.specs.Hash.{same_Alike};
ghost use Rattle.std.specs.Cmp.{partial_equiv_from_equiv};
ghost use Rattle.std.specs.Cmp.Lexicographic.{nat_list_eq_equiv, texts_po, texts_ties};
ghost use Rattle.grain_id.specs.Words.{is_word};
ghost use Rattle.grain_id.specs.Names.{same_text, text_cmp};
ghost use Rattle.grain_id.specs.Reading.{Gives, IfFaulty, tenant_read};
ghost use Rattle.grain_id.specs.Order.{text_cmp_total, same_text_decides};

use crate::fault::IdFault;
use crate::words;
use std::alloc::{AllocError, Global};
use std::cmp::Ordering;
use std::fmt;
use std::hash::{Hash, Hasher};
use std::marker::Model;
use std::sync::ArcStr;

/// A tenant's name: 1 to 32 bytes of `a-z`, `0-9` and `-`, the first a letter.
#[derive(Debug, Drop)]
pub struct Tenant {
    text: ArcStr,
}

impl Model for Tenant {
    ghost use Rattle.std.specs.Prelude.{ℕ, List, IsTrue};
    ghost use Rattle.std.specs.Arc.{arc_str_bytes};
    ghost use Rattle.grain_id.specs.Words.{is_word};

    ghost Value = { List ℕ };

    ghost view = { λ t. arc_str_bytes t.text };

    ghost invariant = { λ t. IsTrue (is_word (arc_str_bytes t.text)) };
}

impl Tenant {
    /// Reads a tenant's name.
    ///
    /// # Errors
    ///
    /// `Tenant` where the text is no such name, `Memory` where memory is refused.
    pub fn read(alloc: Global, text: &str) -> Result<Tenant, IdFault>
        ensures gives { Gives result (tenant_read text.now) }
        ensures whole { IfOk result (λ tenant. IsTrue (is_word text.now) × (text.now ≡ tenant)) }
        ensures none { IfFaulty result (is_word text.now ≡ false) }
    {
        if !words::is_word(text) {
            return Err(IdFault::Tenant);
        }
        Ok(Tenant::of_word(alloc, text)?)
    }

    /// The tenant of a name that is known to be well formed.
    pub(crate) fn of_word(alloc: Global, text: &str) -> Result<Tenant, AllocError>
        requires { IsTrue (is_word text.now) }
        ensures { IfOk result (λ tenant. tenant ≡ text.now) }
    {
        Ok(Tenant {
            text: ArcStr::from_str(alloc, text)?,
        })
    }

    /// The name as text.
    pub fn text(&self) -> &str
        ensures text { result.now ≡ self.now }
        ensures well_formed { IsTrue (is_word self.now) }
    {
        self.text.as_str()
    }
}

/// Its text.
impl fmt::Display for Tenant {
    ghost output = { λ tenant. Some tenant };

    fn fmt<W: fmt::Write>(&self, f: &mut fmt::Formatter<W>) -> fmt::Result {
        f.write_str(self.text())
    }
}

impl Clone for Tenant {
    ghost is_clone = { λ tenant copy. copy ≡ tenant };

    fn clone(&self) -> Result<Tenant, AllocError> {
        Ok(Tenant {
            text: self.text.clone()?,
        })
    }
}

impl PartialEq for Tenant {
    ghost eq = { same_text };

    ghost laws = { partial_equiv_from_equiv nat_list_eq_equiv };

    fn eq(&self, other: &Tenant) -> bool {
        self.text() == other.text()
    }
}

impl Eq for Tenant {
    ghost laws = { nat_list_eq_equiv };
}

impl PartialOrd for Tenant {
    ghost partial_cmp = { λ a b. Some (text_cmp a b) };

    ghost laws = { texts_po };

    fn partial_cmp(&self, other: &Tenant) -> Option<Ordering> {
        Some(self.cmp(other))
    }
}

impl Ord for Tenant {
    ghost cmp = { text_cmp };

    ghost total = { text_cmp_total };

    ghost matches_partial_cmp = { λ a b. refl };

    ghost matches_eq = { texts_ties };

    fn cmp(&self, other: &Tenant) -> Ordering {
        self.text().cmp(other.text())
    }
}

impl Hash for Tenant {
    ghost hash_input = { fed.str };

    ghost respects_eq = { (same_Alike fed.str same_text_decides).fed };

    fn hash<H: Hasher>(&self, state: &mut H) {
        self.text().hash(state);
    }
}
