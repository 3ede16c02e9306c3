//! Laws over the definitions alone. Each is the contract of a function that does nothing.

ghost use Rattle.std.specs.Prelude.{◌≡◌, ℕ, List, Ok, IsTrue};
ghost use Rattle.grain_id.specs.Words.{is_word};
ghost use Rattle.grain_id.specs.Names.{Grain, Client, is_grain, is_client, grain_text, client_text};
ghost use Rattle.grain_id.specs.Reading.{grain_read, caller_read, tenant_read, kind_read};

/// The text of a well-formed name is read as that name.
pub fn reading_gives_back()
    ensures grains { (g : Grain) → IsTrue (is_grain g) → grain_read (grain_text g) ≡ Ok g }
    ensures callers { (c : Client) → IsTrue (is_client c) → caller_read (client_text c) ≡ Ok c }
    ensures tenants { (t : List ℕ) → IsTrue (is_word t) → tenant_read t ≡ Ok t }
    ensures kinds { (k : List ℕ) → IsTrue (is_word k) → kind_read k ≡ Ok k }
{}
