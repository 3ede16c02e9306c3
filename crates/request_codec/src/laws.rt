//! Laws of the message form, each the contract of a function that does nothing.

ghost use Rattle.std.specs.Prelude.{◌≡◌, ℕ, List, [], ◌++◌, length, Some};
ghost use Rattle.request_codec.specs.Tree.{Tree};
ghost use Rattle.request_codec.specs.Spelling.{Spells};
ghost use Rattle.request_codec.specs.Formed.{IsFormed, IsSized};
ghost use Rattle.request_codec.specs.Answers.{spelled_length};
ghost use Rattle.request_codec.specs.Json.{json_of, value_of_json, HoldsNoHexMap};

/// No bytes spell two values, and a value has at most one spelling. It has one exactly where each
/// number is one of i64, each text and name is UTF-8 and shorter than 2^32 bytes, all bytes are from 0 to
/// 255 and shorter than that, the names of a map ascend, and each count fits a u32. The spelling is as long as `spelled_length` says.
pub fn one_spelling()
    ensures one_value { (v w : Tree) (bytes : List ℕ) → Spells v bytes → Spells w bytes → v ≡ w }
    ensures at_most_one { (v : Tree) (a b : List ℕ) → Spells v a → Spells v b → a ≡ b }
    ensures one { (v : Tree) → IsFormed v → IsSized v → (bytes : List ℕ) × Spells v bytes }
    ensures no_other { (v : Tree) (bytes : List ℕ) → Spells v bytes → IsFormed v × IsSized v }
    ensures as_long { (v : Tree) (bytes : List ℕ) → Spells v bytes → length bytes ≡ spelled_length v }
{}

/// No spelling is a proper prefix of another.
pub fn no_prefix()
    ensures { (v w : Tree) (bytes more : List ℕ) → Spells v bytes → Spells w (bytes ++ more) → more ≡ [] }
{}

/// The JSON of a value has this value again, unless a map in it has `$hex` as its only name.
pub fn json_again()
    ensures { (v : Tree) → IsFormed v → HoldsNoHexMap v → value_of_json (json_of v) ≡ Some v }
{}
