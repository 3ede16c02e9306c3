//! What shows a value, level by level.

ghost use Rattle.std.specs.Prelude.{◌≡◌, ⊤, List, [], ◌∷◌, MatchOption};
ghost use Rattle.request_codec.specs.Tree.{Tree, fields_of};
ghost use Rattle.request_codec.specs.Spelling.{IsBelowFirst};
ghost use Rattle.request_codec.specs.inside.Build.{Named};
ghost use Rattle.request_codec.specs.inside.Level.{level_value, IsCounted, AreKept, HoldsInside};

/// One level of a value: a whole one, or how many members it has and what gives them.
pub enum Level<'a, I, F> {
    Null,
    Bool(bool),
    Int(i64),
    Text(&'a str),
    List(usize, I),
    Map(usize, F),
    Bytes(&'a [u8]),
    /// Bytes by their digits: an even number of lower case hexadecimal ones.
    Hex(&'a str),
}

/// Shows a value, and the members of a list and the fields of a map in their order.
pub trait Shown: Copy {
    /// What gives the members of a list, one after another.
    type Items: Drop;
    /// What gives the fields of a map, one after another.
    type Fields: Drop;
    /// A name and the value beside it.
    type Field: Drop;

    /// The value that is shown.
    ghost value: { Self → Tree };

    /// The values of the members that are left.
    ghost listed: { Self.Items → List Tree };

    /// The names and values of the fields that are left.
    ghost named: { Self.Fields → List Named };

    /// The name and the value of a field.
    ghost parted: { Self.Field → Named };

    /// What has to be known of a value for the names of its maps to ascend.
    ghost kept: { Tree → Type 0 };

    /// The names of the fields that are left ascend, and what has to be known of their values is.
    ghost ascend: { Self.Fields → Type 0 };

    fn level(&self) -> Level<'_, Self::Items, Self::Fields>
        ensures value { value self.now ≡ level_value listed named result }
        ensures counted { IsCounted listed named result }
        ensures order { kept (value self.now) → HoldsInside (λ items. AreKept kept (listed items)) ascend result };

    fn next_item(items: &mut Self::Items) -> Option<Self>
        ensures { MatchOption result (listed items.old ≡ []) (λ item. listed items.old ≡ value item ∷ listed items.new) };

    fn next_field(fields: &mut Self::Fields) -> Option<Self::Field>
        ensures next { MatchOption result (named fields.old ≡ []) (λ field. named fields.old ≡ parted field ∷ named fields.new) }
        ensures order { ascend fields.old → MatchOption result ⊤
            (λ field. kept (parted field).1 × IsBelowFirst (parted field).0 (fields_of (named fields.new)) × ascend fields.new) };

    fn parts(field: &Self::Field) -> (&str, Self)
        ensures name { result.0.now ≡ (parted field.now).0 }
        ensures value { value result.1 ≡ (parted field.now).1 };
}
