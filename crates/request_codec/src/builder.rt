//! What is made of a value while its bytes are read.

ghost use Rattle.std.specs.Prelude.{◌≡◌, List, [], ◌∷◌, ◌++◌, IfOk, OnOk};
ghost use Rattle.request_codec.specs.Tree as tree;
ghost use Rattle.request_codec.specs.Tree.{Tree, members_of, fields_of};
ghost use Rattle.request_codec.specs.inside.Build.{Named, AreBelow};

use std::alloc::AllocError;

/// Makes a value from its parts, as they are read. An `Err` says that memory was refused.
pub trait Builder {
    /// A value.
    type Made: Drop;
    /// The members of a list that were read.
    type Items: Drop;
    /// The fields of a map that were read.
    type Fields: Drop;

    /// The value that is shown.
    ghost made: { Self.Made → Tree };

    /// The members' values.
    ghost listed: { Self.Items → List Tree };

    /// The fields' names and values.
    ghost named: { Self.Fields → List Named };

    fn null(&self) -> Self::Made
        ensures { made result ≡ tree.null };

    fn truth(&self, truth: bool) -> Self::Made
        ensures { made result ≡ tree.truth truth };

    fn integer(&self, number: i64) -> Self::Made
        ensures { made result ≡ tree.integer number };

    fn text(&self, text: &str) -> Result<Self::Made, AllocError>
        ensures { IfOk result (λ v. made v ≡ tree.text text.now) };

    fn bytes(&self, bytes: &[u8]) -> Result<Self::Made, AllocError>
        ensures { IfOk result (λ v. made v ≡ tree.bytes bytes.now) };

    fn no_items(&self) -> Self::Items
        ensures { listed result ≡ [] };

    fn push(&self, items: &mut Self::Items, item: Self::Made) -> Result<(), AllocError>
        ensures { OnOk result (listed items.new ≡ listed items.old ++ made item ∷ []) };

    fn list(&self, items: Self::Items) -> Self::Made
        ensures { made result ≡ tree.list (members_of (listed items)) };

    fn no_fields(&self) -> Self::Fields
        ensures { named result ≡ [] };

    /// Adds a field, whose name is above the others.
    fn add(
        &self,
        fields: &mut Self::Fields,
        name: &str,
        field: Self::Made,
    ) -> Result<(), AllocError>
        requires { AreBelow (named fields.old) name.now }
        ensures { OnOk result (named fields.new ≡ named fields.old ++ (name.now, made field) ∷ []) };

    fn map(&self, fields: Self::Fields) -> Self::Made
        ensures { made result ≡ tree.map (fields_of (named fields)) };
}
