//! The value that an owned tree shows, level by level.

ghost use Rattle.std.specs.Prelude.{map, ⊤, string_cmp};
ghost use Rattle.std.specs.List.Sorted.{IsStrictlySortedBy};
ghost use Rattle.std.specs.Map.{keys_of};
ghost use Rattle.std.specs.Slice.Iter.{iter_rest};
ghost use Rattle.request_codec.specs.Seen.{value_of, entry_of};

use crate::datum::Datum;
use crate::shown::{Level, Shown};
use std::collections::btree_map;
use std::slice;

impl<'a> Shown for &'a Datum {
    type Items = slice::Iter<'a, Datum>;

    type Fields = btree_map::Iter<'a, String, Datum>;

    type Field = (&'a String, &'a Datum);

    ghost value = { λ datum. value_of datum.now };

    ghost listed = { λ items. map value_of (iter_rest items) };

    ghost named = { λ fields. map entry_of fields };

    ghost parted = { λ field. entry_of (field.0.now, field.1.now) };

    ghost kept = { λ _. ⊤ };

    ghost ascend = { λ fields. IsStrictlySortedBy string_cmp (keys_of fields) };

    #[tactic(auto, using(crate::proofs::DatumValue::datum_levels))]
    fn level(&self) -> Level<'_, slice::Iter<'a, Datum>, btree_map::Iter<'a, String, Datum>> {
        match *self {
            Datum::Null => Level::Null,
            Datum::Bool(truth) => Level::Bool(*truth),
            Datum::Int(number) => Level::Int(*number),
            Datum::Text(text) => Level::Text(text.as_str()),
            Datum::List(items) => Level::List(items.len(), items.iter()),
            Datum::Map(fields) => Level::Map(fields.len(), fields.iter()),
            Datum::Bytes(bytes) => Level::Bytes(bytes.as_slice()),
        }
    }

    fn next_item(items: &mut slice::Iter<'a, Datum>) -> Option<&'a Datum> {
        items.next()
    }

    fn next_field(
        fields: &mut btree_map::Iter<'a, String, Datum>,
    ) -> Option<(&'a String, &'a Datum)> {
        match fields.next() {
            Some(field) => Some(field),
            None => None,
        }
    }

    fn parts<'f>(field: &'f (&'a String, &'a Datum)) -> (&'f str, &'a Datum) {
        let (name, value) = *field;
        (name.as_str(), value)
    }
}
