//! Making a value that owns its parts.

ghost use Rattle.std.specs.Prelude.{map};
ghost use Rattle.request_codec.specs.Seen.{value_of, entry_of};

use crate::builder::Builder;
use crate::datum::Datum;
use std::alloc::{AllocError, Global};
use std::collections::BTreeMap;

/// Makes a `Datum` in memory of the allocator.
#[derive(Clone, Copy)]
pub struct DatumBuilder {
    pub alloc: Global,
}

impl Builder for DatumBuilder {
    type Made = Datum;

    type Items = Vec<Datum>;

    type Fields = BTreeMap<String, Datum>;

    ghost made = { value_of };

    ghost listed = { λ v. map value_of v.items };

    ghost named = { λ m. map entry_of m.entries };

    fn null(&self) -> Datum {
        Datum::Null
    }

    fn truth(&self, truth: bool) -> Datum {
        Datum::Bool(truth)
    }

    fn integer(&self, number: i64) -> Datum {
        Datum::Int(number)
    }

    fn text(&self, text: &str) -> Result<Datum, AllocError> {
        Ok(Datum::Text(String::from_str(self.alloc, text)?))
    }

    fn bytes(&self, bytes: &[u8]) -> Result<Datum, AllocError> {
        Ok(Datum::Bytes(Vec::from_slice(self.alloc, bytes)?))
    }

    fn no_items(&self) -> Vec<Datum> {
        Vec::new(self.alloc)
    }

    fn push(&self, items: &mut Vec<Datum>, item: Datum) -> Result<(), AllocError> {
        Ok(items.push(item)?)
    }

    fn list(&self, items: Vec<Datum>) -> Datum {
        Datum::List(items)
    }

    fn no_fields(&self) -> BTreeMap<String, Datum> {
        BTreeMap::new(self.alloc)
    }

    fn add(
        &self,
        fields: &mut BTreeMap<String, Datum>,
        name: &str,
        field: Datum,
    ) -> Result<(), AllocError> {
        let key = String::from_str(self.alloc, name)?;
        drop(fields.insert(key, field)?);
        Ok(())
    }

    fn map(&self, fields: BTreeMap<String, Datum>) -> Datum {
        Datum::Map(fields)
    }
}
