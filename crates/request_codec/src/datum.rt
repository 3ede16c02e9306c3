//! Values that own their parts.

use std::collections::BTreeMap;

/// A value as an owned tree. The names of a map ascend by their bytes.
#[derive(Drop)]
pub enum Datum {
    Null,
    Bool(bool),
    Int(i64),
    Text(String),
    List(Vec<Datum>),
    Map(BTreeMap<String, Datum>),
    Bytes(Vec<u8>),
}
