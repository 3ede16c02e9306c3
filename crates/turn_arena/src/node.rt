//! Values whose parts lie in an arena.

/// One field of a map: a name and the value beside it.
#[derive(Clone, Copy)]
#[cycle(tree)]
pub struct Field<'a> {
    pub name: &'a str,
    pub node: Node<'a>,
}

/// A value whose texts, members, fields and bytes are borrowed from an arena. It is copied without them.
#[derive(Clone, Copy)]
#[cycle(tree)]
pub enum Node<'a> {
    Null,
    Bool(bool),
    Int(i64),
    Text(&'a str),
    List(&'a [Node<'a>]),
    /// The fields by name; what the arena's functions give has its names ascending strictly by bytes.
    Map(&'a [Field<'a>]),
    Bytes(&'a [u8]),
}
