//! What a method does, if it is so little that a turn needs no plan of nodes.

/// What every turn of a method does, if it is one of these: such a turn is made by the bytes of the state and the
/// message alone. A logic needn't say so.
#[derive(Clone, Copy, Debug)]
pub enum Shortcut {
    /// Something else, or it isn't said.
    None,
    /// If the argument is `{first: text, second: any}` with these two names, it sets the field of the text to the value.
    Sets(&'static str, &'static str),
    /// If the argument is `{name: int}` with this name, it adds the number to the state.
    Adds(&'static str),
}
