//! Laws over the definitions alone. No code runs: a law is the contract of a function that does
//! nothing, so that it is proved with the crate.

ghost use Rattle.silo_event.specs.Visible.{TextsAreVisible};

/// The text of a fault whose names are well formed is of visible ASCII and spaces.
pub fn texts_are_visible()
    ensures { TextsAreVisible }
{}
