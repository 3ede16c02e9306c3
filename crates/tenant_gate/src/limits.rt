//! What a tenant may have.

ghost use Rattle.std.specs.Prelude.{◌≡◌};

/// The most tenants that a silo serves.
pub const MAX_TENANTS: usize = 1_000;

/// The most grains of a tenant that may be active at once.
pub const MAX_ACTIVATIONS: u32 = 10_000;

/// The most requests that may wait at one grain.
pub const MAX_MAILBOX: u32 = 1_000;

/// How many grains of a tenant may be active at once (1 to 10,000), and how many requests may wait
/// at each of them (1 to 1,000).
#[derive(Clone, Copy, Debug, PartialEq, Eq)]
pub struct Limits {
    pub activations: u32,
    pub mailbox: u32,
}

impl Limits {
    ghost use Rattle.tenant_gate.specs.Table.{are_in_range};

    /// Whether both are in their ranges.
    pub fn are_in_range(&self) -> bool
        ensures { result ≡ are_in_range self.now }
    {
        1 <= self.activations
            && self.activations <= MAX_ACTIVATIONS
            && 1 <= self.mailbox
            && self.mailbox <= MAX_MAILBOX
    }
}
