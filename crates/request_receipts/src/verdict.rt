//! What becomes of a request that is to act once.

/// What becomes of a request that is to act once: the first of these that fits.
#[derive(Clone, Copy)]
pub enum Verdict<'a> {
    /// The number has acted, and this line answered it.
    Again(&'a [u8]),
    /// The number isn't above the caller's greatest.
    Answered,
    /// The caller is new, and the tenant has as many callers as it may have.
    ManyCallers,
    /// The caller has no room for one more receipt.
    NotSeenOfCaller,
    /// The tenant has no room for one more receipt.
    NotSeenOfTenant,
    /// It acts.
    Acts,
}
