//! A hook that is called for each tenant that is audited.

use grain_id::Tenant;

/// Is called for each tenant, before the tenant's machine starts.
pub trait AuditGate {
    /// Called by the thread that audits the tenant.
    fn entered(&self, tenant: &Tenant);
}

/// A gate that does nothing.
#[derive(Clone, Copy)]
pub struct FreeAuditGate;

impl AuditGate for FreeAuditGate {
    fn entered(&self, _tenant: &Tenant) {}
}
