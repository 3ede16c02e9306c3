//! A gate at which the tenants of an audit wait for one another.

use grain_id::Tenant;
use tenant_audit::AuditGate;
use test_helpers::meeting::Meeting;

#[derive(Drop)]
pub struct TenantsMeet {
    pub meeting: Meeting,
}

impl TenantsMeet {
    pub fn new(wanted: u64) -> TenantsMeet {
        TenantsMeet {
            meeting: Meeting::new(wanted),
        }
    }
}

impl AuditGate for TenantsMeet {
    fn entered(&self, _tenant: &Tenant) {
        self.meeting.meet();
    }
}
