//! Laws over the definitions alone. No code runs: a law is the contract of a function that does
//! nothing, so that it is proved with the crate.

ghost use Rattle.audit_model.specs.Report.{EachReport, NoDifference, NoneIsMachines, OneReport, OwnersReported, StartsAsRecorded};
ghost use Rattle.audit_model.specs.Report.{TenantsInOrder};
ghost use Rattle.audit_model.specs.Numbers.{NumbersInRange};

/// A journal has a report.
#[tactic(auto, using(crate::proofs::EachReport::each_report))]
pub fn each_report()
    ensures { EachReport }
{}

/// A journal has no two reports.
pub fn one_report()
    ensures { OneReport }
{}

/// The journal of a silo that opened with no rows has no difference.
pub fn no_difference()
    ensures { NoDifference }
{}

/// If a tenant has no difference, the replies and the rows that were recorded of it are its
/// machine's.
pub fn none_is_machines()
    ensures { NoneIsMachines }
{}

/// A report has each tenant once: the table's in its order, and then the others that have a step, a
/// reply or a row, ascending.
#[tactic(auto, using(crate::proofs::Tenants::tenants_in_order))]
pub fn tenants_in_order()
    ensures { TenantsInOrder }
{}

/// A report has each tenant of whom the journal has a step of its own, a reply or a row; and of those
/// whom the table doesn't have, no other.
#[tactic(auto, using(crate::proofs::Owned::owners_reported))]
pub fn owners_reported()
    ensures { OwnersReported }
{}

/// A tenant's machine starts with the journal's age, with the ages that kinds have of their own there,
/// and with the limits that its table has of the tenant.
#[tactic(auto, using(crate::proofs::Owned::starts_as_recorded))]
pub fn starts_as_recorded()
    ensures { StartsAsRecorded }
{}

/// If each client of a silo that opened with no rows asked under a number in its range, all numbers of the
/// silo's journal are in theirs.
#[tactic(auto, using(crate::proofs::Numbers::numbers_in_range))]
pub fn numbers_in_range()
    ensures { NumbersInRange }
{}
