//! What is printed by `describe`: each law is the contract of a function that does nothing.

ghost use Rattle.describe_run.specs.Laws.{DescriptionsAdmitAlike};

/// Where the report has no notes, the description that is printed admits exactly the small values that the schema admits.
pub fn descriptions_admit_alike()
    ensures { DescriptionsAdmitAlike }
{}
