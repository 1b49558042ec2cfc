//! The laws on rows that merge: each is the contract of a function that does nothing.

ghost use Rattle.merging_laws.specs.Laws.{MergedRowsAgree, MergingRowsAgree, RowsThatMerge, StandingAgrees};

/// The schema that a row merges admits what the written schema admits, up to the notes of the merge: a target with the rest, a body with its subschemas,
/// and the members of allOf.
pub fn merged_rows_agree()
    ensures { MergedRowsAgree }
{}

/// Each row of the table that merges has one of these three forms.
pub fn rows_that_merge()
    ensures { RowsThatMerge }
{}

/// What stands in the place of a schema whose row merges admits what the merge does.
pub fn standing_agrees()
    ensures { StandingAgrees }
{}

/// What stands in the place of a schema whose row merges admits what the schema does, up to the notes of the merge and of the row.
pub fn merging_rows_agree()
    ensures { MergingRowsAgree }
{}
