//! What holds of all tables of entries: each law is the contract of a function that does nothing.

ghost use Rattle.entry_defs.specs.Members.{MembersOneByOne};
ghost use Rattle.entry_defs.specs.Reach.{RankedTablesEnd};
ghost use Rattle.entry_defs.specs.Space.{TreesStay};
ghost use Rattle.entry_defs.specs.Rows.{RowsOfTaking};

/// Where each item stands above those that it asks, none reaches itself at one value.
pub fn ranked_tables_end()
    ensures { RankedTablesEnd }
{}

/// What each form of entry takes, in terms of what entries take of the value and of its parts.
pub fn rows_of_taking()
    ensures { RowsOfTaking }
{}

/// A struct takes members whose names differ one by one.
pub fn members_one_by_one()
    ensures { MembersOneByOne }
{}

/// A tree stays where it stands in a space when entries are added.
pub fn trees_stay()
    ensures { TreesStay }
{}
