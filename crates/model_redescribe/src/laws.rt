//! What holds of all reports: each law is the contract of a function that does nothing.
ghost use Rattle.model_redescribe.specs.Laws.{DescribedItemsReadTheSame, DescribedTwiceReadsTheSame, DescriptionsAreUnnoted, ReportsAgree, UnnotedAreDescribed};

/// Where a report has no notes, a description of its items admits exactly what the schema admits.
pub fn unnoted_are_described()
    ensures { UnnotedAreDescribed }
{}

/// Two reports on one schema, at one depth, under one setting and by one judge of texts, have the same items and notes: where
/// `check` prints no note, the items that `describe` reads have none.
pub fn reports_agree()
    ensures { ReportsAgree }
{}

/// Where the value that describes a plain table is examined without a note, what comes of it reads exactly the values with
/// i64 numbers that the table reads, listed or not.
pub fn described_twice_reads_the_same()
    ensures { DescribedTwiceReadsTheSame }
{}

/// So does what comes of whatever value describes items.
pub fn described_items_read_the_same()
    ensures { DescribedItemsReadTheSame }
{}

/// No note is left of the value that describes a plain table, at a depth of at least as many schemas as stand in it.
pub fn descriptions_are_unnoted()
    ensures { DescriptionsAreUnnoted }
{}
