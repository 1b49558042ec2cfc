//! Worked examples of the definitions: each group is the contract of a function that does nothing.
ghost use Rattle.writing_laws.specs.Examples.{KindsOfTypes, NamesLeadingBack, SampleIsReadBack, ValuesNotReadBack, ValuesReadBack};

/// The kinds of values that types may read, and variants with and without a kind in common.
pub fn kinds_of_types()
    ensures { KindsOfTypes }
{}

/// Values that are read back.
pub fn read_back()
    ensures { ValuesReadBack }
{}

/// A table that keeps to all that reading back asks.
pub fn sample_is_read_back()
    ensures { SampleIsReadBack }
{}

/// Containers whose names lead back to what is written under them, and some whose names don't.
pub fn leading_back()
    ensures { NamesLeadingBack }
{}

/// For each thing that tables must keep to: a value that isn't read back where one doesn't.
pub fn not_read_back()
    ensures { ValuesNotReadBack }
{}
