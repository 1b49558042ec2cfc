//! Worked examples of the formats: each group is the contract of a function that does nothing.
ghost use Rattle.schema_texts.specs.Examples.{AddressExamples, CalendarExamples, IdentifierExamples};

/// Which texts are UUIDs: upper case, braces, the URN.
pub fn identifier_examples()
    ensures { IdentifierExamples }
{}

/// Which texts are dates and date-times: month ends, leap years, the last second of a day.
pub fn calendar_examples()
    ensures { CalendarExamples }
{}

/// Which texts are addresses: leading zeros, `::`, an ipv4 text in an ipv6 text.
pub fn address_examples()
    ensures { AddressExamples }
{}
