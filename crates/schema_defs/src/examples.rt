//! Worked examples of the definitions: each group is the contract of a function that does nothing.

ghost use Rattle.schema_defs.specs.ExamplesOfValues.{KindExamples, ValueExamples, SameValueExamples};
ghost use Rattle.schema_defs.specs.ExamplesOfReferences.{ReferenceExamples, GuardedExamples};
ghost use Rattle.schema_defs.specs.ExamplesOfScalars.{NumberExamples, TextExamples};
ghost use Rattle.schema_defs.specs.ExamplesOfOwners.{ListExamples, MemberExamples};
ghost use Rattle.schema_defs.specs.ExamplesOfReading.{ReadingExamples, MalformedExamples, LocationExamples};
ghost use Rattle.schema_defs.specs.ExamplesOfSettings.{SettingExamples};
ghost use Rattle.schema_defs.specs.ExamplesOfFormats.{DateExamples, AddressExamples, UuidExamples};

/// What `type` says, and the boolean schemas.
pub fn kind_examples()
    ensures { KindExamples }
{}

/// What `enum` and `const` say, and what annotations and unknown members do not.
pub fn value_examples()
    ensures { ValueExamples }
{}

/// What `allOf`, `anyOf`, `oneOf` and `not` say, and what `if`, `then` and `else` do not.
pub fn same_value_examples()
    ensures { SameValueExamples }
{}

/// What `$ref` says.
pub fn reference_examples()
    ensures { ReferenceExamples }
{}

/// What bounds, multiples and integer formats say.
pub fn number_examples()
    ensures { NumberExamples }
{}

/// What lengths, patterns and formats say of texts.
pub fn text_examples()
    ensures { TextExamples }
{}

/// What the keywords of lists say.
pub fn list_examples()
    ensures { ListExamples }
{}

/// What the keywords of members say.
pub fn member_examples()
    ensures { MemberExamples }
{}

/// How values are read as documents.
pub fn reading_examples()
    ensures { ReadingExamples }
{}

/// What has no reading as a document.
pub fn malformed_examples()
    ensures { MalformedExamples }
{}

/// Where schemas stand, and where references lead.
pub fn location_examples()
    ensures { LocationExamples }
{}

/// What a member that is null says where null may stand for an absent property.
pub fn setting_examples()
    ensures { SettingExamples }
{}

/// Which texts are dates and date-times.
pub fn date_examples()
    ensures { DateExamples }
{}

/// Which texts are addresses.
pub fn address_examples()
    ensures { AddressExamples }
{}

/// Which texts are UUIDs.
pub fn uuid_examples()
    ensures { UuidExamples }
{}

/// Which documents are guarded.
pub fn guarded_examples()
    ensures { GuardedExamples }
{}
