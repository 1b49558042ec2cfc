//! Worked examples of merges: each group is the contract of a function that does nothing.

ghost use Rattle.merge_defs.specs.Examples.{LeafExamples, ListExamples, MemberExamples, SubschemaExamples, LessExamples, NullExamples};

/// Booleans, types, formats, numbers, texts and listed values.
pub fn leaf_examples()
    ensures { LeafExamples }
{}

/// The keywords of lists.
pub fn list_examples()
    ensures { ListExamples }
{}

/// The keywords of members.
pub fn member_examples()
    ensures { MemberExamples }
{}

/// References, and allOf, not, anyOf and oneOf.
pub fn subschema_examples()
    ensures { SubschemaExamples }
{}

/// What is left where a schema is taken away.
pub fn less_examples()
    ensures { LessExamples }
{}

/// Where null may stand for an absent member.
pub fn null_examples()
    ensures { NullExamples }
{}
