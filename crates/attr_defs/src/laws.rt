//! Texts have the tokens that they are taken to have, and worked examples of what attributes say: each is the contract of a
//! function that does nothing.
ghost use Rattle.attr_defs.specs.Texts.{IsLexing, lexed};
ghost use Rattle.attr_defs.specs.Examples.{TagExamples, NameExamples, OddExamples, PlaceExamples, MemberExamples, RenameExamples};

/// `tag`, `content` and `untagged`, alone and together, on enums and structs.
pub fn tags_are_decided()
    ensures { TagExamples }
{}

/// Names and rules for names, of both halves and of one.
pub fn names_are_set()
    ensures { NameExamples }
{}

/// Attributes that are no list of metas, and metas that are malformed.
pub fn odd_attributes_are_told()
    ensures { OddExamples }
{}

/// Attributes on items that don't take them.
pub fn misplaced_attributes_are_told()
    ensures { PlaceExamples }
{}

/// Attributes of variants and fields.
pub fn members_are_read()
    ensures { MemberExamples }
{}

/// Names by rules, where attributes name a half or none.
pub fn names_follow_rules()
    ensures { RenameExamples }
{}

/// The tokens that a text is taken to have are its tokens, and it is taken to have none where it has a fault.
pub fn texts_have_their_tokens()
    ensures { IsLexing lexed }
{}
