//! What holds of admission and of reading: each law is the contract of a function that does nothing.

ghost use Rattle.schema_defs.specs.Laws.{AdmissionUnfolds, AnnotationsSayNothing, NoAnnotationMatters, KeywordsAreMembers, UnknownMembersSayNothing, FormatsAreLawful, PlacesDiffer, ChildrenStand, SpareReferencesSayNothing, GuardedIsDecided, LoopsAreUnguarded, DefinitionsRise, SettingsAreKept, WalksKnowNoSetting};

/// Admission of an object schema is what its keywords say, each in terms of what the schemas in it admit.
pub fn admission_unfolds()
    ensures { AdmissionUnfolds }
{}

/// Title, description, default and walk change nothing.
pub fn annotations_say_nothing()
    ensures { AnnotationsSayNothing }
{}

/// Annotations and walks change nothing, at whatever level they stand.
pub fn no_annotation_matters()
    ensures { NoAnnotationMatters }
{}

/// What stands at a keyword is the reading of the member of that name.
pub fn keywords_are_members()
    ensures { KeywordsAreMembers }
{}

/// A member that is no known keyword changes nothing.
pub fn unknown_members_say_nothing()
    ensures { UnknownMembersSayNothing }
{}

/// A setting changes nothing in what is read but the setting itself.
pub fn settings_are_kept()
    ensures { SettingsAreKept }
{}

/// Ipv4 texts and ipv6 texts are ip texts by the formats' definitions.
pub fn formats_are_lawful()
    ensures { FormatsAreLawful }
{}

/// Steps of different places differ.
pub fn places_differ()
    ensures { PlacesDiffer }
{}

/// A member of `allOf`, `anyOf` or `oneOf`, and the schema of `not`, stand where their steps lead to.
pub fn children_stand()
    ensures { ChildrenStand }
{}

/// In a guarded document references beyond those allowed change nothing, so those allowed are never spent.
pub fn spare_references_say_nothing()
    ensures { SpareReferencesSayNothing }
{}

/// The test on a document decides whether it is guarded.
pub fn guarded_is_decided()
    ensures { GuardedIsDecided }
{}

/// Whether a document is guarded, and which walks return, doesn't depend on its setting.
pub fn walks_know_no_setting()
    ensures { WalksKnowNoSetting }
{}

/// A walk at one value that returns to its first location shows that a document is not guarded.
pub fn loops_are_unguarded()
    ensures { LoopsAreUnguarded }
{}

/// The definitions of a document that was read stand in the order of their names, each name once.
pub fn definitions_rise()
    ensures { DefinitionsRise }
{}
