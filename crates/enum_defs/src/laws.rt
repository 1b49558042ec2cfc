//! What holds of shapes and kinds: each law is the contract of a function that does nothing.

ghost use Rattle.enum_defs.specs.Laws.{KindsAreSound, NullFreeIsSound, ExclusiveIsSound, NullSchemasAreNull, ConstantTextsAreTexts, SpareReferencesOpenNothing, KindsUnfold, ReferencesLeadToTheEnd};

/// Each value that a schema admits is of a kind that the schema leaves open.
pub fn kinds_are_sound()
    ensures { KindsAreSound }
{}

/// A null-free schema does not admit null.
pub fn null_free_is_sound()
    ensures { NullFreeIsSound }
{}

/// Of exclusive schemas at most one admits a value.
pub fn exclusive_is_sound()
    ensures { ExclusiveIsSound }
{}

/// A null schema admits null alone.
pub fn null_schemas_are_null()
    ensures { NullSchemasAreNull }
{}

/// A constant text admits that text alone.
pub fn constant_texts_are_texts()
    ensures { ConstantTextsAreTexts }
{}

/// In a guarded document no more references need be followed for the kinds of a schema than admission follows.
pub fn spare_references_open_nothing()
    ensures { SpareReferencesOpenNothing }
{}

/// In a guarded document a reference leaves open what its target does.
pub fn kinds_unfold()
    ensures { KindsUnfold }
{}

/// In a guarded document references alone lead to what is no reference alone.
pub fn references_lead_to_the_end()
    ensures { ReferencesLeadToTheEnd }
{}
