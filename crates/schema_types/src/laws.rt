//! What holds of the definitions here: each law is the contract of a function that does nothing.

ghost use Rattle.schema_types.specs.Laws.{ValidationIsShallow, TargetsStand};

/// A value that `value_validate` refuses is refused by the schema, whatever the document and the texts relations.
pub fn validation_is_shallow()
    ensures { ValidationIsShallow }
{}

/// What `Document::target` finds is what `Document::schema_at` finds at the target's location.
pub fn targets_stand()
    ensures { TargetsStand }
{}
