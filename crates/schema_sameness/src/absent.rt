//! Schemas with little or nothing in them.
ghost use Rattle.std.specs.Prelude.{◌≡◌, option_map};
ghost use Rattle.merge_defs.specs.Alike.{nothing_beside as nothing_beside_of, is_unconstrained as is_unconstrained_of};
ghost use Rattle.merge_defs.specs.Merge.{drops_siblings as drops_siblings_of};
ghost use Rattle.schema_types.specs.View.{schema_view, object_view};
ghost use Rattle.schema_sameness.specs.Parts.{plain_in, same_in, lists_in, named_in};

use schema_types::{Schema, SchemaObject};

/// Whether the object has neither types, listed values, a format, numbers nor texts.
pub fn nothing_beside(object: &SchemaObject) -> bool
    ensures { result ≡ nothing_beside_of (plain_in (object_view object.now)) }
{
    object.types.is_none()
        && object.enum_values.is_none()
        && object.const_value.is_none()
        && object.format.is_none()
        && object.number.is_none()
        && object.string.is_none()
}

/// Whether something stands in the object that is dropped beside a reference.
pub fn drops_siblings(object: &SchemaObject) -> bool
    ensures { let s = object_view object.now in result ≡ drops_siblings_of (plain_in s) (same_in s) (lists_in s) (named_in s) }
{
    let alone = nothing_beside(object)
        && object.subschemas.is_none()
        && object.array.is_none()
        && object.object.is_none();
    !alone
}

/// Whether the schema is `true`, or an object without a constraint.
pub fn is_unconstrained(schema: &Schema) -> bool
    ensures { result ≡ is_unconstrained_of (schema_view schema.now) }
{
    match schema {
        Schema::Bool(b) => *b,
        Schema::Object(object) => is_bare(object),
    }
}

// The same of an object.
pub(crate) fn is_bare(object: &SchemaObject) -> bool
    ensures { result ≡ is_unconstrained_of (object_view object.now) }
{
    object.reference.is_none() && !drops_siblings(object)
}
