//! Object shapes: schemas of type object that say no more than which members there are.
ghost use Rattle.std.specs.Prelude.{◌≡◌, map, option_map, string_bytes};
ghost use Rattle.std.specs.List.{list_all};
ghost use Rattle.schema_defs.specs.Layer.{property_at};
ghost use Rattle.schema_types.specs.View.{schema_view, members_view, maybe_view, named_of, properties_view};
ghost use Rattle.enum_defs.specs.Words.{is_name, names_of, given_schema, props_of, required_of};
ghost use Rattle.enum_defs.specs.Shapes.{object_shape as object_shape_of, is_object_alone as is_object_alone_of, members_of, shape_of as shape_of_in, closedness as closedness_of, closed_by as closed_by_in, constant_at, is_required as is_required_of, property_names};
ghost use Rattle.enum_shapes.specs.View.{shape_view};
ghost use Rattle.enum_shapes.specs.Here.{boolean_in, is_object_typed_in, is_bare_in, is_unruled_in, has_no_pattern_in, is_uncounted_in, requires_named_in, rest_in, has_none};

use crate::keyword::{constant_text, has_type};
use schema_defs::InstanceType;
use schema_types::{ObjectValidation, Schema};
use std::collections::{BTreeMap, BTreeSet};

/// An object shape: the keywords of members, where one stands, and whether members that aren't named are refused.
#[derive(Clone, Copy)]
pub struct ObjectShape<'s> {
    pub object: Option<&'s ObjectValidation>,
    pub closed: bool,
}

fn is_object_typed(schema: &Schema) -> bool
    ensures { result ≡ is_object_typed_in (schema_view schema.now) }
{
    match schema {
        Schema::Bool(_) => false,
        Schema::Object(object) => {
            has_type(&object.types, InstanceType::Object) && object.array.is_none()
        }
    }
}

fn is_bare(schema: &Schema) -> bool
    ensures { result ≡ is_bare_in (schema_view schema.now) }
{
    match schema {
        Schema::Bool(_) => false,
        Schema::Object(object) => {
            object.enum_values.is_none()
                && object.const_value.is_none()
                && object.reference.is_none()
                && object.subschemas.is_none()
        }
    }
}

/// Whether a schema is an object of keywords of which none is of numbers, of texts or `format`. It takes no memory.
pub fn is_unruled(schema: &Schema) -> bool
    ensures { result ≡ is_unruled_in (schema_view schema.now) }
{
    match schema {
        Schema::Bool(_) => false,
        Schema::Object(object) => {
            object.format.is_none() && object.number.is_none() && object.string.is_none()
        }
    }
}

#[tactic(auto, using(crate::proofs::Parts::is_object_alone_parts))]
fn is_object_alone(schema: &Schema) -> bool
    ensures { result ≡ is_object_alone_of (schema_view schema.now) }
{
    is_object_typed(schema) && is_bare(schema) && is_unruled(schema)
}

fn boolean_of(schema: &Schema) -> Option<bool>
    ensures { result ≡ boolean_in (schema_view schema.now) }
{
    match schema {
        Schema::Bool(b) => Some(*b),
        Schema::Object(_) => None,
    }
}

fn closed_by(rest: &Option<Box<Schema>>) -> Option<bool>
    ensures { result ≡ closed_by_in (maybe_view rest.now) }
{
    match rest {
        None => Some(false),
        Some(schema) => match boolean_of(schema) {
            Some(open) => Some(!open),
            None => None,
        },
    }
}

fn has_property(properties: &BTreeMap<String, Schema>, name: &str) -> bool
    ensures { result ≡ is_name name.now (names_of (properties_view properties.now.entries)) }
{
    properties.contains_key(name)
}

fn has_each(properties: &BTreeMap<String, Schema>, required: &BTreeSet<String>) -> bool
    ensures { result ≡ list_all (λ n. is_name n (names_of (properties_view properties.now.entries))) (map string_bytes required.now.keys) }
{
    for name in required.iter() {
        if !has_property(properties, name) {
            return false;
        }
    }
    true
}

fn has_no_pattern(members: &ObjectValidation) -> bool
    ensures { result ≡ has_no_pattern_in (members_view members.now) }
{
    is_without(&members.pattern_properties) && members.property_names.is_none()
}

fn is_uncounted(members: &ObjectValidation) -> bool
    ensures { result ≡ is_uncounted_in (members_view members.now) }
{
    members.max_properties.is_none() && members.min_properties.is_none()
}

fn requires_named(members: &ObjectValidation) -> bool
    ensures { result ≡ requires_named_in (members_view members.now) }
{
    has_each(&members.properties, &members.required)
}

fn rest_of(members: &ObjectValidation) -> Option<bool>
    ensures { result ≡ rest_in (members_view members.now) }
{
    closed_by(&members.additional_properties)
}

// Whether members are refused that aren't named, where the keywords of members are those of an object shape.
#[tactic(auto, using(crate::proofs::Parts::closedness_parts))]
fn closedness(members: &ObjectValidation) -> Option<bool>
    ensures { result ≡ closedness_of (members_view members.now) }
{
    if has_no_pattern(members) && is_uncounted(members) && requires_named(members) {
        rest_of(members)
    } else {
        None
    }
}

fn is_without(properties: &BTreeMap<String, Schema>) -> bool
    ensures { result ≡ has_none (properties_view properties.now.entries) }
{
    properties.is_empty()
}

fn shape_of<'s>(object: &'s Option<ObjectValidation>) -> Option<ObjectShape<'s>>
    ensures { option_map shape_view result ≡ shape_of_in (named_of (option_map members_view object.now)) }
{
    match object {
        None => Some(ObjectShape {
            object: None,
            closed: false,
        }),
        Some(members) => match closedness(members) {
            Some(closed) => Some(ObjectShape {
                object: Some(members),
                closed,
            }),
            None => None,
        },
    }
}

fn shape_of_members<'s>(schema: &'s Schema) -> Option<ObjectShape<'s>>
    ensures { option_map shape_view result ≡ shape_of_in (members_of (schema_view schema.now)) }
{
    match schema {
        Schema::Bool(_) => Some(ObjectShape {
            object: None,
            closed: false,
        }),
        Schema::Object(object) => shape_of(&object.object),
    }
}

/// The object shape that a schema is: it has the type object, and of all other keywords but annotations at most
/// `properties`, a `required` that names properties alone, and `additionalProperties` as a boolean. It is closed where
/// that is `false`. It takes no memory.
pub fn object_shape<'s>(schema: &'s Schema) -> Option<ObjectShape<'s>>
    ensures { option_map shape_view result ≡ object_shape_of (schema_view schema.now) }
{
    if is_object_alone(schema) {
        shape_of_members(schema)
    } else {
        None
    }
}

// ---- properties

fn property_in<'s>(properties: &'s BTreeMap<String, Schema>, name: &str) -> Option<&'s Schema>
    ensures { option_map (λ s. schema_view s.now) result ≡ given_schema (property_at name.now (properties_view properties.now.entries)) }
{
    properties.get(name)
}

// The schema of a property.
pub(crate) fn property<'s>(shape: &ObjectShape<'s>, name: &str) -> Option<&'s Schema>
    ensures { option_map (λ s. schema_view s.now) result ≡ given_schema (property_at name.now (props_of (shape_view shape.now).object)) }
{
    match shape.object {
        Some(members) => property_in(&members.properties, name),
        None => None,
    }
}

/// The text of a property that is a constant text. It takes no memory.
#[tactic(auto, using(crate::proofs::Named::constant_found))]
pub fn constant_of<'s>(shape: &ObjectShape<'s>, name: &str) -> Option<&'s str>
    ensures { option_map (λ t. t.now) result ≡ constant_at name.now (shape_view shape.now) }
{
    match property(shape, name) {
        Some(schema) => constant_text(schema),
        None => None,
    }
}

pub(crate) fn requires_name(required: &BTreeSet<String>, name: &str) -> bool
    ensures { result ≡ is_name name.now (map string_bytes required.now.keys) }
{
    required.contains(name)
}

/// Whether a shape requires the property of a name. It takes no memory.
pub fn is_required(shape: &ObjectShape<'_>, name: &str) -> bool
    ensures { result ≡ is_required_of name.now (shape_view shape.now) }
{
    match shape.object {
        Some(members) => requires_name(&members.required, name),
        None => false,
    }
}

/// Whether a shape has a property of that name. It takes no memory.
pub fn is_named(shape: &ObjectShape<'_>, name: &str) -> bool
    ensures { result ≡ is_name name.now (property_names (shape_view shape.now)) }
{
    match shape.object {
        Some(members) => has_property(&members.properties, name),
        None => false,
    }
}
