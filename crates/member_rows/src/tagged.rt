//! Tags of the members, what stands beside them, and whether members are closed.
ghost use Rattle.std.specs.Prelude.{◌≡◌, not, [], map, option_map};
ghost use Rattle.std.specs.List.{list_any};
ghost use Rattle.schema_defs.specs.Layer.{property_at};
ghost use Rattle.schema_types.specs.View.{schema_view, properties_view, members_view, named_of};
ghost use Rattle.enum_defs.specs.Words.{props_of, given_schema};
ghost use Rattle.enum_defs.specs.Shapes.{members_of, constant_in, object_shape as object_shape_of};
ghost use Rattle.convert_defs.specs.Standing.{words_or};
ghost use Rattle.convert_defs.specs.Shapes.{tag_text as tag_text_of, has_tag_alone as has_tag_alone_of, less_property, is_no_property, properties_in};
ghost use Rattle.member_rows.specs.Members.{member_view, is_closed_shape};

use crate::members::Member;
use enum_shapes::{constant_text, object_shape};
use schema_types::{ObjectValidation, Schema};
use std::collections::BTreeMap;

fn is_closed(schema: &Schema) -> bool
    ensures { result ≡ is_closed_shape (object_shape_of (schema_view schema.now)) }
{
    match object_shape(schema) {
        Some(shape) => shape.closed,
        None => false,
    }
}

/// Whether some member is a closed object shape. It takes no memory.
pub fn some_closed(members: &[Member<'_>]) -> bool
    ensures { result ≡ list_any (λ m. is_closed_shape (object_shape_of m.1)) (map member_view members.now) }
{
    for member in members {
        if is_closed(member.schema) {
            return true;
        }
    }
    false
}

/// Whether some member is no closed object shape. It takes no memory.
pub fn some_open(members: &[Member<'_>]) -> bool
    ensures { result ≡ list_any (λ m. not (is_closed_shape (object_shape_of m.1))) (map member_view members.now) }
{
    for member in members {
        if !is_closed(member.schema) {
            return true;
        }
    }
    false
}

/// The keywords of members of a schema, where one stands. It takes no memory.
pub fn members_of_schema(schema: &Schema) -> Option<&ObjectValidation>
    ensures { named_of (option_map (λ m. members_view m.now) result) ≡ members_of (schema_view schema.now) }
{
    match schema {
        Schema::Bool(_) => None,
        Schema::Object(object) => given_members(&object.object),
    }
}

fn given_members(members: &Option<ObjectValidation>) -> Option<&ObjectValidation>
    ensures { option_map (λ m. members_view m.now) result ≡ option_map members_view members.now }
{
    members.as_ref()
}

fn property_in<'d>(properties: &'d BTreeMap<String, Schema>, name: &str) -> Option<&'d Schema>
    ensures { option_map (λ s. schema_view s.now) result ≡ given_schema (property_at name.now (properties_view properties.now.entries)) }
{
    properties.get(name)
}

fn text_of_tag<'d>(members: &'d ObjectValidation, tag: &str) -> Option<&'d str>
    ensures { option_map (λ t. t.now) result ≡ constant_in (property_at tag.now (props_of (members_view members.now))) }
{
    match property_in(&members.properties, tag) {
        Some(schema) => constant_text(schema),
        None => None,
    }
}

/// The text of the tag in a member, where it is constant. It takes no memory.
pub fn tag_text<'d>(schema: &'d Schema, tag: &str) -> Option<&'d str>
    ensures { words_or (option_map (λ t. t.now) result) [] ≡ tag_text_of tag.now (schema_view schema.now) }
{
    match members_of_schema(schema) {
        Some(members) => text_of_tag(members, tag),
        None => None,
    }
}

fn names_tag_alone(properties: &BTreeMap<String, Schema>, tag: &str) -> bool
    ensures { result ≡ is_no_property (less_property tag.now (properties_view properties.now.entries)) }
{
    for (name, _) in properties.iter() {
        if tag != name.as_str() {
            return false;
        }
    }
    true
}

fn has_no_other(schema: &Schema, tag: &str) -> bool
    ensures { result ≡ is_no_property (less_property tag.now (properties_in (schema_view schema.now))) }
{
    match members_of_schema(schema) {
        Some(members) => names_tag_alone(&members.properties, tag),
        None => true,
    }
}

/// Whether some member has the tag and no other property. It takes no memory.
pub fn has_tag_alone(members: &[Member<'_>], tag: &str) -> bool
    ensures { result ≡ list_any (has_tag_alone_of tag.now) (map member_view members.now) }
{
    for member in members {
        if has_no_other(member.schema, tag) {
            return true;
        }
    }
    false
}
