//! What is left of an object once its properties are.
ghost use Rattle.std.specs.Prelude.{◌≡◌, [], true};
ghost use Rattle.schema_defs.specs.Schema.{no_properties};
ghost use Rattle.schema_types.specs.View.{members_view, object_view, properties_view, schema_view};
ghost use Rattle.merge_defs.specs.Outcome.{answer, mapped};
ghost use Rattle.merge_parts.specs.View.{notes_view};
ghost use Rattle.merge_steps.specs.Ends.{Ends};
ghost use Rattle.merge_members.specs.Plans.{gathered_outcome, maybe_members, properties_in};
ghost use Rattle.merge_less.specs.Taking.{putting, with_new, with_properties as with_properties_of};

use merge_members::{Gathered, all_gathered};
use merge_parts::MergeNote;
use merge_steps::Stop;
use schema_types::{ObjectValidation, Schema, SchemaObject, as_schema};
use std::alloc::Global;
use std::collections::BTreeMap;

#[tactic(auto, using(crate::proofs::Putting::members_put))]
fn with_new_properties(
    members: ObjectValidation,
    properties: BTreeMap<String, Schema>,
) -> ObjectValidation
    ensures { members_view result ≡ with_new (properties_view properties.entries) (members_view members) }
{
    let ObjectValidation {
        max_properties,
        min_properties,
        required,
        properties: _properties,
        pattern_properties,
        additional_properties,
        property_names,
    } = members;
    ObjectValidation {
        max_properties,
        min_properties,
        required,
        properties,
        pattern_properties,
        additional_properties,
        property_names,
    }
}

// Members with these properties; where there are none, members stay as they are.
fn put(
    members: Option<ObjectValidation>,
    properties: BTreeMap<String, Schema>,
) -> Option<ObjectValidation>
    ensures { maybe_members result ≡ putting (properties_view properties.entries) (maybe_members members) }
{
    if properties.is_empty() {
        return members;
    }
    match members {
        None => None,
        Some(members) => Some(with_new_properties(members, properties)),
    }
}

#[tactic(auto, using(crate::proofs::Putting::object_put))]
fn with_properties(object: SchemaObject, properties: BTreeMap<String, Schema>) -> SchemaObject
    ensures { object_view result ≡ with_properties_of (object_view object) (properties_view properties.entries) }
{
    let SchemaObject {
        title,
        description,
        default,
        const_value,
        types,
        format,
        enum_values,
        subschemas,
        number,
        string,
        array,
        object: members,
        reference,
        walk,
    } = object;
    let members = put(members, properties);
    SchemaObject {
        title,
        description,
        default,
        const_value,
        types,
        format,
        enum_values,
        subschemas,
        number,
        string,
        array,
        object: members,
        reference,
        walk,
    }
}

/// The object with the properties that are left, or never where one that is required is `false`.
pub fn left_of(
    alloc: Global,
    notes: &mut Vec<MergeNote>,
    object: SchemaObject,
    gathered: Gathered,
) -> Result<Schema, Stop>
    ensures { Ends schema_view (notes_view notes.old.items) (notes_view notes.new.items) (mapped (with_properties_of (object_view object)) (gathered_outcome true gathered.clashes (properties_in gathered) (answer [] no_properties))) result }
{
    let properties = all_gathered(notes, true, gathered)?;
    let boxed = Box::new(alloc, with_properties(object, properties))?;
    Ok(as_schema(boxed))
}
