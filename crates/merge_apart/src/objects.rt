//! Objects of which properties and required names stand aside.
ghost use Rattle.std.specs.Prelude.{◌≡◌, IfOk};
ghost use Rattle.schema_types.specs.View.{members_view, schema_view};
ghost use Rattle.merge_apart.specs.Aside.{properties_in, with_aside, with_members};
ghost use Rattle.merge_apart.specs.View.{aside_view, boxed_view, members_parted, parted_view, seen_properties, IsSettled};

use crate::apart::are_forms;
use crate::aside::{Aside, Parted};
use crate::names::{PartedNames, all_names, names_aside, names_back};
use crate::properties::{PartedProperties, all_properties, properties_aside, properties_back};
use schema_types::{ObjectValidation, Schema, SchemaObject, as_schema};
use std::alloc::{AllocError, Global};
use std::collections::{BTreeMap, BTreeSet};

// ---- keywords of members

/// Keywords of members, and what stands aside of them.
#[derive(Drop)]
pub(crate) struct PartedMembers {
    pub body: ObjectValidation,
    pub aside: Aside,
}

fn members_aside(
    alloc: Global,
    members: ObjectValidation,
    aside: Aside,
) -> Result<PartedMembers, AllocError>
    ensures whole { IfOk result (λ p. members_parted p ≡ with_members (aside_view aside) (members_view members)) }
    ensures settled { IsSettled aside → IfOk result (λ p. IsSettled p.aside) }
{
    let mut members = members;
    let Aside {
        properties,
        required,
    } = aside;
    let PartedProperties {
        body,
        aside: properties,
    } = properties_aside(alloc, members.properties, properties)?;
    let required = names_aside(members.required, required)?;
    members.properties = body;
    members.required = BTreeSet::new(alloc);
    Ok(PartedMembers {
        body: members,
        aside: Aside {
            properties,
            required,
        },
    })
}

fn members_back(
    members: ObjectValidation,
    aside: Aside,
    named: &BTreeMap<String, Schema>,
) -> Result<PartedMembers, AllocError>
    ensures whole { IfOk result (λ p. members_parted p ≡ with_members (aside_view aside) (members_view members)) }
    ensures settled { IsSettled aside → IfOk result (λ p. IsSettled p.aside) }
{
    let mut members = members;
    let Aside {
        properties,
        required,
    } = aside;
    let PartedProperties {
        body,
        aside: properties,
    } = properties_back(members.properties, properties, named)?;
    let PartedNames {
        body: names,
        aside: required,
    } = names_back(members.required, required, named)?;
    members.properties = body;
    members.required = names;
    Ok(PartedMembers {
        body: members,
        aside: Aside {
            properties,
            required,
        },
    })
}

fn all_members(members: ObjectValidation, aside: Aside) -> Result<ObjectValidation, AllocError>
    ensures { IfOk result (λ m. members_view m ≡ with_members (aside_view aside) (members_view members)) }
{
    let mut members = members;
    let Aside {
        properties,
        required,
    } = aside;
    members.properties = all_properties(members.properties, properties)?;
    members.required = all_names(members.required, required)?;
    Ok(members)
}

// ---- whole schemas

fn object_aside(
    alloc: Global,
    object: Box<SchemaObject>,
    aside: Aside,
) -> Result<Parted, AllocError>
    ensures whole { IfOk result (λ p. parted_view p ≡ with_aside (aside_view aside) (boxed_view object)) }
    ensures settled { IsSettled aside → IfOk result (λ p. IsSettled p.aside) }
{
    let mut object = object;
    match object.object.take() {
        None => Ok(Parted {
            body: as_schema(object),
            aside,
        }),
        Some(members) => {
            let PartedMembers { body, aside } = members_aside(alloc, members, aside)?;
            object.object = Some(body);
            Ok(Parted {
                body: as_schema(object),
                aside,
            })
        }
    }
}

// The properties of an object that may stand aside go there, and so do its required names.
fn put_aside(alloc: Global, body: Schema, aside: Aside) -> Result<Parted, AllocError>
    ensures whole { IfOk result (λ p. parted_view p ≡ with_aside (aside_view aside) (schema_view body)) }
    ensures settled { IsSettled aside → IfOk result (λ p. IsSettled p.aside) }
{
    match body {
        Schema::Bool(b) => Ok(Parted {
            body: Schema::Bool(b),
            aside,
        }),
        Schema::Object(object) => object_aside(alloc, object, aside),
    }
}

// The properties of a schema that is an object with some keyword of members.
fn properties_of(schema: &Schema) -> Option<&BTreeMap<String, Schema>>
    ensures { seen_properties result ≡ properties_in (schema_view schema.now) }
{
    match schema {
        Schema::Bool(_) => None,
        Schema::Object(object) => match &object.object {
            None => None,
            Some(members) => Some(&members.properties),
        },
    }
}

fn object_back(
    object: Box<SchemaObject>,
    aside: Aside,
    named: &BTreeMap<String, Schema>,
) -> Result<Parted, AllocError>
    ensures whole { IfOk result (λ p. parted_view p ≡ with_aside (aside_view aside) (boxed_view object)) }
    ensures settled { IsSettled aside → IfOk result (λ p. IsSettled p.aside) }
{
    let mut object = object;
    match object.object.take() {
        None => Ok(Parted {
            body: as_schema(object),
            aside,
        }),
        Some(members) => {
            let PartedMembers { body, aside } = members_back(members, aside, named)?;
            object.object = Some(body);
            Ok(Parted {
                body: as_schema(object),
                aside,
            })
        }
    }
}

// What stands aside under a name of the other schema's properties comes back.
fn take_back(parted: Parted, other: &Schema) -> Result<Parted, AllocError>
    ensures whole { IfOk result (λ p. parted_view p ≡ parted_view parted) }
    ensures settled { IsSettled parted.aside → IfOk result (λ p. IsSettled p.aside) }
{
    let Some(named) = properties_of(other) else {
        return Ok(parted);
    };
    let Parted { body, aside } = parted;
    match body {
        Schema::Bool(b) => Ok(Parted {
            body: Schema::Bool(b),
            aside,
        }),
        Schema::Object(object) => object_back(object, aside, named),
    }
}

/// Where both are of the forms that `merges_apart` asks for, all properties and required names go aside, but for properties that are `false` or
/// without their walk, and those that the other schema has as properties come back.
pub fn set_apart(alloc: Global, parted: Parted, other: &Schema) -> Result<Parted, AllocError>
    ensures whole { IfOk result (λ p. parted_view p ≡ parted_view parted) }
    ensures settled { IsSettled parted.aside → IfOk result (λ p. IsSettled p.aside) }
{
    if !are_forms(&parted.body, other) {
        return Ok(parted);
    }
    let Parted { body, aside } = parted;
    let parted = put_aside(alloc, body, aside)?;
    let parted = take_back(parted, other)?;
    Ok(parted)
}

fn whole_object(object: Box<SchemaObject>, aside: Aside) -> Result<Box<SchemaObject>, AllocError>
    ensures { IfOk result (λ o. boxed_view o ≡ with_aside (aside_view aside) (boxed_view object)) }
{
    let mut object = object;
    match object.object.take() {
        None => Ok(object),
        Some(members) => {
            object.object = Some(all_members(members, aside)?);
            Ok(object)
        }
    }
}

/// The whole: what stands aside comes back.
pub fn whole(parted: Parted) -> Result<Schema, AllocError>
    ensures { IfOk result (λ s. schema_view s ≡ parted_view parted) }
{
    let Parted { body, aside } = parted;
    match body {
        Schema::Bool(b) => Ok(Schema::Bool(b)),
        Schema::Object(object) => {
            let object = whole_object(object, aside)?;
            Ok(as_schema(object))
        }
    }
}
