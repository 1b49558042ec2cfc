//! Copies of schemas.
ghost use Rattle.std.specs.Prelude.{◌≡◌, IfOk, option_map, map, string_bytes};
ghost use Rattle.json_value.specs.View.{kept_view};
ghost use Rattle.schema_types.specs.View.{types_view, texts_view, schema_view, object_view, subschemas_view, items_view, array_view, members_view, schemas_view, properties_view, maybe_view};

use crate::schema::{
    ArrayValidation, Items, ObjectValidation, Schema, SchemaObject, StringValidation, Subschemas,
    Types,
};
use locations::Walk;
use schema_defs::InstanceType;
use serde_json::Value;
use std::alloc::{AllocError, Global};
use std::collections::{BTreeMap, BTreeSet};

impl Schema {
    /// A copy, walks included.
    pub fn try_clone(&self, alloc: Global) -> Result<Schema, AllocError>
        ensures { IfOk result (λ s. schema_view s ≡ schema_view self.now) }
    {
        copy_schema(alloc, self)
    }
}

impl SchemaObject {
    /// A copy, walks included.
    pub fn try_clone(&self, alloc: Global) -> Result<SchemaObject, AllocError>
        ensures { IfOk result (λ o. object_view o ≡ object_view self.now) }
    {
        copy_object(alloc, self)
    }
}

impl StringValidation {
    /// A copy. Fails only for want of memory.
    pub fn try_clone(&self, alloc: Global) -> Result<StringValidation, AllocError>
        ensures { IfOk result (λ t. texts_view t ≡ texts_view self.now) }
    {
        let patterns = copy_list_of_texts(alloc, &self.patterns)?;
        Ok(StringValidation {
            max_length: self.max_length,
            min_length: self.min_length,
            patterns,
        })
    }
}

impl ArrayValidation {
    /// A copy, walks included.
    pub fn try_clone(&self, alloc: Global) -> Result<ArrayValidation, AllocError>
        ensures { IfOk result (λ a. array_view a ≡ array_view self.now) }
    {
        copy_array(alloc, self)
    }
}

impl ObjectValidation {
    /// A copy, walks included.
    pub fn try_clone(&self, alloc: Global) -> Result<ObjectValidation, AllocError>
        ensures { IfOk result (λ o. members_view o ≡ members_view self.now) }
    {
        copy_members(alloc, self)
    }
}

impl Subschemas {
    /// A copy, walks included.
    pub fn try_clone(&self, alloc: Global) -> Result<Subschemas, AllocError>
        ensures { IfOk result (λ s. subschemas_view s ≡ subschemas_view self.now) }
    {
        copy_subschemas(alloc, self)
    }
}

#[cycle(copy)]
fn copy_schema(alloc: Global, from: &Schema) -> Result<Schema, AllocError>
    ensures { IfOk result (λ s. schema_view s ≡ schema_view from.now) }
{
    match from {
        Schema::Bool(b) => Ok(Schema::Bool(*b)),
        Schema::Object(object) => {
            Ok(Schema::Object(Box::new(alloc, copy_object(alloc, object)?)?))
        }
    }
}

#[cycle(copy)]
fn copy_object(alloc: Global, from: &SchemaObject) -> Result<SchemaObject, AllocError>
    ensures { IfOk result (λ o. object_view o ≡ object_view from.now) }
{
    Ok(SchemaObject {
        title: copy_text(alloc, &from.title)?,
        description: copy_text(alloc, &from.description)?,
        default: copy_value(&from.default)?,
        const_value: copy_value(&from.const_value)?,
        types: copy_types(alloc, &from.types)?,
        format: copy_text(alloc, &from.format)?,
        enum_values: copy_values(alloc, &from.enum_values)?,
        subschemas: copy_maybe_subschemas(alloc, &from.subschemas)?,
        number: from.number,
        string: copy_string(alloc, &from.string)?,
        array: copy_maybe_array(alloc, &from.array)?,
        object: copy_maybe_members(alloc, &from.object)?,
        reference: copy_text(alloc, &from.reference)?,
        walk: copy_walk(alloc, &from.walk)?,
    })
}

fn copy_walk(alloc: Global, from: &Option<Walk>) -> Result<Option<Walk>, AllocError>
    ensures { IfOk result (λ w. w ≡ from.now) }
{
    match from {
        Some(walk) => Ok(Some(walk.try_clone(alloc)?)),
        None => Ok(None),
    }
}

fn copy_text(alloc: Global, from: &Option<String>) -> Result<Option<String>, AllocError>
    ensures { IfOk result (λ s. option_map string_bytes s ≡ option_map string_bytes from.now) }
{
    match from {
        Some(text) => Ok(Some(String::from_str(alloc, text)?)),
        None => Ok(None),
    }
}

fn copy_value(from: &Option<Value>) -> Result<Option<Value>, AllocError>
    ensures { IfOk result (λ v. option_map kept_view v ≡ option_map kept_view from.now) }
{
    match from {
        Some(value) => Ok(Some(value.clone()?)),
        None => Ok(None),
    }
}

/// Copies of values, in their order. Fails only for want of memory.
pub fn copy_list_of_values(alloc: Global, from: &Vec<Value>) -> Result<Vec<Value>, AllocError>
    ensures { IfOk result (λ v. map kept_view v.items ≡ map kept_view from.now.items) }
{
    let mut copies = Vec::with_capacity(alloc, from.len())?;
    for value in from {
        copies.push(value.clone()?)?;
    }
    Ok(copies)
}

fn copy_values(alloc: Global, from: &Option<Vec<Value>>) -> Result<Option<Vec<Value>>, AllocError>
    ensures { IfOk result (λ o. option_map (λ v. map kept_view v.items) o ≡ option_map (λ v. map kept_view v.items) from.now) }
{
    match from {
        Some(values) => Ok(Some(copy_list_of_values(alloc, values)?)),
        None => Ok(None),
    }
}

/// Copies of names of types, in their order. Fails only for want of memory.
pub fn copy_type_names(
    alloc: Global,
    from: &Vec<InstanceType>,
) -> Result<Vec<InstanceType>, AllocError>
    ensures { IfOk result (λ v. v.items ≡ from.now.items) }
{
    let mut copies = Vec::with_capacity(alloc, from.len())?;
    for name in from {
        copies.push(*name)?;
    }
    Ok(copies)
}

fn copy_types(alloc: Global, from: &Option<Types>) -> Result<Option<Types>, AllocError>
    ensures { IfOk result (λ t. option_map types_view t ≡ option_map types_view from.now) }
{
    match from {
        None => Ok(None),
        Some(Types::One(name)) => Ok(Some(Types::One(*name))),
        Some(Types::Many(names)) => Ok(Some(Types::Many(copy_type_names(alloc, names)?))),
    }
}

/// Copies of texts, in their order. Fails only for want of memory.
pub fn copy_list_of_texts(alloc: Global, from: &Vec<String>) -> Result<Vec<String>, AllocError>
    ensures { IfOk result (λ v. map string_bytes v.items ≡ map string_bytes from.now.items) }
{
    let mut copies = Vec::with_capacity(alloc, from.len())?;
    for text in from {
        copies.push(String::from_str(alloc, text)?)?;
    }
    Ok(copies)
}

fn copy_string(
    alloc: Global,
    from: &Option<StringValidation>,
) -> Result<Option<StringValidation>, AllocError>
    ensures { IfOk result (λ t. option_map texts_view t ≡ option_map texts_view from.now) }
{
    match from {
        Some(texts) => Ok(Some(texts.try_clone(alloc)?)),
        None => Ok(None),
    }
}

/// A copy of a set of names. Fails only for want of memory.
pub fn copy_names(alloc: Global, from: &BTreeSet<String>) -> Result<BTreeSet<String>, AllocError>
    ensures { IfOk result (λ s. map string_bytes s.keys ≡ map string_bytes from.now.keys) }
{
    let mut copies = BTreeSet::new(alloc);
    for name in from.iter() {
        let _ = copies.insert(String::from_str(alloc, name)?)?;
    }
    Ok(copies)
}

#[cycle(copy)]
fn copy_maybe_subschemas(
    alloc: Global,
    from: &Option<Subschemas>,
) -> Result<Option<Subschemas>, AllocError>
    ensures { IfOk result (λ s. option_map subschemas_view s ≡ option_map subschemas_view from.now) }
{
    match from {
        Some(subschemas) => Ok(Some(copy_subschemas(alloc, subschemas)?)),
        None => Ok(None),
    }
}

#[cycle(copy)]
fn copy_subschemas(alloc: Global, from: &Subschemas) -> Result<Subschemas, AllocError>
    ensures { IfOk result (λ s. subschemas_view s ≡ subschemas_view from.now) }
{
    let all_of = match &from.all_of {
        Some(schemas) => Some(copy_list(alloc, schemas)?),
        None => None,
    };
    let any_of = match &from.any_of {
        Some(schemas) => Some(copy_list(alloc, schemas)?),
        None => None,
    };
    let one_of = match &from.one_of {
        Some(schemas) => Some(copy_list(alloc, schemas)?),
        None => None,
    };
    Ok(Subschemas {
        all_of,
        any_of,
        one_of,
        not: copy_maybe(alloc, &from.not)?,
        conditional: from.conditional,
    })
}

#[cycle(copy)]
fn copy_maybe_array(
    alloc: Global,
    from: &Option<ArrayValidation>,
) -> Result<Option<ArrayValidation>, AllocError>
    ensures { IfOk result (λ a. option_map array_view a ≡ option_map array_view from.now) }
{
    match from {
        Some(array) => Ok(Some(copy_array(alloc, array)?)),
        None => Ok(None),
    }
}

#[cycle(copy)]
fn copy_array(alloc: Global, from: &ArrayValidation) -> Result<ArrayValidation, AllocError>
    ensures { IfOk result (λ a. array_view a ≡ array_view from.now) }
{
    Ok(ArrayValidation {
        items: copy_maybe_items(alloc, &from.items)?,
        additional_items: copy_maybe(alloc, &from.additional_items)?,
        contains: copy_maybe(alloc, &from.contains)?,
        max_items: from.max_items,
        min_items: from.min_items,
        unique_items: from.unique_items,
    })
}

#[cycle(copy)]
fn copy_maybe_items(alloc: Global, from: &Option<Items>) -> Result<Option<Items>, AllocError>
    ensures { IfOk result (λ i. option_map items_view i ≡ option_map items_view from.now) }
{
    match from {
        Some(Items::One(schema)) => {
            Ok(Some(Items::One(Box::new(alloc, copy_schema(alloc, schema)?)?)))
        }
        Some(Items::Many(schemas)) => Ok(Some(Items::Many(copy_list(alloc, schemas)?))),
        None => Ok(None),
    }
}

#[cycle(copy)]
fn copy_maybe_members(
    alloc: Global,
    from: &Option<ObjectValidation>,
) -> Result<Option<ObjectValidation>, AllocError>
    ensures { IfOk result (λ o. option_map members_view o ≡ option_map members_view from.now) }
{
    match from {
        Some(object) => Ok(Some(copy_members(alloc, object)?)),
        None => Ok(None),
    }
}

#[cycle(copy)]
fn copy_members(alloc: Global, from: &ObjectValidation) -> Result<ObjectValidation, AllocError>
    ensures { IfOk result (λ o. members_view o ≡ members_view from.now) }
{
    Ok(ObjectValidation {
        max_properties: from.max_properties,
        min_properties: from.min_properties,
        required: copy_names(alloc, &from.required)?,
        properties: copy_properties(alloc, &from.properties)?,
        pattern_properties: copy_properties(alloc, &from.pattern_properties)?,
        additional_properties: copy_maybe(alloc, &from.additional_properties)?,
        property_names: copy_maybe(alloc, &from.property_names)?,
    })
}

#[cycle(copy)]
fn copy_maybe(alloc: Global, from: &Option<Box<Schema>>) -> Result<Option<Box<Schema>>, AllocError>
    ensures { IfOk result (λ s. maybe_view s ≡ maybe_view from.now) }
{
    match from {
        Some(schema) => Ok(Some(Box::new(alloc, copy_schema(alloc, schema)?)?)),
        None => Ok(None),
    }
}

#[cycle(copy)]
fn copy_list(alloc: Global, from: &Vec<Schema>) -> Result<Vec<Schema>, AllocError>
    ensures { IfOk result (λ v. schemas_view v.items ≡ schemas_view from.now.items) }
{
    let mut copies = Vec::with_capacity(alloc, from.len())?;
    for schema in from {
        copies.push(copy_schema(alloc, schema)?)?;
    }
    Ok(copies)
}

#[cycle(copy)]
fn copy_properties(
    alloc: Global,
    from: &BTreeMap<String, Schema>,
) -> Result<BTreeMap<String, Schema>, AllocError>
    ensures { IfOk result (λ m. properties_view m.entries ≡ properties_view from.now.entries) }
{
    let mut copies = BTreeMap::new(alloc);
    for (name, schema) in from.iter() {
        let key = String::from_str(alloc, name)?;
        drop(copies.insert(key, copy_schema(alloc, schema)?)?);
    }
    Ok(copies)
}
