//! What is said of the items below the item of a schema.
ghost use Rattle.std.specs.Prelude.{◌≡◌, ◌++◌, is_none, map, option_map, string_bytes, OnOk};
ghost use Rattle.syntax_trees.specs.Item.{field_view, item_view};
ghost use Rattle.schema_defs.specs.Schema.{schemas};
ghost use Rattle.schema_types.specs.View.{array_view, items_view, lists_of, maybe_view, members_view, named_of, object_view, places_of as places_in, properties_view, schema_view, schemas_view};
ghost use Rattle.model_defs.specs.Types.{item_type};
ghost use Rattle.value_types.specs.ShapeView.{type_in, types_in};
ghost use Rattle.module_texts.specs.Docs.{doc_view};
ghost use Rattle.item_docs.specs.Forms.{field_types};
ghost use Rattle.item_docs.specs.FormView.{form_view};
ghost use Rattle.item_docs.specs.Nested.{doc_if_any, doc_of_item, docs_at, docs_below, docs_in_all, docs_in_lists, docs_in_maybe, docs_in_members, docs_in_places, docs_in_properties, each_of, fields_of, keeps_parts, members_of, own_docs, places_of, where_there};

use crate::forms::{Form, bare_item};
use crate::said::said_of_object;
use crate::table::Items;
use module_texts::ItemDoc;
use schema_types::{ArrayValidation, Items as ItemSchemas, ObjectValidation, Schema, SchemaObject};
use std::alloc::{AllocError, Global};
use std::collections::BTreeMap;
use syntax_trees::{Field, Ty};

// ---- the parts of a form

fn each_of(form: Form<'_>) -> Option<&Ty>
    ensures { option_map (λ t. type_in t.now) result ≡ each_of (form_view form.entry) }
{
    match form {
        Form::Each(ty) => Some(ty),
        Form::Places(_) => None,
        Form::Members(_) => None,
        Form::Fields(_) => None,
        Form::Other => None,
    }
}

fn places_of(form: Form<'_>) -> &[Ty]
    ensures { types_in result.now ≡ places_of (form_view form.entry) }
{
    match form {
        Form::Each(_) => &[],
        Form::Places(tys) => tys,
        Form::Members(_) => &[],
        Form::Fields(_) => &[],
        Form::Other => &[],
    }
}

fn members_of(form: Form<'_>) -> Option<&Ty>
    ensures { option_map (λ t. type_in t.now) result ≡ members_of (form_view form.entry) }
{
    match form {
        Form::Each(_) => None,
        Form::Places(_) => None,
        Form::Members(ty) => Some(ty),
        Form::Fields(_) => None,
        Form::Other => None,
    }
}

fn fields_of(form: Form<'_>) -> &[Field]
    ensures { field_types (map field_view result.now) ≡ fields_of (form_view form.entry) }
{
    match form {
        Form::Each(_) => &[],
        Form::Places(_) => &[],
        Form::Members(_) => &[],
        Form::Fields(fields) => fields,
        Form::Other => &[],
    }
}

// ---- of the schema alone

fn is_absent(reference: &Option<String>) -> bool
    ensures { result ≡ is_none (option_map string_bytes reference.now) }
{
    match reference {
        Some(_) => false,
        None => true,
    }
}

// Whether there is no reference, and no subschema that judges the same value.
fn keeps_parts(object: &SchemaObject) -> bool
    ensures { result ≡ keeps_parts (object_view object.now) }
{
    let same = match &object.subschemas {
        Some(_) => false,
        None => true,
    };
    is_absent(&object.reference) && same
}

// A text is added, unless it is empty.
fn push_if_any(
    alloc: Global,
    docs: &mut Vec<ItemDoc>,
    item: &str,
    text: String,
) -> Result<(), AllocError>
    ensures { OnOk result (map doc_view docs.new.items ≡ map doc_view docs.old.items ++ doc_if_any item.now (string_bytes text)) }
{
    if text.as_str() == "" {
        return Ok(());
    }
    let item = String::from_str(alloc, item)?;
    docs.push(ItemDoc { item, text })?;
    Ok(())
}

fn push_of_item(
    alloc: Global,
    docs: &mut Vec<ItemDoc>,
    item: &str,
    object: &SchemaObject,
) -> Result<(), AllocError>
    ensures { OnOk result (map doc_view docs.new.items ≡ map doc_view docs.old.items ++ doc_of_item (Some item.now) (object_view object.now)) }
{
    let text = said_of_object(alloc, item, object)?;
    push_if_any(alloc, docs, item, text)?;
    Ok(())
}

fn push_own(
    alloc: Global,
    docs: &mut Vec<ItemDoc>,
    ty: &Ty,
    object: &SchemaObject,
) -> Result<(), AllocError>
    ensures { OnOk result (map doc_view docs.new.items ≡ map doc_view docs.old.items ++ own_docs (type_in ty.now) (object_view object.now)) }
{
    match bare_item(ty) {
        Some(item) => push_of_item(alloc, docs, item, object),
        None => Ok(()),
    }
}

// ---- below

/// Adds what is said of the items of what a schema was converted to, which has the type, and below. Fails where memory runs out.
#[cycle(nested)]
pub(crate) fn push_at<'a>(
    alloc: Global,
    items: &Items<'a>,
    docs: &mut Vec<ItemDoc>,
    schema: &Schema,
    ty: &'a Ty,
) -> Result<(), AllocError>
    ensures { OnOk result (map doc_view docs.new.items ≡ map doc_view docs.old.items ++ docs_at (map item_view items.now.items.now) (schema_view schema.now) (type_in ty.now)) }
{
    match schema {
        Schema::Bool(_) => Ok(()),
        Schema::Object(object) => push_object(alloc, items, docs, object, ty),
    }
}

#[cycle(nested)]
fn push_object<'a>(
    alloc: Global,
    items: &Items<'a>,
    docs: &mut Vec<ItemDoc>,
    object: &SchemaObject,
    ty: &'a Ty,
) -> Result<(), AllocError>
    ensures { OnOk result (map doc_view docs.new.items ≡ map doc_view docs.old.items ++ docs_at (map item_view items.now.items.now) (object_view object.now) (type_in ty.now)) }
{
    if !keeps_parts(object) {
        return Ok(());
    }
    push_own(alloc, docs, ty, object)?;
    push_lists(alloc, items, docs, &object.array, items.form(ty))?;
    push_named(alloc, items, docs, &object.object, items.form(ty))?;
    Ok(())
}

/// Adds what is said below a schema that was converted to the item. Fails where memory runs out.
pub(crate) fn push_below<'a>(
    alloc: Global,
    items: &Items<'a>,
    docs: &mut Vec<ItemDoc>,
    schema: &Schema,
    item: &str,
) -> Result<(), AllocError>
    ensures { OnOk result (map doc_view docs.new.items ≡ map doc_view docs.old.items ++ docs_below (map item_view items.now.items.now) (schema_view schema.now) (item_type item.now)) }
{
    match schema {
        Schema::Bool(_) => Ok(()),
        Schema::Object(object) => push_below_object(alloc, items, docs, object, item),
    }
}

#[tactic(auto, using(crate::proofs::Added::below_docs))]
fn push_below_object<'a>(
    alloc: Global,
    items: &Items<'a>,
    docs: &mut Vec<ItemDoc>,
    object: &SchemaObject,
    item: &str,
) -> Result<(), AllocError>
    ensures { OnOk result (map doc_view docs.new.items ≡ map doc_view docs.old.items ++ docs_below (map item_view items.now.items.now) (object_view object.now) (item_type item.now)) }
{
    if !keeps_parts(object) {
        return Ok(());
    }
    push_lists(alloc, items, docs, &object.array, items.form_of_item(item))?;
    push_named(alloc, items, docs, &object.object, items.form_of_item(item))?;
    Ok(())
}

#[cycle(nested)]
fn push_lists<'a>(
    alloc: Global,
    items: &Items<'a>,
    docs: &mut Vec<ItemDoc>,
    lists: &Option<ArrayValidation>,
    form: Form<'a>,
) -> Result<(), AllocError>
    ensures { OnOk result (map doc_view docs.new.items ≡ map doc_view docs.old.items ++ docs_in_lists (map item_view items.now.items.now) (lists_of (option_map array_view lists.now)) (form_view form.entry)) }
{
    match lists {
        Some(lists) => push_array(alloc, items, docs, lists, form),
        None => Ok(()),
    }
}

#[cycle(nested)]
fn push_array<'a>(
    alloc: Global,
    items: &Items<'a>,
    docs: &mut Vec<ItemDoc>,
    lists: &ArrayValidation,
    form: Form<'a>,
) -> Result<(), AllocError>
    ensures { OnOk result (map doc_view docs.new.items ≡ map doc_view docs.old.items ++ docs_in_lists (map item_view items.now.items.now) (array_view lists.now) (form_view form.entry)) }
{
    push_items(alloc, items, docs, &lists.items, form)
}

#[cycle(nested)]
fn push_items<'a>(
    alloc: Global,
    items: &Items<'a>,
    docs: &mut Vec<ItemDoc>,
    schemas: &Option<ItemSchemas>,
    form: Form<'a>,
) -> Result<(), AllocError>
    ensures { OnOk result (map doc_view docs.new.items ≡ map doc_view docs.old.items ++ docs_in_places (map item_view items.now.items.now) (places_in (option_map items_view schemas.now)) (form_view form.entry)) }
{
    match schemas {
        Some(schemas) => push_places(alloc, items, docs, schemas, form),
        None => Ok(()),
    }
}

#[cycle(nested)]
fn push_places<'a>(
    alloc: Global,
    items: &Items<'a>,
    docs: &mut Vec<ItemDoc>,
    schemas: &ItemSchemas,
    form: Form<'a>,
) -> Result<(), AllocError>
    ensures { OnOk result (map doc_view docs.new.items ≡ map doc_view docs.old.items ++ docs_in_places (map item_view items.now.items.now) (items_view schemas.now) (form_view form.entry)) }
{
    match schemas {
        ItemSchemas::One(schema) => push_if_there(alloc, items, docs, schema, each_of(form)),
        ItemSchemas::Many(list) => push_all(alloc, items, docs, list, places_of(form)),
    }
}

#[cycle(nested)]
fn push_named<'a>(
    alloc: Global,
    items: &Items<'a>,
    docs: &mut Vec<ItemDoc>,
    members: &Option<ObjectValidation>,
    form: Form<'a>,
) -> Result<(), AllocError>
    ensures { OnOk result (map doc_view docs.new.items ≡ map doc_view docs.old.items ++ docs_in_members (map item_view items.now.items.now) (named_of (option_map members_view members.now)) (form_view form.entry)) }
{
    match members {
        Some(members) => push_members(alloc, items, docs, members, form),
        None => Ok(()),
    }
}

#[cycle(nested)]
#[tactic(auto, using(crate::proofs::Added::assoc))]
fn push_members<'a>(
    alloc: Global,
    items: &Items<'a>,
    docs: &mut Vec<ItemDoc>,
    members: &ObjectValidation,
    form: Form<'a>,
) -> Result<(), AllocError>
    ensures { OnOk result (map doc_view docs.new.items ≡ map doc_view docs.old.items ++ docs_in_members (map item_view items.now.items.now) (members_view members.now) (form_view form.entry)) }
{
    push_properties(alloc, items, docs, &members.properties, fields_of(form))?;
    push_maybe(
        alloc,
        items,
        docs,
        &members.additional_properties,
        members_of(form),
    )?;
    Ok(())
}

#[cycle(nested)]
fn push_all<'a>(
    alloc: Global,
    items: &Items<'a>,
    docs: &mut Vec<ItemDoc>,
    list: &Vec<Schema>,
    tys: &'a [Ty],
) -> Result<(), AllocError>
    ensures { OnOk result (map doc_view docs.new.items ≡ map doc_view docs.old.items ++ docs_in_all (map item_view items.now.items.now) (schemas (schemas_view list.now.items)) (types_in tys.now)) }
{
    let mut left = tys;
    for schema in list {
        let Some((ty, rest)) = left.split_first() else {
            return Ok(());
        };
        push_at(alloc, items, docs, schema, ty)?;
        left = rest;
    }
    Ok(())
}

#[cycle(nested)]
fn push_properties<'a>(
    alloc: Global,
    items: &Items<'a>,
    docs: &mut Vec<ItemDoc>,
    properties: &BTreeMap<String, Schema>,
    fields: &'a [Field],
) -> Result<(), AllocError>
    ensures { OnOk result (map doc_view docs.new.items ≡ map doc_view docs.old.items ++ docs_in_properties (map item_view items.now.items.now) (properties_view properties.now.entries) (field_types (map field_view fields.now))) }
{
    let mut left = fields;
    for (_, schema) in properties.iter() {
        let Some((field, rest)) = left.split_first() else {
            return Ok(());
        };
        push_at(alloc, items, docs, schema, &field.ty)?;
        left = rest;
    }
    Ok(())
}

#[cycle(nested)]
fn push_maybe<'a>(
    alloc: Global,
    items: &Items<'a>,
    docs: &mut Vec<ItemDoc>,
    schema: &Option<Box<Schema>>,
    ty: Option<&'a Ty>,
) -> Result<(), AllocError>
    ensures { OnOk result (map doc_view docs.new.items ≡ map doc_view docs.old.items ++ docs_in_maybe (map item_view items.now.items.now) (maybe_view schema.now) (option_map (λ t. type_in t.now) ty.entry)) }
{
    match (schema, ty) {
        (Some(schema), Some(ty)) => push_at(alloc, items, docs, schema, ty),
        (Some(_), None) => Ok(()),
        (None, Some(_)) => Ok(()),
        (None, None) => Ok(()),
    }
}

#[cycle(nested)]
fn push_if_there<'a>(
    alloc: Global,
    items: &Items<'a>,
    docs: &mut Vec<ItemDoc>,
    schema: &Box<Schema>,
    ty: Option<&'a Ty>,
) -> Result<(), AllocError>
    ensures { OnOk result (map doc_view docs.new.items ≡ map doc_view docs.old.items ++ where_there (docs_at (map item_view items.now.items.now) (schema_view schema.now.value)) (option_map (λ t. type_in t.now) ty.entry)) }
{
    match ty {
        Some(ty) => push_at(alloc, items, docs, schema, ty),
        None => Ok(()),
    }
}
