//! One value against one schema, and its parts against the schemas inside.
ghost use Rattle.std.specs.Prelude.{◌≡◌, ◌≤◌, IfOk, IsErrOf, option_map, string_bytes};
ghost use Rattle.std.specs.Option.{option_copied};
ghost use Rattle.schema_defs.specs.Faults.{Rises};
ghost use Rattle.serde_json.specs.View.{items_view as items_seen, members_view as members_seen};
ghost use Rattle.json_value.specs.Value.{list as list_value, object as object_value};
ghost use Rattle.json_value.specs.View.{items_of, members_of, kept_view};
ghost use Rattle.schema_defs.specs.Schema.{schemas as schemas_in};
ghost use Rattle.schema_defs.specs.Layer.{by_places as by_places_in, contains_agrees as contains_says, items_agree as items_say, lists_agree as lists_say, maybe, named_agree, parts_agree as parts_say, patterns_agree as patterns_say};
ghost use Rattle.schema_defs.specs.Admits.{admits as admits_in, admits_with, allowed as allowed_in, item_judges, parts_of};
ghost use Rattle.schema_types.specs.View.{array_view, items_view, lists_of, maybe_list_view, maybe_view, members_view, named_of, object_view, places_of, properties_view, same_of, schema_view, schemas_view, subschemas_view};
ghost use Rattle.schema_types.specs.DocumentView.{document_view};
ghost use Rattle.schema_defs.specs.Counts.{nodes as document_nodes, lists_nodes, maybe_nodes, maybe_list_nodes, named_nodes, places_nodes, properties_nodes, same_nodes, schema_nodes, schemas_nodes};
ghost use Rattle.schema_admission.specs.Judging.{admitted_count, list_agrees as list_says, maybe_seen, member_part, named_member, negation_agrees, reference_agrees, same_agrees};

use crate::list::{
    at_place, is_distinct, is_passed_over, property_unless, rules_agree, text_value, unless,
};
use crate::plain::{all_of, counted, either};
use crate::reference::allowed;
use crate::text::{has_any, plain_agrees};
use crate::wanted::{Wanted, is_enough};
use schema_texts::is_within;
use schema_tree::{TextFault, Texts};
use schema_types::{
    ArrayValidation, Document, Items, ObjectValidation, Schema, SchemaObject, Subschemas,
};
use serde_json::Value;
use serde_json::value::Map;
use std::alloc::Global;
use std::collections::BTreeMap;

// So many schemas may be asked inside one another. Values nest 127 deep at most.
const MOST_LEVELS: usize = 1000;

/// Whether the document admits the value (JSON Schema Draft 7): the value against the root, where as many references are
/// followed at one value as the document has definitions, and one more. It fails where memory runs out or too many schemas
/// are asked inside one another, or where the judge of texts failed, whose count of failures then rose.
pub fn admits<T: Texts>(
    alloc: Global,
    document: &Document,
    texts: &mut T,
    value: &Value,
) -> Result<bool, TextFault>
    ensures answer { IfOk result (λ b. b ≡ admits_in (T.relations texts.old) (document_view document.now) (kept_view value.now) (document_view document.now).root) }
    ensures keeps { T.relations texts.new ≡ T.relations texts.old }
    ensures failed { IsErrOf result TextFault.Failed → Rises (T.faults texts.old) (T.faults texts.new) }
    ensures counts { T.faults texts.old ≤ T.faults texts.new }
{
    let admitted = admits_part(alloc, document, MOST_LEVELS, texts, document.root(), value)?;
    Ok(admitted)
}

// A value, or a part of one, with all references still allowed.
#[cycle(judge)]
fn admits_part<T: Texts>(
    alloc: Global,
    document: &Document,
    levels: usize,
    texts: &mut T,
    schema: &Schema,
    value: &Value,
) -> Result<bool, TextFault>
    requires { schema_nodes (schema_view schema.now) ≤ document_nodes (document_view document.now) }
    ensures answer { IfOk result (λ b. b ≡ admits_in (T.relations texts.old) (document_view document.now) (kept_view value.now) (schema_view schema.now)) }
    ensures keeps { T.relations texts.new ≡ T.relations texts.old }
    ensures failed { IsErrOf result TextFault.Failed → Rises (T.faults texts.old) (T.faults texts.new) }
    ensures counts { T.faults texts.old ≤ T.faults texts.new }
{
    let left = allowed(alloc, document)?;
    let admitted = judge(alloc, document, levels, left, texts, schema, value)?;
    Ok(admitted)
}

// With `left` references still allowed at the value. Each way round leads through here, so that here the levels are counted.
#[cycle(judge)]
fn judge<T: Texts>(
    alloc: Global,
    document: &Document,
    levels: usize,
    left: usize,
    texts: &mut T,
    schema: &Schema,
    value: &Value,
) -> Result<bool, TextFault>
    requires within { schema_nodes (schema_view schema.now) ≤ document_nodes (document_view document.now) }
    requires spent { left ≤ allowed_in (document_view document.now) }
    ensures answer { IfOk result (λ b. b ≡ admits_with (T.relations texts.old) (document_view document.now) left (kept_view value.now) (schema_view schema.now)) }
    ensures keeps { T.relations texts.new ≡ T.relations texts.old }
    ensures failed { IsErrOf result TextFault.Failed → Rises (T.faults texts.old) (T.faults texts.new) }
    ensures counts { T.faults texts.old ≤ T.faults texts.new }
{
    if levels == 0 {
        return Err(TextFault::Memory);
    }
    match schema {
        Schema::Bool(admitted) => Ok(*admitted),
        Schema::Object(object) => {
            let admitted = judge_object(alloc, document, levels - 1, left, texts, object, value)?;
            Ok(admitted)
        }
    }
}

#[cycle(judge)]
fn judge_object<T: Texts>(
    alloc: Global,
    document: &Document,
    levels: usize,
    left: usize,
    texts: &mut T,
    object: &SchemaObject,
    value: &Value,
) -> Result<bool, TextFault>
    requires within { schema_nodes (object_view object.now) ≤ document_nodes (document_view document.now) }
    requires spent { left ≤ allowed_in (document_view document.now) }
    ensures answer { IfOk result (λ b. b ≡ admits_with (T.relations texts.old) (document_view document.now) left (kept_view value.now) (object_view object.now)) }
    ensures keeps { T.relations texts.new ≡ T.relations texts.old }
    ensures failed { IsErrOf result TextFault.Failed → Rises (T.faults texts.old) (T.faults texts.new) }
    ensures counts { T.faults texts.old ≤ T.faults texts.new }
{
    let plain = plain_agrees(texts, object, value)?;
    let reference = follow(
        alloc,
        document,
        levels,
        left,
        texts,
        &object.reference,
        value,
    )?;
    let parts = parts_agree(
        alloc,
        document,
        levels,
        texts,
        &object.array,
        &object.object,
        value,
    )?;
    let same = judge_same(
        alloc,
        document,
        levels,
        left,
        texts,
        &object.subschemas,
        value,
    )?;
    Ok(all_of(plain, reference, parts, same))
}

#[cycle(judge)]
fn follow<T: Texts>(
    alloc: Global,
    document: &Document,
    levels: usize,
    left: usize,
    texts: &mut T,
    reference: &Option<String>,
    value: &Value,
) -> Result<bool, TextFault>
    requires { left ≤ allowed_in (document_view document.now) }
    ensures answer { IfOk result (λ b. b ≡ reference_agrees (T.relations texts.old) (document_view document.now) left (kept_view value.now) (option_map string_bytes reference.now)) }
    ensures keeps { T.relations texts.new ≡ T.relations texts.old }
    ensures failed { IsErrOf result TextFault.Failed → Rises (T.faults texts.old) (T.faults texts.new) }
    ensures counts { T.faults texts.old ≤ T.faults texts.new }
{
    let Some(name) = reference else {
        return Ok(true);
    };
    if left == 0 {
        return Ok(false);
    }
    match document.target(name) {
        Some(schema) => {
            let admitted = judge(alloc, document, levels, left - 1, texts, schema, value)?;
            Ok(admitted)
        }
        None => Ok(false),
    }
}

#[cycle(judge)]
fn parts_agree<T: Texts>(
    alloc: Global,
    document: &Document,
    levels: usize,
    texts: &mut T,
    array: &Option<ArrayValidation>,
    object: &Option<ObjectValidation>,
    value: &Value,
) -> Result<bool, TextFault>
    requires lists { lists_nodes (lists_of (option_map array_view array.now)) ≤ document_nodes (document_view document.now) }
    requires members { named_nodes (named_of (option_map members_view object.now)) ≤ document_nodes (document_view document.now) }
    ensures answer { IfOk result (λ b. b ≡ parts_say (T.relations texts.old) (kept_view value.now)
        (parts_of (T.relations texts.old) (document_view document.now) (kept_view value.now)) (lists_of (option_map array_view array.now)) (named_of (option_map members_view object.now))) }
    ensures keeps { T.relations texts.new ≡ T.relations texts.old }
    ensures failed { IsErrOf result TextFault.Failed → Rises (T.faults texts.old) (T.faults texts.new) }
    ensures counts { T.faults texts.old ≤ T.faults texts.new }
{
    match (value, array, object) {
        (Value::Array(values), Some(array), _) => {
            let agrees = lists_agree(alloc, document, levels, texts, array, values)?;
            Ok(agrees)
        }
        (Value::Object(members), _, Some(object)) => {
            let agrees = members_agree(alloc, document, levels, texts, object, members)?;
            Ok(agrees)
        }
        _ => Ok(true),
    }
}

#[cycle(judge)]
fn judge_same<T: Texts>(
    alloc: Global,
    document: &Document,
    levels: usize,
    left: usize,
    texts: &mut T,
    subschemas: &Option<Subschemas>,
    value: &Value,
) -> Result<bool, TextFault>
    requires within { same_nodes (same_of (option_map subschemas_view subschemas.now)) ≤ document_nodes (document_view document.now) }
    requires spent { left ≤ allowed_in (document_view document.now) }
    ensures answer { IfOk result (λ b. b ≡ same_agrees (T.relations texts.old) (document_view document.now) left (kept_view value.now) (same_of (option_map subschemas_view subschemas.now))) }
    ensures keeps { T.relations texts.new ≡ T.relations texts.old }
    ensures failed { IsErrOf result TextFault.Failed → Rises (T.faults texts.old) (T.faults texts.new) }
    ensures counts { T.faults texts.old ≤ T.faults texts.new }
{
    let Some(lists) = subschemas else {
        return Ok(true);
    };
    let all = list_agrees(
        alloc,
        document,
        levels,
        left,
        texts,
        Wanted::All,
        &lists.all_of,
        value,
    )?;
    let any = list_agrees(
        alloc,
        document,
        levels,
        left,
        texts,
        Wanted::Any,
        &lists.any_of,
        value,
    )?;
    let one = list_agrees(
        alloc,
        document,
        levels,
        left,
        texts,
        Wanted::One,
        &lists.one_of,
        value,
    )?;
    let not = not_agrees(alloc, document, levels, left, texts, &lists.not, value)?;
    Ok(all_of(all, any, one, not))
}

#[cycle(judge)]
fn list_agrees<T: Texts>(
    alloc: Global,
    document: &Document,
    levels: usize,
    left: usize,
    texts: &mut T,
    wanted: Wanted,
    schemas: &Option<Vec<Schema>>,
    value: &Value,
) -> Result<bool, TextFault>
    requires within { maybe_list_nodes (maybe_list_view (option_map (λ v. v.items) schemas.now)) ≤ document_nodes (document_view document.now) }
    requires spent { left ≤ allowed_in (document_view document.now) }
    ensures answer { IfOk result (λ b. b ≡ list_says (T.relations texts.old) (document_view document.now) wanted left (kept_view value.now) (maybe_list_view (option_map (λ v. v.items) schemas.now))) }
    ensures keeps { T.relations texts.new ≡ T.relations texts.old }
    ensures failed { IsErrOf result TextFault.Failed → Rises (T.faults texts.old) (T.faults texts.new) }
    ensures counts { T.faults texts.old ≤ T.faults texts.new }
{
    let Some(schemas) = schemas else {
        return Ok(true);
    };
    let mut count = 0;
    for schema in schemas {
        let admitted = judge(alloc, document, levels, left, texts, schema, value)?;
        count = counted(count, admitted);
    }
    Ok(is_enough(wanted, count, schemas.len()))
}

#[cycle(judge)]
fn not_agrees<T: Texts>(
    alloc: Global,
    document: &Document,
    levels: usize,
    left: usize,
    texts: &mut T,
    not: &Option<Box<Schema>>,
    value: &Value,
) -> Result<bool, TextFault>
    requires within { maybe_nodes (maybe_view not.now) ≤ document_nodes (document_view document.now) }
    requires spent { left ≤ allowed_in (document_view document.now) }
    ensures answer { IfOk result (λ b. b ≡ negation_agrees (T.relations texts.old) (document_view document.now) left (kept_view value.now) (maybe_view not.now)) }
    ensures keeps { T.relations texts.new ≡ T.relations texts.old }
    ensures failed { IsErrOf result TextFault.Failed → Rises (T.faults texts.old) (T.faults texts.new) }
    ensures counts { T.faults texts.old ≤ T.faults texts.new }
{
    match not {
        Some(schema) => {
            let admitted = judge(alloc, document, levels, left, texts, schema, value)?;
            Ok(!admitted)
        }
        None => Ok(true),
    }
}

// A schema that may be missing.
#[cycle(judge)]
fn maybe_agrees<T: Texts>(
    alloc: Global,
    document: &Document,
    levels: usize,
    texts: &mut T,
    schema: Option<&Schema>,
    value: &Value,
) -> Result<bool, TextFault>
    requires { maybe_nodes (maybe_seen (option_copied schema)) ≤ document_nodes (document_view document.now) }
    ensures answer { IfOk result (λ b. b ≡ maybe (admits_in (T.relations texts.old) (document_view document.now) (kept_view value.now)) (maybe_seen (option_copied schema.entry))) }
    ensures keeps { T.relations texts.new ≡ T.relations texts.old }
    ensures failed { IsErrOf result TextFault.Failed → Rises (T.faults texts.old) (T.faults texts.new) }
    ensures counts { T.faults texts.old ≤ T.faults texts.new }
{
    match schema {
        Some(schema) => {
            let admitted = admits_part(alloc, document, levels, texts, schema, value)?;
            Ok(admitted)
        }
        None => Ok(true),
    }
}

#[cycle(judge)]
fn lists_agree<T: Texts>(
    alloc: Global,
    document: &Document,
    levels: usize,
    texts: &mut T,
    array: &ArrayValidation,
    values: &Vec<Value>,
) -> Result<bool, TextFault>
    requires { lists_nodes (array_view array.now) ≤ document_nodes (document_view document.now) }
    ensures answer { let xs = items_of (items_seen values.now.items) in
        IfOk result (λ b. b ≡ lists_say xs (item_judges (T.relations texts.old) (document_view document.now) xs) (array_view array.now)) }
    ensures keeps { T.relations texts.new ≡ T.relations texts.old }
    ensures failed { IsErrOf result TextFault.Failed → Rises (T.faults texts.old) (T.faults texts.new) }
    ensures counts { T.faults texts.old ≤ T.faults texts.new }
{
    let sized = is_within(array.min_items, array.max_items, values.len());
    let distinct = is_distinct(array.unique_items, values);
    let items = items_agree(
        alloc,
        document,
        levels,
        texts,
        &array.items,
        &array.additional_items,
        values,
    )?;
    let contains = contains_agrees(alloc, document, levels, texts, &array.contains, values)?;
    Ok(all_of(items, contains, sized, distinct))
}

#[cycle(judge)]
fn items_agree<T: Texts>(
    alloc: Global,
    document: &Document,
    levels: usize,
    texts: &mut T,
    items: &Option<Items>,
    rest: &Option<Box<Schema>>,
    values: &Vec<Value>,
) -> Result<bool, TextFault>
    requires places { places_nodes (places_of (option_map items_view items.now)) ≤ document_nodes (document_view document.now) }
    requires rest { maybe_nodes (maybe_view rest.now) ≤ document_nodes (document_view document.now) }
    ensures answer { IfOk result (λ b. b ≡ items_say (item_judges (T.relations texts.old) (document_view document.now) (items_of (items_seen values.now.items)))
        (places_of (option_map items_view items.now)) (maybe_view rest.now)) }
    ensures keeps { T.relations texts.new ≡ T.relations texts.old }
    ensures failed { IsErrOf result TextFault.Failed → Rises (T.faults texts.old) (T.faults texts.new) }
    ensures counts { T.faults texts.old ≤ T.faults texts.new }
{
    let Some(places) = items else {
        return Ok(true);
    };
    match places {
        Items::One(schema) => {
            let count = count_admitted(alloc, document, levels, texts, schema, values)?;
            Ok(count == values.len())
        }
        Items::Many(schemas) => {
            let agrees = by_places(alloc, document, levels, texts, schemas, rest, values)?;
            Ok(agrees)
        }
    }
}

#[cycle(judge)]
fn contains_agrees<T: Texts>(
    alloc: Global,
    document: &Document,
    levels: usize,
    texts: &mut T,
    contains: &Option<Box<Schema>>,
    values: &Vec<Value>,
) -> Result<bool, TextFault>
    requires { maybe_nodes (maybe_view contains.now) ≤ document_nodes (document_view document.now) }
    ensures answer { IfOk result (λ b. b ≡ contains_says (item_judges (T.relations texts.old) (document_view document.now) (items_of (items_seen values.now.items))) (maybe_view contains.now)) }
    ensures keeps { T.relations texts.new ≡ T.relations texts.old }
    ensures failed { IsErrOf result TextFault.Failed → Rises (T.faults texts.old) (T.faults texts.new) }
    ensures counts { T.faults texts.old ≤ T.faults texts.new }
{
    match contains {
        None => Ok(true),
        Some(schema) => {
            let count = count_admitted(alloc, document, levels, texts, schema, values)?;
            Ok(count > 0)
        }
    }
}

// How many of the values the schema admits.
#[cycle(judge)]
fn count_admitted<T: Texts>(
    alloc: Global,
    document: &Document,
    levels: usize,
    texts: &mut T,
    schema: &Schema,
    values: &Vec<Value>,
) -> Result<usize, TextFault>
    requires { schema_nodes (schema_view schema.now) ≤ document_nodes (document_view document.now) }
    ensures answer { IfOk result (λ n. n ≡ admitted_count (T.relations texts.old) (document_view document.now) (schema_view schema.now) (items_of (items_seen values.now.items))) }
    ensures keeps { T.relations texts.new ≡ T.relations texts.old }
    ensures failed { IsErrOf result TextFault.Failed → Rises (T.faults texts.old) (T.faults texts.new) }
    ensures counts { T.faults texts.old ≤ T.faults texts.new }
{
    let mut count = 0;
    for value in values {
        let admitted = admits_part(alloc, document, levels, texts, schema, value)?;
        count = counted(count, admitted);
    }
    Ok(count)
}

// The schemas bind by place, and `rest` binds what comes after them.
#[cycle(judge)]
fn by_places<T: Texts>(
    alloc: Global,
    document: &Document,
    levels: usize,
    texts: &mut T,
    schemas: &Vec<Schema>,
    rest: &Option<Box<Schema>>,
    values: &Vec<Value>,
) -> Result<bool, TextFault>
    requires places { schemas_nodes (schemas_in (schemas_view schemas.now.items)) ≤ document_nodes (document_view document.now) }
    requires rest { maybe_nodes (maybe_view rest.now) ≤ document_nodes (document_view document.now) }
    ensures answer { IfOk result (λ b. b ≡ by_places_in (item_judges (T.relations texts.old) (document_view document.now) (items_of (items_seen values.now.items)))
        (schemas_in (schemas_view schemas.now.items)) (maybe_view rest.now)) }
    ensures keeps { T.relations texts.new ≡ T.relations texts.old }
    ensures failed { IsErrOf result TextFault.Failed → Rises (T.faults texts.old) (T.faults texts.new) }
    ensures counts { T.faults texts.old ≤ T.faults texts.new }
{
    for (place, value) in values.iter().enumerate() {
        let schema = at_place(schemas, rest, place);
        if !maybe_agrees(alloc, document, levels, texts, schema, value)? {
            return Ok(false);
        }
    }
    Ok(true)
}

#[cycle(judge)]
fn members_agree<T: Texts>(
    alloc: Global,
    document: &Document,
    levels: usize,
    texts: &mut T,
    object: &ObjectValidation,
    members: &Map<String, Value>,
) -> Result<bool, TextFault>
    requires { named_nodes (members_view object.now) ≤ document_nodes (document_view document.now) }
    ensures answer { let ms = members_of (members_seen members.now.entries) in
        IfOk result (λ b. b ≡ named_agree (T.relations texts.old) ms (parts_of (T.relations texts.old) (document_view document.now) (object_value ms)) (members_view object.now)) }
    ensures keeps { T.relations texts.new ≡ T.relations texts.old }
    ensures failed { IsErrOf result TextFault.Failed → Rises (T.faults texts.old) (T.faults texts.new) }
    ensures counts { T.faults texts.old ≤ T.faults texts.new }
{
    if !rules_agree(object, members) {
        return Ok(false);
    }
    for (name, value) in members.iter() {
        if !member_agrees(alloc, document, levels, texts, object, name, value)? {
            return Ok(false);
        }
    }
    Ok(true)
}

#[cycle(judge)]
fn member_agrees<T: Texts>(
    alloc: Global,
    document: &Document,
    levels: usize,
    texts: &mut T,
    object: &ObjectValidation,
    name: &str,
    value: &Value,
) -> Result<bool, TextFault>
    requires { named_nodes (members_view object.now) ≤ document_nodes (document_view document.now) }
    ensures answer { IfOk result (λ b. b ≡ named_member (T.relations texts.old) (document_view document.now) (members_view object.now)
        (member_part (T.relations texts.old) (document_view document.now) name.now (kept_view value.now))) }
    ensures keeps { T.relations texts.new ≡ T.relations texts.old }
    ensures failed { IsErrOf result TextFault.Failed → Rises (T.faults texts.old) (T.faults texts.new) }
    ensures counts { T.faults texts.old ≤ T.faults texts.new }
{
    let passed = is_passed_over(document.setting(), &object.required, name, value);
    let property = property_unless(passed, &object.properties, name);
    let by_name = maybe_agrees(alloc, document, levels, texts, property, value)?;
    let patterns = &object.pattern_properties;
    let by_pattern = patterns_agree(alloc, document, levels, texts, patterns, name, value)?;
    let is_named = object.properties.contains_key(name);
    let matched = has_any(texts, patterns, name)?;
    let rest = unless(either(is_named, matched), &object.additional_properties);
    let by_rest = maybe_agrees(alloc, document, levels, texts, rest, value)?;
    let text = text_value(alloc, name)?;
    let names = unless(false, &object.property_names);
    let by_names = maybe_agrees(alloc, document, levels, texts, names, &text)?;
    Ok(all_of(by_name, by_pattern, by_rest, by_names))
}

// Each schema whose pattern the name has.
#[cycle(judge)]
fn patterns_agree<T: Texts>(
    alloc: Global,
    document: &Document,
    levels: usize,
    texts: &mut T,
    patterns: &BTreeMap<String, Schema>,
    name: &str,
    value: &Value,
) -> Result<bool, TextFault>
    requires { properties_nodes (properties_view patterns.now.entries) ≤ document_nodes (document_view document.now) }
    ensures answer { IfOk result (λ b. b ≡ patterns_say (λ q. (T.relations texts.old).matches q name.now)
        (admits_in (T.relations texts.old) (document_view document.now) (kept_view value.now)) (properties_view patterns.now.entries)) }
    ensures keeps { T.relations texts.new ≡ T.relations texts.old }
    ensures failed { IsErrOf result TextFault.Failed → Rises (T.faults texts.old) (T.faults texts.new) }
    ensures counts { T.faults texts.old ≤ T.faults texts.new }
{
    for (pattern, schema) in patterns.iter() {
        if texts.has_pattern(pattern, name)? {
            if !admits_part(alloc, document, levels, texts, schema, value)? {
                return Ok(false);
            }
        }
    }
    Ok(true)
}
