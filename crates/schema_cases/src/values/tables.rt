//! Items and rules, as the cases write them.
use crate::values::parts::{copies, is_set, items_at, items_of, number_at, text_at, texts_of};
use crate::values::types::{type_of, types_of};
use schema_tree::{Constraint, Conversions, Rule};
use serde_json::Value;
use std::alloc::{AllocError, Global};
use value_models::{
    Body, Container, Containers, Field, FieldDefault, Fields, Helper, Style, Tag, ValueType,
    Variant, Variants,
};

/// The tables by which values are read.
#[derive(Drop)]
pub struct Tables {
    pub containers: Containers,
    pub conversions: Conversions,
}

fn default_of(value: &Value) -> FieldDefault {
    match value.get("default") {
        Some(Value::String(_)) => FieldDefault::Own,
        Some(_) => match number_at(value, "default") {
            Some(place) => FieldDefault::Stated(place),
            None => FieldDefault::Nothing,
        },
        None => FieldDefault::Nothing,
    }
}

fn helper_of(value: &Value) -> Helper {
    match value.get("helper") {
        Some(Value::String(name)) => match name.as_str() {
            "some" => Helper::Inner,
            _ => Helper::Whole,
        },
        _ => Helper::Nothing,
    }
}

fn type_at(alloc: Global, value: &Value, name: &str) -> Result<ValueType, AllocError> {
    match value.get(name) {
        Some(found) => type_of(alloc, found),
        None => Ok(ValueType::Outside),
    }
}

fn named_field(alloc: Global, value: &Value) -> Result<Field, AllocError> {
    Ok(Field {
        has_name: true,
        serialize_name: text_at(alloc, value, "name")?,
        deserialize_names: texts_of(alloc, items_at(value, "reads"))?,
        field_type: type_at(alloc, value, "type")?,
        default: default_of(value),
        helper: helper_of(value),
        skip: is_set(value, "skip"),
        is_rest: is_set(value, "rest"),
    })
}

fn unnamed_field(alloc: Global, field_type: ValueType) -> Result<Field, AllocError> {
    Ok(Field {
        has_name: false,
        serialize_name: String::new(alloc),
        deserialize_names: Vec::new(alloc),
        field_type,
        default: FieldDefault::Nothing,
        helper: Helper::Nothing,
        skip: false,
        is_rest: false,
    })
}

fn named_fields(alloc: Global, values: &[Value]) -> Result<Fields, AllocError> {
    let mut fields = Vec::new(alloc);
    for value in values {
        fields.push(named_field(alloc, value)?)?;
    }
    Fields::new(alloc, fields)
}

fn unnamed_fields(alloc: Global, types: Vec<ValueType>) -> Result<Fields, AllocError> {
    let mut fields = Vec::new(alloc);
    for field_type in types {
        fields.push(unnamed_field(alloc, field_type)?)?;
    }
    Fields::new(alloc, fields)
}

fn one_field(alloc: Global, field_type: ValueType) -> Result<Fields, AllocError> {
    let mut fields = Vec::new(alloc);
    fields.push(unnamed_field(alloc, field_type)?)?;
    Fields::new(alloc, fields)
}

fn style_of(value: &Value) -> Style {
    if value.get("struct").is_some() {
        return Style::Struct;
    }
    if value.get("tuple").is_some() {
        return Style::Tuple;
    }
    if value.get("newtype").is_some() {
        return Style::Newtype;
    }
    Style::Unit
}

fn fields_of(alloc: Global, value: &Value) -> Result<Fields, AllocError> {
    match style_of(value) {
        Style::Struct => named_fields(alloc, items_at(value, "struct")),
        Style::Tuple => unnamed_fields(alloc, types_of(alloc, items_at(value, "tuple"))?),
        Style::Newtype => one_field(alloc, type_at(alloc, value, "newtype")?),
        Style::Unit => Fields::new(alloc, Vec::new(alloc)),
    }
}

fn variant_of(alloc: Global, value: &Value) -> Result<Variant, AllocError> {
    Ok(Variant {
        serialize_name: text_at(alloc, value, "name")?,
        deserialize_names: texts_of(alloc, items_at(value, "reads"))?,
        style: style_of(value),
        fields: fields_of(alloc, value)?,
    })
}

fn variants_of(alloc: Global, values: &[Value]) -> Result<Variants, AllocError> {
    let mut variants = Vec::new(alloc);
    for value in values {
        variants.push(variant_of(alloc, value)?)?;
    }
    Variants::new(alloc, variants)
}

fn text_of(alloc: Global, value: &Value) -> Result<String, AllocError> {
    match value {
        Value::String(text) => text.clone(),
        _ => String::from_str(alloc, ""),
    }
}

fn adjacent(alloc: Global, names: &[Value]) -> Result<Tag, AllocError> {
    match names {
        [tag, content] => Ok(Tag::Adjacent(text_of(alloc, tag)?, text_of(alloc, content)?)),
        _ => Ok(Tag::External),
    }
}

fn tag_of(alloc: Global, value: &Value) -> Result<Tag, AllocError> {
    if value.get("internal").is_some() {
        return Ok(Tag::Internal(text_at(alloc, value, "internal")?));
    }
    if value.get("adjacent").is_some() {
        return adjacent(alloc, items_at(value, "adjacent"));
    }
    Ok(Tag::Untagged)
}

fn body_of(alloc: Global, value: &Value) -> Result<Body, AllocError> {
    if value.get("external").is_some() {
        let variants = variants_of(alloc, items_at(value, "external"))?;
        return Ok(Body::Enum(Tag::External, variants));
    }
    if value.get("variants").is_some() {
        let tag = tag_of(alloc, value)?;
        let variants = variants_of(alloc, items_at(value, "variants"))?;
        return Ok(Body::Enum(tag, variants));
    }
    let fields = fields_of(alloc, value)?;
    Ok(Body::Struct(style_of(value), fields))
}

fn container_of(alloc: Global, value: &Value) -> Result<Container, AllocError> {
    Ok(Container {
        name: text_at(alloc, value, "name")?,
        transparent: is_set(value, "transparent"),
        try_from: is_set(value, "try_from"),
        closed: is_set(value, "closed"),
        body: body_of(alloc, value)?,
    })
}

fn containers_of(alloc: Global, values: &[Value]) -> Result<Containers, AllocError> {
    let mut containers = Vec::new(alloc);
    for value in values {
        containers.push(container_of(alloc, value)?)?;
    }
    Containers::new(alloc, containers)
}

fn text_rule(alloc: Global, value: &Value) -> Result<Rule, AllocError> {
    Ok(Rule::Text {
        least: number_at(value, "least"),
        most: number_at(value, "most"),
        all: texts_of(alloc, items_at(value, "all"))?,
        any: texts_of(alloc, items_at(value, "any"))?,
    })
}

fn rule_in(alloc: Global, value: &Value) -> Result<Rule, AllocError> {
    if value.get("allow").is_some() {
        return Ok(Rule::Allow(copies(alloc, items_at(value, "allow"))?));
    }
    if value.get("deny").is_some() {
        return Ok(Rule::Deny(copies(alloc, items_at(value, "deny"))?));
    }
    match value.get("text") {
        Some(text) => text_rule(alloc, text),
        None => text_rule(alloc, value),
    }
}

fn constraints_of(alloc: Global, values: &[Value]) -> Result<Vec<Constraint>, AllocError> {
    let mut constraints = Vec::new(alloc);
    for value in values {
        if let [item, rule] = items_of(value) {
            constraints.push(Constraint {
                item: text_of(alloc, item)?,
                rule: rule_in(alloc, rule)?,
            })?;
        }
    }
    Ok(constraints)
}

/// The tables of a line.
pub fn tables_of(alloc: Global, value: &Value) -> Result<Tables, AllocError> {
    Ok(Tables {
        containers: containers_of(alloc, items_at(value, "items"))?,
        conversions: Conversions {
            constraints: constraints_of(alloc, items_at(value, "rules"))?,
            defaults: copies(alloc, items_at(value, "defaults"))?,
        },
    })
}
