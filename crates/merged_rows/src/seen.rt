//! What is asked of a schema to convert.
ghost use Rattle.std.specs.Prelude.{◌≡◌, option_map, string_bytes};
ghost use Rattle.schema_defs.specs.Children.{reference_of};
ghost use Rattle.schema_types.specs.View.{object_view, schema_view};
ghost use Rattle.row_findings.specs.Given.{source_view};
ghost use Rattle.merged_rows.specs.Starts.{is_boolean as is_boolean_of, walk_in as walk_in_of};

use row_findings::Source;
use schema_types::{Schema, SchemaObject, Walk};

fn walk_in_object(object: &SchemaObject) -> Option<&Walk>
    ensures { option_map (λ w. w.now) result ≡ walk_in_of (object_view object.now) }
{
    object.walk.as_ref()
}

fn walk_in_schema(schema: &Schema) -> Option<&Walk>
    ensures { option_map (λ w. w.now) result ≡ walk_in_of (schema_view schema.now) }
{
    match schema {
        Schema::Bool(_) => None,
        Schema::Object(object) => walk_in_object(object),
    }
}

/// The walk that the schema has itself. It takes no memory, as all here.
pub fn walk_in<'d>(source: &Source<'d>) -> Option<&'d Walk>
    ensures { option_map (λ w. w.now) result ≡ walk_in_of (source_view source.now) }
{
    match source {
        Source::Written(schema) => walk_in_schema(*schema),
        Source::Bool(_) => None,
        Source::Made(keywords) => keywords.walk,
    }
}

fn reference_in_object(object: &SchemaObject) -> Option<&String>
    ensures { option_map (λ q. string_bytes q.now) result ≡ reference_of (object_view object.now) }
{
    object.reference.as_ref()
}

fn reference_in_schema(schema: &Schema) -> Option<&String>
    ensures { option_map (λ q. string_bytes q.now) result ≡ reference_of (schema_view schema.now) }
{
    match schema {
        Schema::Bool(_) => None,
        Schema::Object(object) => reference_in_object(object),
    }
}

/// The reference of the schema.
pub fn reference_in<'d>(source: &Source<'d>) -> Option<&'d String>
    ensures { option_map (λ q. string_bytes q.now) result ≡ reference_of (source_view source.now) }
{
    match source {
        Source::Written(schema) => reference_in_schema(*schema),
        Source::Bool(_) => None,
        Source::Made(keywords) => keywords.reference,
    }
}

fn is_boolean_schema(schema: &Schema) -> bool
    ensures { result ≡ is_boolean_of (schema_view schema.now) }
{
    match schema {
        Schema::Bool(_) => true,
        Schema::Object(object) => is_object(object),
    }
}

// It is no boolean.
fn is_object(object: &SchemaObject) -> bool
    ensures { result ≡ is_boolean_of (object_view object.now) }
{
    let _ = object;
    false
}

/// Whether the schema is a boolean.
pub fn is_boolean(source: &Source<'_>) -> bool
    ensures { result ≡ is_boolean_of (source_view source.now) }
{
    match source {
        Source::Written(schema) => is_boolean_schema(*schema),
        Source::Bool(_) => true,
        Source::Made(_) => false,
    }
}
