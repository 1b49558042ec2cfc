//! Where references alone lead.
ghost use Rattle.std.specs.Prelude.{◌≡◌, option_map, option_and_then, string_bytes};
ghost use Rattle.schema_defs.specs.Admits.{target as target_of};
ghost use Rattle.schema_defs.specs.Children.{reference_of as reference_in};
ghost use Rattle.schema_defs.specs.Walks.{IsGuarded};
ghost use Rattle.schema_types.specs.DocumentView.{document_view};
ghost use Rattle.schema_types.specs.View.{schema_view};
ghost use Rattle.enum_defs.specs.Exclusive.{refers_at_most as refers_at_most_of, reference_alone as reference_alone_of, led as led_in};
ghost use Rattle.enum_kinds.specs.Here.{lists_nothing_in, has_no_part_in};

use enum_shapes::is_unruled;
use schema_types::{Document, Schema};

// The reference of a schema.
pub(crate) fn reference_of(schema: &Schema) -> Option<&String>
    ensures { option_map (λ q. string_bytes q.now) result ≡ reference_in (schema_view schema.now) }
{
    match schema {
        Schema::Bool(_) => None,
        Schema::Object(object) => object.reference.as_ref(),
    }
}

fn lists_nothing(schema: &Schema) -> bool
    ensures { result ≡ lists_nothing_in (schema_view schema.now) }
{
    match schema {
        Schema::Bool(_) => false,
        Schema::Object(object) => {
            object.types.is_none() && object.enum_values.is_none() && object.const_value.is_none()
        }
    }
}

fn has_no_part(schema: &Schema) -> bool
    ensures { result ≡ has_no_part_in (schema_view schema.now) }
{
    match schema {
        Schema::Bool(_) => false,
        Schema::Object(object) => {
            object.subschemas.is_none() && object.array.is_none() && object.object.is_none()
        }
    }
}

#[tactic(auto, using(crate::proofs::Parts::refers_at_most_parts))]
fn refers_at_most(schema: &Schema) -> bool
    ensures { result ≡ refers_at_most_of (schema_view schema.now) }
{
    lists_nothing(schema) && is_unruled(schema) && has_no_part(schema)
}

fn reference_alone(schema: &Schema) -> Option<&String>
    ensures { option_map (λ q. string_bytes q.now) result ≡ reference_alone_of (schema_view schema.now) }
{
    if refers_at_most(schema) {
        reference_of(schema)
    } else {
        None
    }
}

fn target_alone<'s>(document: &'s Document, schema: &'s Schema) -> Option<&'s Schema>
    ensures { option_map (λ s. schema_view s.now) result ≡ option_and_then (target_of (document_view document.now)) (reference_alone_of (schema_view schema.now)) }
{
    match reference_alone(schema) {
        Some(reference) => document.target(reference.as_str()),
        None => None,
    }
}

// The schema that references alone lead to: the schema itself where it isn't a reference alone.
pub(crate) fn led<'s>(document: &'s Document, schema: &'s Schema) -> &'s Schema
    requires { IsGuarded (document_view document.now) }
    ensures { schema_view result.now ≡ led_in (document_view document.now) (schema_view schema.now) }
{
    let mut at = schema;
    while let Some(target) = target_alone(document, at) {
        at = target;
    }
    at
}
