//! What stands in place of a schema whose row merges.
ghost use Rattle.std.specs.Prelude.{◌≡◌, [], IfOk, List, Some, option_map, string_bytes};
ghost use Rattle.schema_defs.specs.Schema.{Schema as SchemaOf};
ghost use Rattle.json_value.specs.View.{kept_view};
ghost use Rattle.schema_types.specs.View.{object_view, schema_view};
ghost use Rattle.convert_defs.specs.Convert.{Handed};
ghost use Rattle.convert_walks.specs.Spot.{is_made_schema, made_by as made_by_of};
ghost use Rattle.convert_walks.specs.Tree.{answered_as, instead, plain_of};
ghost use Rattle.merge_defs.specs.Outcome.{Note, Outcome};
ghost use Rattle.merge_parts.specs.Steps.{Steps as StepsOf};
ghost use Rattle.row_findings.specs.Given.{source_view};
ghost use Rattle.merged_rows.specs.Rows.{annotated_by, annotations_in, annotations_view, own_walk_in, standing_view, with_annotations, with_texts};
ghost use Rattle.merged_rows.specs.Starts.{spot_of};

use crate::annotations::Annotations;
use crate::instead::Standing;
use crate::owning::{text_of, value_of};
use crate::places::{is_made_at, location_of, walk_of};
use crate::start::Start;
use merge_walked::{is_made, own_walk};
use row_findings::{Source, Steps};
use schema_types::{Schema, SchemaObject, Walk, as_schema};
use serde_json::Value;
use std::alloc::{AllocError, Global};

// ---- annotations

fn annotations_of_object(object: &SchemaObject) -> Annotations<'_>
    ensures { Some (annotations_view result) ≡ annotations_in (object_view object.now) }
{
    Annotations {
        title: object.title.as_ref(),
        description: object.description.as_ref(),
        default: object.default.as_ref(),
    }
}

fn annotations_of_schema(schema: &Schema) -> Option<Annotations<'_>>
    ensures { option_map annotations_view result ≡ annotations_in (schema_view schema.now) }
{
    match schema {
        Schema::Bool(_) => None,
        Schema::Object(object) => Some(annotations_of_object(object)),
    }
}

fn annotations_of<'d>(source: &Source<'d>) -> Option<Annotations<'d>>
    ensures { option_map annotations_view result ≡ annotations_in (source_view source.now) }
{
    match source {
        Source::Written(schema) => annotations_of_schema(*schema),
        Source::Bool(_) => None,
        Source::Made(keywords) => Some(Annotations {
            title: keywords.title,
            description: keywords.description,
            default: keywords.default,
        }),
    }
}

fn annotated_object(
    object: Box<SchemaObject>,
    title: Option<String>,
    description: Option<String>,
    default: Option<Value>,
) -> Box<SchemaObject>
    ensures { object_view result.value ≡ with_texts (option_map string_bytes title) (option_map string_bytes description) (option_map kept_view default) (object_view object.value) }
{
    let mut object = object;
    object.title = title;
    object.description = description;
    object.default = default;
    object
}

fn annotate_object(
    alloc: Global,
    annotations: &Annotations<'_>,
    object: Box<SchemaObject>,
) -> Result<Box<SchemaObject>, AllocError>
    ensures { IfOk result (λ o. object_view o.value ≡ with_annotations (Some (annotations_view annotations.now)) (object_view object.value)) }
{
    let title = text_of(alloc, annotations.title)?;
    let description = text_of(alloc, annotations.description)?;
    let default = value_of(annotations.default)?;
    Ok(annotated_object(object, title, description, default))
}

fn annotate(
    alloc: Global,
    annotations: &Annotations<'_>,
    schema: Schema,
) -> Result<Schema, AllocError>
    ensures { IfOk result (λ s. schema_view s ≡ with_annotations (Some (annotations_view annotations.now)) (schema_view schema)) }
{
    match schema {
        Schema::Bool(b) => Ok(Schema::Bool(b)),
        Schema::Object(object) => {
            let object = annotate_object(alloc, annotations, object)?;
            Ok(as_schema(object))
        }
    }
}

/// The schema that was merged, with the annotations of the written one. Fails only for want of memory, as all here.
#[tactic(auto, using(crate::proofs::Standings::unannotated, crate::proofs::Standings::has_annotations))]
pub fn annotated(alloc: Global, source: &Source<'_>, schema: Schema) -> Result<Schema, AllocError>
    ensures { IfOk result (λ s. schema_view s ≡ annotated_by (plain_of (source_view source.now)) (schema_view schema)) }
{
    match annotations_of(source) {
        None => Ok(schema),
        Some(annotations) => {
            let schema = annotate(alloc, &annotations, schema)?;
            Ok(schema)
        }
    }
}

// ---- where it stands

// That of the written schema.
fn start_here(alloc: Global, start: &Start, trail: &Vec<Steps<'_>>) -> Result<Start, AllocError>
    ensures { IfOk result (λ t. (h : Handed) → spot_of t [] h ≡ spot_of start.now trail.now.items h) }
{
    let path = location_of(alloc, start, trail)?;
    let walk = walk_of(alloc, start, trail)?;
    Ok(Start {
        path,
        walk,
        made: is_made_at(start, trail),
    })
}

fn is_made_walk(walk: &Option<Walk>) -> bool
    ensures { result ≡ made_by_of walk.now }
{
    match walk {
        None => false,
        Some(walk) => is_made(walk),
    }
}

fn is_made_object(object: &SchemaObject) -> bool
    ensures { result ≡ is_made_schema (object_view object.now) }
{
    is_made_walk(&object.walk)
}

fn walk_of_object(alloc: Global, object: &SchemaObject) -> Result<Walk, AllocError>
    ensures { IfOk result (λ w. w ≡ own_walk_in (object_view object.now)) }
{
    let walk = own_walk(alloc, &object.walk)?;
    Ok(walk)
}

// That of the written schema, on the object's own walk.
fn start_of_object(
    alloc: Global,
    start: &Start,
    trail: &Vec<Steps<'_>>,
    object: &SchemaObject,
) -> Result<Start, AllocError>
    ensures { IfOk result (λ t. (h : Handed) → spot_of t [] h ≡ record (spot_of start.now trail.now.items h) { walk = own_walk_in (object_view object.now); in_made = is_made_schema (object_view object.now) }) }
{
    let path = location_of(alloc, start, trail)?;
    let walk = walk_of_object(alloc, object)?;
    Ok(Start {
        path,
        walk,
        made: is_made_object(object),
    })
}

fn object_standing(
    alloc: Global,
    start: &Start,
    trail: &Vec<Steps<'_>>,
    source: &Source<'_>,
    object: Box<SchemaObject>,
) -> Result<Standing, AllocError>
    ensures { IfOk result (λ t. (h : Handed) → standing_view h (source_view source.now) t ≡ answered_as (spot_of start.now trail.now.items h) (source_view source.now) (plain_of (source_view source.now)) (object_view object.value)) }
{
    let start = start_of_object(alloc, start, trail, &object)?;
    let schema = annotated(alloc, source, as_schema(object))?;
    Ok(Standing { start, schema })
}

fn answered(
    alloc: Global,
    start: &Start,
    trail: &Vec<Steps<'_>>,
    source: &Source<'_>,
    schema: Schema,
) -> Result<Standing, AllocError>
    ensures { IfOk result (λ t. (h : Handed) → standing_view h (source_view source.now) t ≡ answered_as (spot_of start.now trail.now.items h) (source_view source.now) (plain_of (source_view source.now)) (schema_view schema)) }
{
    match schema {
        Schema::Bool(b) => {
            let start = start_here(alloc, start, trail)?;
            Ok(Standing {
                start,
                schema: Schema::Bool(b),
            })
        }
        Schema::Object(object) => {
            let standing = object_standing(alloc, start, trail, source, object)?;
            Ok(standing)
        }
    }
}

/// What is converted in place of the schema at the end of a trail, where this is what its row merges: the schema, or nothing for never. It
/// stands at the schema's place, on its own walk, and has the schema's annotations; a boolean stands on the schema's walk.
#[tactic(auto, using(crate::proofs::Standings::of_never, crate::proofs::Standings::of_answer))]
pub fn standing(
    alloc: Global,
    start: &Start,
    trail: &Vec<Steps<'_>>,
    source: &Source<'_>,
    found: Option<Schema>,
) -> Result<Standing, AllocError>
    ensures { IfOk result (λ t. (h : Handed) (before after : List Note) (o : Outcome SchemaOf) → StepsOf before after o (option_map schema_view found) → instead (spot_of start.now trail.now.items h) (source_view source.now) o ≡ Some (standing_view h (source_view source.now) t)) }
{
    match found {
        None => {
            let never = answered(alloc, start, trail, source, Schema::Bool(false))?;
            Ok(never)
        }
        Some(schema) => {
            let standing = answered(alloc, start, trail, source, schema)?;
            Ok(standing)
        }
    }
}
