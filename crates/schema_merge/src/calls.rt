//! The calls of merging. What they answer tells at the last place of the walk of the first schema that is handed in.
ghost use Rattle.std.specs.Prelude.{◌≡◌, IfErr, IfOk, option_map};
ghost use Rattle.schema_defs.specs.Schema.{schemas};
ghost use Rattle.schema_defs.specs.Walks.{IsGuarded};
ghost use Rattle.schema_types.specs.View.{object_view, same_of, schema_view, schemas_view, subschemas_view};
ghost use Rattle.schema_types.specs.DocumentView.{document_view};
ghost use Rattle.merge_walks.specs.Told.{place_of as place_of_def, place_of_first as place_of_first_def, told as told_of};
ghost use Rattle.schema_merge.specs.Ordered.{merge_all_told, subtract_told, with_subschemas_told};
ghost use Rattle.schema_merge.specs.Refusals.{Refused};
ghost use Rattle.schema_merge.specs.View.{merged_view};
ghost use Rattle.schema_tree.specs.Fault.{fault_view};

use crate::telling::tell;
use crate::told::Merged;
use merge_cycle::{Budget, less_schemas, merge_schemas, size_of, with_subschemas};
use merge_walked::Side;
use schema_tree::Fault;
use schema_types::{Document, Location, Schema, SchemaObject, Subschemas, as_schema};
use std::alloc::{AllocError, Global};

/// How many parts are merged within one another, so that the stack holds.
pub const LEVELS: u32 = 400;

fn place_of(alloc: Global, schema: &Schema) -> Result<Location, AllocError>
    ensures { IfOk result (λ l. l ≡ place_of_def (schema_view schema.now)) }
{
    let walk = Side::plain(schema).walk(alloc)?;
    walk.last(alloc)
}

fn place_of_first(alloc: Global, list: &[Schema]) -> Result<Location, AllocError>
    ensures { IfOk result (λ l. l ≡ place_of_first_def (schemas (schemas_view list.now))) }
{
    match list.first() {
        None => Ok(Location::root(alloc)),
        Some(schema) => place_of(alloc, schema),
    }
}

fn copies(alloc: Global, list: &[Schema]) -> Result<Vec<Schema>, AllocError>
    ensures { IfOk result (λ v. schemas_view v.items ≡ schemas_view list.now) }
{
    let mut copies = Vec::with_capacity(alloc, list.len())?;
    for schema in list {
        copies.push(schema.try_clone(alloc)?)?;
    }
    Ok(copies)
}

fn body_of(alloc: Global, body: &SchemaObject) -> Result<Schema, AllocError>
    ensures { IfOk result (λ s. schema_view s ≡ object_view body.now) }
{
    let copy = body.try_clone(alloc)?;
    let boxed = Box::new(alloc, copy)?;
    Ok(as_schema(boxed))
}

fn copy_of(alloc: Global, subschemas: Option<&Subschemas>) -> Result<Option<Subschemas>, AllocError>
    ensures { IfOk result (λ o. option_map subschemas_view o ≡ option_map (λ s. subschemas_view s.now) subschemas.entry) }
{
    match subschemas {
        None => Ok(None),
        Some(subschemas) => {
            let copy = subschemas.try_clone(alloc)?;
            Ok(Some(copy))
        }
    }
}

fn size_of_all(list: &[Schema]) -> u64 {
    let mut size = 0u64;
    for schema in list {
        size = size.saturating_add(size_of(schema));
    }
    size
}

/// The merge of several schemas from the left; of none it is `true`. Refused are the first walk that is met with more than `depth` steps (`Depth`), and what isn't merged (`Unsupported`, at the
/// last place of the first schema's walk). `Memory` comes where memory runs out, more than 400 parts would be merged within one another, or more is merged than a `Budget` for the inputs' size has.
pub fn merge_all(
    alloc: Global,
    document: &Document,
    depth: u32,
    list: &[Schema],
) -> Result<Merged, Fault>
    requires { IsGuarded (document_view document.now) }
    ensures answered { IfOk result (λ m. merge_all_told (document_view document.now) depth 400 (schemas (schemas_view list.now)) ≡ told_of (merged_view m)) }
    ensures refused { IfErr result (λ f. Refused (merge_all_told (document_view document.now) depth 400 (schemas (schemas_view list.now))) (fault_view f)) }
{
    let Ok(place) = place_of_first(alloc, list) else {
        return Err(Fault::Memory);
    };
    let Ok(copies) = copies(alloc, list) else {
        return Err(Fault::Memory);
    };
    let mut notes = Vec::new(alloc);
    let budget = Budget::new(size_of_all(list));
    let found = merge_schemas(
        alloc,
        document,
        depth as usize,
        LEVELS,
        &budget,
        &mut notes,
        copies,
    );
    tell(alloc, place, notes, found)
}

/// The merge of a body with subschemas that stand in it, in the same way, told at the last place of the body's walk.
pub fn try_merge_with_subschemas(
    alloc: Global,
    document: &Document,
    depth: u32,
    body: &SchemaObject,
    subschemas: Option<&Subschemas>,
) -> Result<Merged, Fault>
    requires { IsGuarded (document_view document.now) }
    ensures answered { IfOk result (λ m. with_subschemas_told (document_view document.now) depth 400 (object_view body.now) (same_of (option_map (λ s. subschemas_view s.now) subschemas.entry)) ≡ told_of (merged_view m)) }
    ensures refused { IfErr result (λ f. Refused (with_subschemas_told (document_view document.now) depth 400 (object_view body.now) (same_of (option_map (λ s. subschemas_view s.now) subschemas.entry))) (fault_view f)) }
{
    let Ok(body) = body_of(alloc, body) else {
        return Err(Fault::Memory);
    };
    let Ok(subschemas) = copy_of(alloc, subschemas) else {
        return Err(Fault::Memory);
    };
    let Ok(place) = place_of(alloc, &body) else {
        return Err(Fault::Memory);
    };
    let mut notes = Vec::new(alloc);
    let budget = Budget::new(size_of(&body));
    let found = with_subschemas(
        alloc,
        document,
        depth as usize,
        LEVELS,
        &budget,
        &mut notes,
        &body,
        &subschemas,
    );
    tell(alloc, place, notes, found)
}

/// What is left of a schema where another is taken away, in the same way, told at the last place of the first one's walk.
pub fn subtract(
    alloc: Global,
    document: &Document,
    depth: u32,
    from: &Schema,
    less: &Schema,
) -> Result<Merged, Fault>
    requires { IsGuarded (document_view document.now) }
    ensures answered { IfOk result (λ m. subtract_told (document_view document.now) depth 400 (schema_view from.now) (schema_view less.now) ≡ told_of (merged_view m)) }
    ensures refused { IfErr result (λ f. Refused (subtract_told (document_view document.now) depth 400 (schema_view from.now) (schema_view less.now)) (fault_view f)) }
{
    let Ok(place) = place_of(alloc, from) else {
        return Err(Fault::Memory);
    };
    let Ok(first) = from.try_clone(alloc) else {
        return Err(Fault::Memory);
    };
    let Ok(second) = less.try_clone(alloc) else {
        return Err(Fault::Memory);
    };
    let mut notes = Vec::new(alloc);
    let budget = Budget::new(size_of(from).saturating_add(size_of(less)));
    let found = less_schemas(
        alloc,
        document,
        depth as usize,
        LEVELS,
        &budget,
        &mut notes,
        first,
        second,
    );
    tell(alloc, place, notes, found)
}
