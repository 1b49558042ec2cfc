//! What rows merge, gathered before conversion, which borrows from it.
ghost use Rattle.std.specs.Prelude.{◌≡◌, [], IfErr, IfOk};
ghost use Rattle.schema_types.specs.View.{schema_view};
ghost use Rattle.schema_tree.specs.Document.{view as document_seen};
ghost use Rattle.schema_tree.specs.Fault.{fault_view, memory};
ghost use Rattle.convert_defs.specs.Convert.{Handed};
ghost use Rattle.merged_rows.specs.Starts.{spot_of};
ghost use Rattle.convert_document.specs.Merges.{merges_view};
ghost use Rattle.history_laws.specs.Added.{begins_at};
ghost use Rattle.typify_convert.specs.Gathered.{MergesAll, MergesFrom};

use convert_document::{Merge, merges_at, merges_of};
use merged_rows::Start;
use schema_tree::{Document, Fault, Location, Schema};
use schema_types::Walk;
use std::alloc::{AllocError, Global};

/// What the rows of the document merge.
pub(crate) fn gathered(
    alloc: Global,
    document: &Document,
    depth: u32,
    levels: u32,
) -> Result<Vec<Merge>, Fault>
    ensures merges { IfOk result (λ ms. MergesAll (document_seen document.now) depth levels (merges_view ms.items)) }
    ensures memory { IfErr result (λ f. fault_view f ≡ memory) }
{
    match merges_of(alloc, document, depth, levels) {
        Ok(merges) => Ok(merges),
        Err(_) => Err(Fault::Memory),
    }
}

/// What the rows merge of a schema from a start on.
pub(crate) fn gathered_from(
    alloc: Global,
    document: &Document,
    depth: u32,
    levels: u32,
    start: &Start,
    schema: &Schema,
) -> Result<Vec<Merge>, Fault>
    ensures merges { IfOk result (λ ms. MergesFrom (document_seen document.now) depth levels start.now (schema_view schema.now) (merges_view ms.items)) }
    ensures memory { IfErr result (λ f. fault_view f ≡ memory) }
{
    let mut merges = Vec::new(alloc);
    match merges_at(alloc, document, depth, levels, &mut merges, start, schema) {
        Ok(_) => Ok(merges),
        Err(_) => Err(Fault::Memory),
    }
}

fn begun(alloc: Global, at: &Location) -> Result<Start, AllocError>
    ensures { IfOk result (λ t. (h : Handed) → spot_of t [] h ≡ begins_at at.now h) }
{
    let path = at.try_clone(alloc)?;
    let place = at.try_clone(alloc)?;
    let mut locations = Vec::new(alloc);
    locations.push(place)?;
    Ok(Start {
        path,
        walk: Walk { locations },
        made: false,
    })
}

/// Where what is added at a location begins.
pub(crate) fn start_of(alloc: Global, at: &Location) -> Result<Start, Fault>
    ensures place { IfOk result (λ t. (h : Handed) → spot_of t [] h ≡ begins_at at.now h) }
    ensures memory { IfErr result (λ f. fault_view f ≡ memory) }
{
    match begun(alloc, at) {
        Ok(start) => Ok(start),
        Err(_) => Err(Fault::Memory),
    }
}
