//! The graph of a document's references at one value.
ghost use Rattle.std.specs.Prelude.{◌≡◌, map, option_map, IfOk};
ghost use Rattle.schema_defs.specs.References.{same_references};
ghost use Rattle.schema_types.specs.View.{schema_view};
ghost use Rattle.schema_types.specs.DocumentView.{document_view};
ghost use Rattle.reference_graph.specs.Graph.{graph_of};
ghost use Rattle.schema_guards.specs.Targets.{reference_graph_of};
ghost use Rattle.schema_loops.specs.Named.{number_of_name, number_by, row_at, schema_named};

use crate::numbers::Numbers;
use crate::targets::{schema_of, targets_of};
use schema_guards::references_of;
use schema_types::{Document, Schema};
use std::alloc::{AllocError, Global};

// For each target the numbers of those that its references at one value lead to.
pub(crate) fn rows_of(alloc: Global, document: &Document) -> Result<Vec<Vec<usize>>, AllocError>
    ensures { IfOk result (λ rows. graph_of rows.items ≡ reference_graph_of (document_view document.now)) }
{
    let targets = targets_of(alloc, document)?;
    let numbers = Numbers::new(alloc, &targets)?;
    let mut rows = Vec::with_capacity(alloc, targets.len())?;
    for target in &targets {
        rows.push(row_of(alloc, document, target, &numbers)?)?;
    }
    Ok(rows)
}

fn row_of(
    alloc: Global,
    document: &Document,
    target: &Option<&str>,
    numbers: &Numbers<'_>,
) -> Result<Vec<usize>, AllocError>
    ensures { IfOk result (λ row. row.items ≡ row_at (number_of_name numbers.now.by_name) numbers.now.count (schema_named (document_view document.now) (option_map (λ t. t.now) target.now))) }
{
    match schema_of(document, target) {
        Some(schema) => numbers_of(alloc, schema, numbers),
        None => Ok(Vec::new(alloc)),
    }
}

fn numbers_of(
    alloc: Global,
    schema: &Schema,
    numbers: &Numbers<'_>,
) -> Result<Vec<usize>, AllocError>
    ensures { IfOk result (λ row. row.items ≡ map (number_by (number_of_name numbers.now.by_name) numbers.now.count) (same_references (schema_view schema.now))) }
{
    let references = references_of(alloc, schema)?;
    let mut row = Vec::with_capacity(alloc, references.len())?;
    for reference in &references {
        row.push(numbers.of_reference(alloc, reference)?)?;
    }
    Ok(row)
}
