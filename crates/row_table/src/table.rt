//! What the table finds of a schema.
ghost use Rattle.std.specs.Prelude.{◌≡◌, IfOk};
ghost use Rattle.schema_defs.specs.Schema.{boolean, Document as DocumentOf};
ghost use Rattle.schema_defs.specs.Texts.{Relations};
ghost use Rattle.schema_tree.specs.Document.{view as document_seen};
ghost use Rattle.schema_types.specs.View.{schema_view, object_view};
ghost use Rattle.convert_defs.specs.Table.{finding_of};
ghost use Rattle.row_findings.specs.Given.{source_view};
ghost use Rattle.row_findings.specs.View.{finding_view};

use crate::line::by_keywords;
use row_findings::{Finding, Leaf, Row, Source, keywords_of, plainly};
use schema_tree::{Document, Schema};
use schema_types::SchemaObject;
use std::alloc::{AllocError, Global};

/// What the first row of the table that fits makes of a schema: the row, the notes of the schema, the patterns that are
/// asked first, and the branches. `AllocError` where memory runs out.
pub fn finding<'d>(
    alloc: Global,
    document: &'d Document,
    source: &Source<'d>,
) -> Result<Finding<'d>, AllocError>
    ensures { IfOk result (λ f. (r : Relations) → finding_view r f ≡ finding_of r (document_seen document.now) (source_view source.now)) }
{
    match source {
        Source::Written(schema) => {
            let found = written(alloc, document, *schema)?;
            Ok(found)
        }
        Source::Bool(b) => Ok(always(alloc, *b)),
        Source::Made(keywords) => {
            let held = by_keywords(alloc, document, keywords)?;
            Ok(Box::into_inner(held))
        }
    }
}

fn written<'d>(
    alloc: Global,
    document: &'d Document,
    schema: &'d Schema,
) -> Result<Finding<'d>, AllocError>
    ensures { IfOk result (λ f. (r : Relations) → finding_view r f ≡ finding_of r (document_seen document.now) (schema_view schema.now)) }
{
    match schema {
        Schema::Bool(b) => Ok(always(alloc, *b)),
        Schema::Object(object) => {
            let found = by_object(alloc, document, object)?;
            Ok(found)
        }
    }
}

fn by_object<'d>(
    alloc: Global,
    document: &'d Document,
    schema: &'d SchemaObject,
) -> Result<Finding<'d>, AllocError>
    ensures { IfOk result (λ f. (r : Relations) → finding_view r f ≡ finding_of r (document_seen document.now) (object_view schema.now)) }
{
    let keywords = keywords_of(schema);
    let held = by_keywords(alloc, document, &keywords)?;
    Ok(Box::into_inner(held))
}

fn always<'d>(alloc: Global, b: bool) -> Finding<'d>
    ensures { (r : Relations) (d : DocumentOf) → finding_view r result ≡ finding_of r d (boolean b) }
{
    if b {
        plainly(alloc, Row::Leaf(Leaf::Any))
    } else {
        plainly(alloc, Row::Leaf(Leaf::Never { title: None }))
    }
}
