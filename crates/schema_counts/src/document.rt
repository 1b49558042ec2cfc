//! The schemas at all locations of a document.
ghost use Rattle.std.specs.Prelude.{◌≡◌, ◌≤◌, Some, option_map, IfOk};
ghost use Rattle.schema_defs.specs.Schema.{Schema as SchemaD};
ghost use Rattle.schema_defs.specs.Admits.{defined};
ghost use Rattle.schema_defs.specs.Counts.{definitions_nodes as definitions_nodes_in, nodes, schema_nodes as schema_nodes_in};
ghost use Rattle.schema_types.specs.DocumentView.{document_view};

use crate::nodes::{plus, schema_nodes};
use schema_types::Document;
use std::alloc::AllocError;

fn definition_nodes(document: &Document, name: &str) -> Result<u64, AllocError>
    ensures { IfOk result (λ n. (s : SchemaD) → option_map (λ e. e.body) (defined name.now (document_view document.now).definitions) ≡ Some s → n ≡ schema_nodes_in s) }
{
    match document.definition(name) {
        Some(schema) => {
            let count = schema_nodes(schema)?;
            Ok(count)
        }
        None => Err(AllocError),
    }
}

fn definitions_nodes(document: &Document) -> Result<u64, AllocError>
    ensures { IfOk result (λ n. n ≡ definitions_nodes_in (document_view document.now).definitions) }
{
    let mut count = 0;
    let mut names = document.names();
    while let Some(name) = names.next() {
        count = plus(count, definition_nodes(document, name)?)?;
    }
    Ok(count)
}

/// How many schemas the document has, at the root and in its definitions, booleans included. It takes time in step with their
/// number, and fails where there are more than a u64 counts.
#[tactic(auto, using(crate::proofs::Defined::some_nodes))]
pub fn nodes_of(document: &Document) -> Result<u64, AllocError>
    ensures count { IfOk result (λ n. n ≡ nodes (document_view document.now)) }
    ensures some { IfOk result (λ n. 1 ≤ n) }
{
    let root = schema_nodes(document.root())?;
    let definitions = definitions_nodes(document)?;
    let count = plus(root, definitions)?;
    Ok(count)
}
