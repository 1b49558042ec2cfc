//! Whether a document is guarded, and where it is not, a walk that shows it.
#![tactic(auto)]

ghost use Rattle.std.specs.Prelude.{◌≡◌, ◌↔◌, None, IfOk, IfSome, IsTrue};
ghost use Rattle.schema_defs.specs.Walks.{IsGuarded, IsLoop};
ghost use Rattle.schema_types.specs.DocumentView.{document_view};
ghost use Rattle.schema_guards.specs.Targets.{BeginsFirst};

mod children;
mod decoding;
mod numbers;
mod rows;
mod targets;
mod walk;
mod way;

use numbers::Numbers;
use reference_graph::first_loop;
use rows::rows_of;
use schema_types::{Document, Walk};
use std::alloc::{AllocError, Global};
use targets::targets_of;
use walk::walk_round;

/// Whether no references at one value lead back to where they began.
pub fn is_guarded(alloc: Global, document: &Document) -> Result<bool, AllocError>
    ensures { IfOk result (λ b. IsTrue b ↔ IsGuarded (document_view document.now)) }
{
    let rows = rows_of(alloc, document)?;
    let found = first_loop(alloc, &rows)?;
    Ok(found.is_none())
}

/// A walk round at one value, or nothing where the document is guarded. It begins at the first target that lies on one:
/// the root comes before the definitions under `$defs` in the order of their names, and these before those under
/// `definitions` in the order of theirs.
pub fn loop_of(alloc: Global, document: &Document) -> Result<Option<Walk>, AllocError>
    ensures none { IfOk result (λ found. (found ≡ None) ↔ IsGuarded (document_view document.now)) }
    ensures walk { IfOk result (λ found. IfSome found (λ walk. IsLoop (document_view document.now) walk)) }
    ensures first { IfOk result (λ found. IfSome found (λ walk. BeginsFirst (document_view document.now) walk)) }
{
    let targets = targets_of(alloc, document)?;
    let numbers = Numbers::new(alloc, &targets)?;
    let rows = rows_of(alloc, document)?;
    match first_loop(alloc, &rows)? {
        Some(path) => {
            let walk = walk_round(alloc, document, &targets, &numbers, &path)?;
            Ok(Some(walk))
        }
        None => Ok(None),
    }
}
