//! The first place of each kind, in the order of the document's schemas.

ghost use Rattle.std.specs.Prelude.{◌≡◌, IfOk};
ghost use Rattle.serde_json.specs.View.{view};
ghost use Rattle.json_value.specs.View.{value_of};
ghost use Rattle.schema_faults.specs.Faults.{bad_references, first, float_places, is_internal, malformed_places, told_of};
ghost use Rattle.schema_faults.specs.Search.{told_for};

use crate::found::Place;
use crate::search::{Search, Sought, in_schema};
use serde_json::Value;
use std::alloc::{AllocError, Global};

/// The first place where the value is malformed as a schema document, with its keyword. What is no schema is told at its own
/// place with the keyword that holds it, and the root with an empty keyword.
pub fn first_malformed(alloc: Global, document: &Value) -> Result<Option<Place>, AllocError>
    ensures { IfOk result (λ o. o ≡ first (malformed_places (value_of (view document.now)))) }
{
    first_of(alloc, document, Sought::Malformed)
}

/// The first reference, with its text, that names neither the root nor a definition of the document. It leaves the document
/// where the text doesn't begin with `#`.
pub fn first_bad_reference(alloc: Global, document: &Value) -> Result<Option<Place>, AllocError>
    ensures { IfOk result (λ o. o ≡ first (bad_references (value_of (view document.now)))) }
{
    first_of(alloc, document, Sought::BadReference)
}

/// The first schema, with an empty text, that names the type `number` but in a list of all types, or that holds a number
/// that isn't whole.
pub fn first_float(alloc: Global, document: &Value) -> Result<Option<Place>, AllocError>
    ensures { IfOk result (λ o. o ≡ first (float_places (value_of (view document.now)))) }
{
    first_of(alloc, document, Sought::Float)
}

/// Whether a reference stays in the document.
pub fn is_internal_reference(text: &str) -> bool
    ensures { result ≡ is_internal text.now }
{
    text.starts_with("#")
}

fn first_of(alloc: Global, document: &Value, sought: Sought) -> Result<Option<Place>, AllocError>
    ensures { IfOk result (λ o. o ≡ first (told_of (told_for (value_of (view document.now)) sought) (value_of (view document.now)))) }
{
    let search = Search { document, sought };
    let found = in_schema(&search, alloc, document, "", true)?;
    match found {
        Some(found) => Ok(Some(found.into_place())),
        None => Ok(None),
    }
}
