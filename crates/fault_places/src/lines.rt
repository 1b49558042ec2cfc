//! The lines of a fault's place.
ghost use Rattle.std.specs.Prelude.{◌≡◌, ◌++◌, OnOk, option_map, string_bytes};
ghost use Rattle.serde_json.specs.View.{view};
ghost use Rattle.fault_places.specs.Places.{kind_lines, place_lines};

use crate::found::{led_to, placed, push_held, push_reference, push_type};
use crate::stops::push_stops;
use schema_tree::{Fault, InvalidKind};
use serde_json::Value;
use std::alloc::{AllocError, Global};

fn push_kind(
    out: &mut String,
    alloc: Global,
    kind: InvalidKind,
    schema: Option<&Value>,
) -> Result<(), AllocError>
    ensures { OnOk result (string_bytes out.new ≡ string_bytes out.old ++ kind_lines kind (option_map (λ v. view v.now) schema.entry)) }
{
    match kind {
        InvalidKind::Array => Ok(()),
        InvalidKind::Pattern => push_stops(out, alloc, schema),
    }
}

/// What is said of a fault by what stands in the document: of a keyword that is malformed, `found` with the kind of what it
/// holds, and `value` with that where all its numbers are whole; of a reference that names no definition, `found` with
/// whether a value stands there (RFC 6901); of a value that isn't read, `type` with the type that its schema states; of
/// patterns that aren't plain, `pattern` with each, and `reading` with where it stops. Nothing of other faults. Fails where
/// memory runs out.
pub fn push_place(
    out: &mut String,
    alloc: Global,
    document: &Value,
    fault: &Fault,
) -> Result<(), AllocError>
    ensures { OnOk result (string_bytes out.new ≡ string_bytes out.old ++ place_lines (view document.now) fault.now) }
{
    match fault {
        Fault::Malformed { path, keyword } => {
            let schema = placed(alloc, path, document)?;
            push_held(out, alloc, keyword, schema)
        }
        Fault::MissingRef { name, .. } => push_reference(out, led_to(name, document).is_some()),
        Fault::InvalidValue { path, .. } => {
            let schema = placed(alloc, path, document)?;
            push_type(out, alloc, schema)
        }
        Fault::BadValue { path, .. } => {
            let schema = placed(alloc, path, document)?;
            push_type(out, alloc, schema)
        }
        Fault::InvalidSchema { path, kind } => {
            let schema = placed(alloc, path, document)?;
            push_kind(out, alloc, *kind, schema)
        }
        _ => Ok(()),
    }
}
