//! The identifier of a rest, which is named after the fields.
ghost use Rattle.std.specs.Prelude.{◌≡◌, ◌||◌, List, ℕ, map, IfOk, OnOk, bytes_eq, string_bytes};
ghost use Rattle.std.specs.BTreeSet.{contains_text};
ghost use Rattle.naming_defs.specs.Names.{is_among};
ghost use Rattle.entry_types.specs.View.{field_view, rest_identifier};

use entry_types::FieldEntry;
use free_names::{free_name, take};
use std::alloc::{AllocError, Global};
use std::collections::BTreeSet;

// Whether a field has that identifier.
fn has_identifier(fields: &[FieldEntry], identifier: &str) -> bool
    ensures { result ≡ is_among identifier.now (map (λ f. f.identifier) (map field_view fields.now)) }
{
    for field in fields {
        if identifier == field.ident.as_str() {
            return true;
        }
    }
    false
}

// Takes the identifiers of fields and their names in JSON.
#[tactic(auto, using(crate::proofs::RestNames::taken_more))]
fn take_names(
    names: &mut BTreeSet<String>,
    alloc: Global,
    fields: &[FieldEntry],
) -> Result<(), AllocError>
    ensures { OnOk result ((n : List ℕ) → contains_text names.new n ≡ (contains_text names.old n || (is_among n (map (λ f. f.identifier) (map field_view fields.now)) || is_among n (map (λ f. f.name) (map field_view fields.now))))) }
{
    for field in fields {
        take(names, alloc, &field.ident)?;
        take(names, alloc, &field.name)?;
    }
    Ok(())
}

/// The identifier of the rest of a struct with those fields.
#[tactic(auto, using(crate::proofs::RestNames::kept, crate::proofs::RestNames::freed))]
pub fn rest_name(alloc: Global, fields: &[FieldEntry]) -> Result<String, AllocError>
    ensures { IfOk result (λ s. string_bytes s ≡ rest_identifier (map field_view fields.now)) }
{
    if !has_identifier(fields, "extra") {
        return Ok(String::from_str(alloc, "extra")?);
    }
    let mut names = BTreeSet::new(alloc);
    take_names(&mut names, alloc, fields)?;
    let name = free_name(alloc, "field", &names, fields.len() + fields.len())?;
    Ok(name)
}
