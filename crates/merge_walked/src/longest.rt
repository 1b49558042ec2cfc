//! The longest walk of what stands in `allOf`, `anyOf`, `oneOf` and `not`.
ghost use Rattle.std.specs.Prelude.{◌≡◌, IfOk, option_map};
ghost use Rattle.schema_defs.specs.Schema.{schemas};
ghost use Rattle.schema_types.specs.View.{schema_view, subschemas_view, schemas_view, maybe_view, maybe_list_view, same_of};
ghost use Rattle.merge_walks.specs.Made.{longest_or, walks_of, walks_of_all, walks_of_list, walks_of_maybe, walks_of_same, longer as longer_of};
ghost use Rattle.merge_walked.specs.Longest.{longest_with, longest_so};

use crate::walks::own_walk;
use schema_types::{Schema, Subschemas, Walk};
use std::alloc::{AllocError, Global};

// The longer of the walk that was found before, if any, and another.
fn with_walk(found: Option<Walk>, walk: Walk) -> Walk
    ensures { result ≡ longest_with found walk }
{
    match found {
        Some(before) => if before.locations.len() < walk.locations.len() {
            walk
        } else {
            before
        },
        None => walk,
    }
}

fn with_schema(
    alloc: Global,
    found: Option<Walk>,
    schema: &Schema,
) -> Result<Option<Walk>, AllocError>
    ensures { IfOk result (λ w. w ≡ longest_so found (walks_of (schema_view schema.now))) }
{
    match schema {
        Schema::Bool(_) => Ok(found),
        Schema::Object(object) => {
            let walk = own_walk(alloc, &object.walk)?;
            Ok(Some(with_walk(found, walk)))
        }
    }
}

#[tactic(auto, using(crate::proofs::Folded::split))]
fn with_list(
    alloc: Global,
    found: Option<Walk>,
    list: &Vec<Schema>,
) -> Result<Option<Walk>, AllocError>
    ensures { IfOk result (λ w. w ≡ longest_so found (walks_of_all (schemas (schemas_view list.now.items)))) }
{
    let mut longest = found;
    for schema in list {
        longest = with_schema(alloc, longest, schema)?;
    }
    Ok(longest)
}

fn with_maybe_list(
    alloc: Global,
    found: Option<Walk>,
    list: &Option<Vec<Schema>>,
) -> Result<Option<Walk>, AllocError>
    ensures { IfOk result (λ w. w ≡ longest_so found (walks_of_list (maybe_list_view (option_map (λ v. v.items) list.now)))) }
{
    match list {
        Some(list) => with_list(alloc, found, list),
        None => Ok(found),
    }
}

fn with_maybe(
    alloc: Global,
    found: Option<Walk>,
    schema: &Option<Box<Schema>>,
) -> Result<Option<Walk>, AllocError>
    ensures { IfOk result (λ w. w ≡ longest_so found (walks_of_maybe (maybe_view schema.now))) }
{
    match schema {
        Some(schema) => with_schema(alloc, found, schema),
        None => Ok(found),
    }
}

fn among(alloc: Global, subschemas: &Subschemas) -> Result<Option<Walk>, AllocError>
    ensures { IfOk result (λ w. w ≡ longest_so None (walks_of_same (subschemas_view subschemas.now))) }
{
    let all = with_maybe_list(alloc, None, &subschemas.all_of)?;
    let any = with_maybe_list(alloc, all, &subschemas.any_of)?;
    let one = with_maybe_list(alloc, any, &subschemas.one_of)?;
    let none = with_maybe(alloc, one, &subschemas.not)?;
    Ok(none)
}

fn found_among(alloc: Global, subschemas: &Option<Subschemas>) -> Result<Option<Walk>, AllocError>
    ensures { IfOk result (λ w. w ≡ longest_so None (walks_of_same (same_of (option_map subschemas_view subschemas.now)))) }
{
    match subschemas {
        Some(subschemas) => among(alloc, subschemas),
        None => Ok(None),
    }
}

// The longest of their walks, or the walk where there are none.
#[tactic(auto, using(crate::proofs::Folded::some_chosen, crate::proofs::Folded::none_chosen))]
pub(crate) fn longest_of(
    alloc: Global,
    walk: &Walk,
    subschemas: &Option<Subschemas>,
) -> Result<Walk, AllocError>
    ensures { IfOk result (λ w. w ≡ longest_or walk.now (walks_of_same (same_of (option_map subschemas_view subschemas.now)))) }
{
    match found_among(alloc, subschemas)? {
        Some(longest) => Ok(longest),
        None => {
            let copy = walk.try_clone(alloc)?;
            Ok(copy)
        }
    }
}
