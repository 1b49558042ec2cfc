//! Subschemas, as lists that are merged one after another.
ghost use Rattle.std.specs.Prelude.{◌≡◌, [], ◌∷◌, IfOk, option_map};
ghost use Rattle.schema_types.specs.View.{maybe_list_view, maybe_view, schemas_view, subschemas_view};
ghost use Rattle.merge_branches.specs.Parts.{all_listed, any_listed, listed_or_none, none_listed, one_listed, some_listed};

use schema_types::{Schema, Subschemas};
use std::alloc::{AllocError, Global};

/// `allOf` and `not` as lists, of which the second has at most one schema, and `anyOf` and `oneOf`, which may be missing.
#[derive(Drop)]
pub struct SameParts {
    pub all: Vec<Schema>,
    pub none: Vec<Schema>,
    pub any: Option<Vec<Schema>>,
    pub one: Option<Vec<Schema>>,
}

#[tactic(auto, using(crate::proofs::Listed::list_of))]
fn listed(alloc: Global, list: Option<Vec<Schema>>) -> Vec<Schema>
    ensures { schemas_view result.items ≡ listed_or_none (maybe_list_view (option_map (λ v. v.items) list)) }
{
    match list {
        Some(list) => list,
        None => Vec::new(alloc),
    }
}

fn at_most_one(alloc: Global, schema: Option<Box<Schema>>) -> Result<Vec<Schema>, AllocError>
    ensures { IfOk result (λ v. schemas_view v.items ≡ some_listed (maybe_view schema)) }
{
    let mut list = Vec::new(alloc);
    if let Some(schema) = schema {
        list.push(Box::into_inner(schema))?;
    }
    Ok(list)
}

/// The parts of subschemas.
pub fn parts_of(alloc: Global, same: Subschemas) -> Result<SameParts, AllocError>
    ensures all { IfOk result (λ p. schemas_view p.all.items ≡ all_listed (subschemas_view same)) }
    ensures none { IfOk result (λ p. schemas_view p.none.items ≡ none_listed (subschemas_view same)) }
    ensures any { IfOk result (λ p. maybe_list_view (option_map (λ v. v.items) p.any) ≡ any_listed (subschemas_view same)) }
    ensures one { IfOk result (λ p. maybe_list_view (option_map (λ v. v.items) p.one) ≡ one_listed (subschemas_view same)) }
{
    let Subschemas {
        all_of,
        any_of,
        one_of,
        not,
        conditional: _conditional,
    } = same;
    let none = at_most_one(alloc, not)?;
    Ok(SameParts {
        all: listed(alloc, all_of),
        none,
        any: any_of,
        one: one_of,
    })
}
