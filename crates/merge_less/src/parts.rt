//! The subschemas of what is taken away, as lists.
ghost use Rattle.std.specs.Prelude.{◌≡◌, IfOk, option_map};
ghost use Rattle.schema_defs.specs.Schema.{Schema as SchemaOf, schemas};
ghost use Rattle.schema_types.specs.View.{maybe_list_view, maybe_view, same_of, schema_view, schemas_view, subschemas_view};
ghost use Rattle.merge_defs.specs.Outcome.{Outcome};
ghost use Rattle.merge_defs.specs.Less.{less_all, less_any, less_each, less_not, less_same, merge_from, merge_schemas};
ghost use Rattle.merge_less.specs.Taking.{less_all_outcome, parts_outcome};

use crate::taking::Listed;
use schema_types::{Schema, Subschemas};
use std::alloc::{AllocError, Global};

/// What stands in `anyOf`, `not` and `allOf`.
#[derive(Drop)]
pub(crate) struct Parts {
    pub any: Vec<Schema>,
    pub none: Vec<Schema>,
    pub all: Option<Listed>,
}

fn each_of(alloc: Global, list: Option<Vec<Schema>>) -> Vec<Schema>
    ensures { (join less : SchemaOf → SchemaOf → Outcome SchemaOf) (s : SchemaOf) → less_each join less (schemas (schemas_view result.items)) s ≡ less_any join less (maybe_list_view (option_map (λ v. v.items) list)) s }
{
    match list {
        Some(list) => list,
        None => Vec::new(alloc),
    }
}

#[tactic(auto, using(crate::proofs::Dividing::from_one))]
fn at_most_one(alloc: Global, schema: Option<Box<Schema>>) -> Result<Vec<Schema>, AllocError>
    ensures { IfOk result (λ v. (join less : SchemaOf → SchemaOf → Outcome SchemaOf) (s : SchemaOf) → merge_from join less s (schemas (schemas_view v.items)) ≡ less_not join less (maybe_view schema) s) }
{
    let mut list = Vec::new(alloc);
    if let Some(schema) = schema {
        list.push(Box::into_inner(schema))?;
    }
    Ok(list)
}

/// The first schema and the others; of none the first is `true`.
pub fn divided(list: Vec<Schema>) -> Listed
    ensures { (join less : SchemaOf → SchemaOf → Outcome SchemaOf) → merge_from join less (schema_view result.first) (schemas (schemas_view result.rest.items)) ≡ merge_schemas join less (schemas (schemas_view list.items)) }
{
    let mut rest = list;
    if rest.is_empty() {
        return Listed {
            first: Schema::Bool(true),
            rest,
        };
    }
    let first = rest.remove(0);
    Listed { first, rest }
}

fn all_of(list: Option<Vec<Schema>>) -> Option<Listed>
    ensures { (join less : SchemaOf → SchemaOf → Outcome SchemaOf) (s : SchemaOf) → less_all_outcome join less result s ≡ less_all join less (maybe_list_view (option_map (λ v. v.items) list)) s }
{
    match list {
        None => None,
        Some(list) => Some(divided(list)),
    }
}

#[tactic(auto, using(crate::proofs::Dividing::parts_seen))]
fn divide(alloc: Global, subschemas: Subschemas) -> Result<Parts, AllocError>
    ensures { IfOk result (λ p. (join less : SchemaOf → SchemaOf → Outcome SchemaOf) (s : SchemaOf) → parts_outcome join less p.any.items p.none.items p.all s ≡ less_same join less (subschemas_view subschemas) s) }
{
    let Subschemas {
        all_of: all,
        any_of: any,
        one_of: _one_of,
        not,
        conditional: _conditional,
    } = subschemas;
    let none = at_most_one(alloc, not)?;
    Ok(Parts {
        any: each_of(alloc, any),
        none,
        all: all_of(all),
    })
}

/// The subschemas that are taken away, if any stand there.
pub(crate) fn parts_of(alloc: Global, subschemas: Option<Subschemas>) -> Result<Parts, AllocError>
    ensures { IfOk result (λ p. (join less : SchemaOf → SchemaOf → Outcome SchemaOf) (s : SchemaOf) → parts_outcome join less p.any.items p.none.items p.all s ≡ less_same join less (same_of (option_map subschemas_view subschemas)) s) }
{
    match subschemas {
        None => Ok(Parts {
            any: Vec::new(alloc),
            none: Vec::new(alloc),
            all: None,
        }),
        Some(subschemas) => divide(alloc, subschemas),
    }
}
