//! The schemas of two sides by place.
ghost use Rattle.std.specs.Prelude.{◌≡◌, max, length, IfOk, get_or};
ghost use Rattle.schema_defs.specs.Schema.{schemas};
ghost use Rattle.schema_types.specs.View.{schema_view, schemas_view};
ghost use Rattle.merge_defs.specs.Arrays.{pairs as pairs_of};
ghost use Rattle.merge_lists.specs.Plans.{pair_view, pairs_view};

use crate::plan::Pair;
use schema_types::Schema;
use std::alloc::{AllocError, Global};

// The schema at a place, or what binds the places after the list.
fn at_place<'s>(list: &'s Vec<Schema>, place: usize, after: &'s Schema) -> &'s Schema
    ensures { schema_view result.now ≡ get_or (schemas_view list.now.items) place (schema_view after.now) }
{
    match list.get(place) {
        Some(schema) => schema,
        None => after,
    }
}

fn pair(alloc: Global, first: &Schema, second: &Schema) -> Result<Pair, AllocError>
    ensures { IfOk result (λ p. pair_view p ≡ (schema_view first.now, schema_view second.now)) }
{
    Ok(Pair {
        first: first.try_clone(alloc)?,
        second: second.try_clone(alloc)?,
    })
}

/// The schemas of two lists by place; the shorter goes on with the schema that binds what comes after it.
#[tactic(auto, using(crate::proofs::Paired::pairs_begin, crate::proofs::Paired::pairs_step, crate::proofs::Paired::pairs_end))]
pub(crate) fn paired(
    alloc: Global,
    list: &Vec<Schema>,
    after: &Schema,
    others: &Vec<Schema>,
    after_others: &Schema,
) -> Result<Vec<Pair>, AllocError>
    ensures { IfOk result (λ v. pairs_view v.items ≡ pairs_of (schemas (schemas_view list.now.items)) (schema_view after.now) (schemas (schemas_view others.now.items)) (schema_view after_others.now)) }
{
    let count = list.len().max(others.len());
    let mut pairs = Vec::with_capacity(alloc, count)?;
    for place in 0..count {
        let first = at_place(list, place, after);
        let second = at_place(others, place, after_others);
        pairs.push(pair(alloc, first, second)?)?;
    }
    Ok(pairs)
}
