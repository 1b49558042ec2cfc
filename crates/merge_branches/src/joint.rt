//! The body with one member and without the others.
ghost use Rattle.std.specs.Prelude.{◌≡◌, ◌++◌, ◌∷◌, [], IfOk, OnOk};
ghost use Rattle.schema_types.specs.View.{schema_view, schemas_view};
ghost use Rattle.merge_defs.specs.Members.{joint as joint_of, negations};

use crate::alone::{all_of, negation};
use schema_types::Schema;
use std::alloc::{AllocError, Global};

// The negations of the schemas, behind what is there.
#[tactic(auto, using(crate::proofs::Negations::negation_step, crate::proofs::Negations::negation_last))]
fn push_negations(
    alloc: Global,
    all: &mut Vec<Schema>,
    schemas: &[Schema],
) -> Result<(), AllocError>
    ensures { OnOk result (schemas_view all.new.items ≡ schemas_view all.old.items ++ negations (schemas_view schemas.now)) }
{
    for schema in schemas {
        let negated = negation(alloc, schema)?;
        all.push(negated)?;
    }
    Ok(())
}

#[tactic(auto, using(crate::proofs::Negations::pushed_both))]
fn push_others(
    alloc: Global,
    all: &mut Vec<Schema>,
    before: &[Schema],
    after: &[Schema],
) -> Result<(), AllocError>
    ensures { OnOk result (schemas_view all.new.items ≡ schemas_view all.old.items ++ negations (schemas_view before.now ++ schemas_view after.now)) }
{
    push_negations(alloc, all, before)?;
    push_negations(alloc, all, after)?;
    Ok(())
}

fn both(alloc: Global, body: &Schema, member: &Schema) -> Result<Vec<Schema>, AllocError>
    ensures { IfOk result (λ v. schemas_view v.items ≡ schema_view body.now ∷ schema_view member.now ∷ []) }
{
    let mut all = Vec::new(alloc);
    let first = body.try_clone(alloc)?;
    all.push(first)?;
    let second = member.try_clone(alloc)?;
    all.push(second)?;
    Ok(all)
}

/// `allOf` of the body, the member and the negations of the others, those before it and those after it.
#[tactic(auto, using(crate::proofs::Negations::jointly))]
pub(crate) fn joint(
    alloc: Global,
    body: &Schema,
    before: &[Schema],
    member: &Schema,
    after: &[Schema],
) -> Result<Schema, AllocError>
    ensures { IfOk result (λ s. schema_view s ≡ joint_of (schema_view body.now) (schema_view member.now) (schemas_view before.now ++ schemas_view after.now)) }
{
    let mut all = both(alloc, body, member)?;
    push_others(alloc, &mut all, before, after)?;
    let schema = all_of(alloc, all)?;
    Ok(schema)
}
