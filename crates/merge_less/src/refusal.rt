//! What nothing is taken away from, or isn't taken away: conditionals, and more than one of `allOf`, `anyOf`, `oneOf` and `not`.
ghost use Rattle.std.specs.Prelude.{◌≡◌, ◌≤◌, ◌&&◌, ◌||◌, List, nat_eq, nat_le, not, option_map};
ghost use Rattle.schema_defs.specs.Counts.{is_list, one_if as one_if_of};
ghost use Rattle.schema_defs.specs.Schema.{Schema as SchemaOf};
ghost use Rattle.schema_types.specs.View.{same_of, subschemas_view};
ghost use Rattle.merge_defs.specs.Outcome.{Note, Outcome};
ghost use Rattle.merge_defs.specs.Less.{is_conditional as is_conditional_of, is_one_subschema as is_one_subschema_of, subschema_count as subschema_count_of};
ghost use Rattle.schema_sameness.specs.Parts.{one_in};
ghost use Rattle.merge_steps.specs.Ends.{Goes};
ghost use Rattle.merge_less.specs.Rows.{refusing};

use merge_parts::UnsupportedMerge;
use merge_sides::unsupported;
use merge_steps::Stop;
use schema_types::Subschemas;

fn one_if(is_there: bool) -> u32
    ensures counted { result ≡ one_if_of is_there }
    ensures bound { result ≤ 1 }
{
    if is_there { 1 } else { 0 }
}

#[tactic(auto, using(crate::proofs::Refusing::counted))]
fn count(subschemas: &Subschemas) -> u32
    ensures { result ≡ subschema_count_of (subschemas_view subschemas.now) }
{
    let all = one_if(subschemas.all_of.is_some());
    let any = one_if(subschemas.any_of.is_some());
    let one = one_if(subschemas.one_of.is_some());
    let none = one_if(subschemas.not.is_some());
    all + any + one + none
}

fn has_one_of(subschemas: &Subschemas) -> bool
    ensures { result ≡ is_list (one_in (subschemas_view subschemas.now)) }
{
    subschemas.one_of.is_some()
}

fn is_one_other(count: u32, has_one_of: bool) -> bool
    ensures { result ≡ (nat_eq count 1 && not has_one_of) }
{
    count == 1 && !has_one_of
}

// One of anyOf, not and allOf.
#[tactic(auto, using(crate::proofs::Refusing::one_alone))]
fn is_one(subschemas: &Subschemas) -> bool
    ensures { result ≡ is_one_subschema_of (subschemas_view subschemas.now) }
{
    let count = count(subschemas);
    let has_one_of = has_one_of(subschemas);
    is_one_other(count, has_one_of)
}

pub(crate) fn is_one_subschema(subschemas: &Option<Subschemas>) -> bool
    ensures { result ≡ is_one_subschema_of (same_of (option_map subschemas_view subschemas.now)) }
{
    match subschemas {
        None => false,
        Some(subschemas) => is_one(subschemas),
    }
}

fn is_conditional(subschemas: &Option<Subschemas>) -> bool
    ensures { result ≡ is_conditional_of (same_of (option_map subschemas_view subschemas.now)) }
{
    match subschemas {
        None => false,
        Some(subschemas) => subschemas.conditional,
    }
}

fn is_either_conditional(first: &Option<Subschemas>, second: &Option<Subschemas>) -> bool
    ensures { result ≡ (is_conditional_of (same_of (option_map subschemas_view first.now)) || is_conditional_of (same_of (option_map subschemas_view second.now))) }
{
    is_conditional(first) || is_conditional(second)
}

fn has_two(subschemas: &Option<Subschemas>) -> bool
    ensures { result ≡ nat_le 2 (subschema_count_of (same_of (option_map subschemas_view subschemas.now))) }
{
    match subschemas {
        None => false,
        Some(subschemas) => count(subschemas) >= 2,
    }
}

/// Refuses subschemas that are unsupported where the second are taken away from the first.
#[tactic(auto, using(crate::proofs::Refusing::conditional_goes, crate::proofs::Refusing::two_go, crate::proofs::Refusing::none_goes))]
pub(crate) fn refuse(first: &Option<Subschemas>, second: &Option<Subschemas>) -> Result<(), Stop>
    ensures { (o : Outcome SchemaOf) (ns : List Note) → Goes (λ u. o) ns ns (refusing (same_of (option_map subschemas_view first.now)) (same_of (option_map subschemas_view second.now)) o) result }
{
    if is_either_conditional(first, second) {
        return Err(unsupported(UnsupportedMerge::Conditional));
    }
    if has_two(second) {
        return Err(unsupported(UnsupportedMerge::Subtracting));
    }
    Ok(())
}
