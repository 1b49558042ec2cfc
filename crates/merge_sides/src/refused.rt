//! What no merge is made of: conditionals, `anyOf` beside `oneOf`, and names by pattern that may bind a property of the other side.
ghost use Rattle.std.specs.Prelude.{◌≡◌, List, option_map};
ghost use Rattle.schema_defs.specs.Schema.{Schema as SchemaOf};
ghost use Rattle.schema_types.specs.View.{members_view, named_of, same_of, subschemas_view};
ghost use Rattle.merge_defs.specs.Outcome.{Note, Outcome};
ghost use Rattle.merge_defs.specs.Less.{is_conditional as is_conditional_of};
ghost use Rattle.merge_defs.specs.Members.{refused};
ghost use Rattle.merge_defs.specs.Objects.{names_mix as names_mix_of, unless_mixed};
ghost use Rattle.merge_parts.specs.declared.fault.MergeFault.TheVariants.{Unsupported};
ghost use Rattle.merge_steps.specs.declared.stop.Stop.TheVariants.{Fault};
ghost use Rattle.merge_steps.specs.Ends.{Goes};
ghost use Rattle.merge_sides.specs.Referring.{any_beside_one};

use merge_members::names_mix;
use merge_parts::{MergeFault, UnsupportedMerge};
use merge_steps::Stop;
use schema_types::{ObjectValidation, Subschemas};

/// What is answered where no merge is made.
pub fn unsupported(what: UnsupportedMerge) -> Stop
    ensures { result ≡ Fault (Unsupported what) }
{
    Stop::Fault(MergeFault::Unsupported(what))
}

fn is_conditional(subschemas: &Subschemas) -> bool
    ensures { result ≡ is_conditional_of (subschemas_view subschemas.now) }
{
    subschemas.conditional
}

fn has_any_beside_one(subschemas: &Subschemas) -> bool
    ensures { result ≡ any_beside_one (subschemas_view subschemas.now) }
{
    subschemas.any_of.is_some() && subschemas.one_of.is_some()
}

#[tactic(auto, using(crate::proofs::Refusals::conditional_goes, crate::proofs::Refusals::any_one_goes, crate::proofs::Refusals::none_goes))]
fn refuse(subschemas: &Subschemas) -> Result<(), Stop>
    ensures { (o : Outcome SchemaOf) (ns : List Note) → Goes (λ u. o) ns ns (refused (subschemas_view subschemas.now) o) result }
{
    if is_conditional(subschemas) {
        return Err(unsupported(UnsupportedMerge::Conditional));
    }
    if has_any_beside_one(subschemas) {
        return Err(unsupported(UnsupportedMerge::AnyBesideOne));
    }
    Ok(())
}

/// Refuses subschemas that are unsupported, if any stand there.
pub fn refuse_subschemas(subschemas: &Option<Subschemas>) -> Result<(), Stop>
    ensures { (o : Outcome SchemaOf) (ns : List Note) → Goes (λ u. o) ns ns (refused (same_of (option_map subschemas_view subschemas.now)) o) result }
{
    match subschemas {
        None => Ok(()),
        Some(subschemas) => refuse(subschemas),
    }
}

/// Refuses names by pattern that may bind a property of the other side.
#[tactic(auto, using(crate::proofs::Refusals::names_goes, crate::proofs::Refusals::no_names_goes))]
pub(crate) fn refuse_names(
    first: &Option<ObjectValidation>,
    second: &Option<ObjectValidation>,
) -> Result<(), Stop>
    ensures { (o : Outcome SchemaOf) (ns : List Note) → Goes (λ u. o) ns ns (unless_mixed (names_mix_of (named_of (option_map members_view first.now)) (named_of (option_map members_view second.now))) o) result }
{
    if names_mix(first, second) {
        return Err(unsupported(UnsupportedMerge::PatternNames));
    }
    Ok(())
}
