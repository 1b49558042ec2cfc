//! What is asked of the items of a list.
ghost use Rattle.std.specs.Prelude.{◌≡◌, option_map};
ghost use Rattle.value_models.specs.TypeView.{type_view};
ghost use Rattle.value_parts.specs.At.{demand_at, fits as fits_in, wanted};
ghost use Rattle.value_parts.specs.Entries.{demand_view};

use value_models::{Field, ValueType};

/// What is asked of the items of a list: of each one type, or at each place a type, or that of a field.
#[derive(Clone, Copy)]
pub enum Demand<'a> {
    Each(&'a ValueType),
    Types(&'a [ValueType]),
    Fields(&'a [Field]),
}

/// The type at a place.
#[tactic(auto, using(crate::proofs::Behind::type_behind, crate::proofs::Behind::field_there, crate::proofs::Behind::field_nowhere))]
pub fn type_at<'a>(demand: Demand<'a>, place: usize) -> Option<&'a ValueType>
    ensures { option_map (λ t. type_view t.now) result ≡ demand_at (demand_view demand.entry) place }
{
    match demand {
        Demand::Each(ty) => Some(ty),
        Demand::Types(types) => types.get(place),
        Demand::Fields(fields) => match fields.get(place) {
            Some(field) => Some(&field.field_type),
            None => None,
        },
    }
}

/// How many items are asked for, if their number is.
#[tactic(auto, using(crate::proofs::Behind::types_counted, crate::proofs::Behind::fields_counted))]
pub fn length_of(demand: Demand<'_>) -> Option<u64>
    ensures { result ≡ wanted (demand_view demand.entry) }
{
    match demand {
        Demand::Each(_) => None,
        Demand::Types(types) => Some(types.len() as u64),
        Demand::Fields(fields) => Some(fields.len() as u64),
    }
}

/// Whether a list of so many items has the length that is asked, if one is.
pub fn fits(asked: Option<u64>, count: usize) -> bool
    ensures { result ≡ fits_in asked count }
{
    match asked {
        Some(asked) => count as u64 == asked,
        None => true,
    }
}
