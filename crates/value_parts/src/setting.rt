//! What reading goes by.
ghost use Rattle.std.specs.Prelude.{◌≡◌, ◌∷◌, IfErr, IfOk, length, map, nat_eq, option_map, slice_get};
ghost use Rattle.std.specs.List.{list_any};
ghost use Rattle.model_defs.specs.Reads.{allowed as allowed_in};
ghost use Rattle.conversion_table.specs.Conversions.{conversions_view};
ghost use Rattle.json_value.specs.View.{kept_view};
ghost use Rattle.value_models.specs.ContainersView.{containers_in};

use conversion_table::Conversions;
use schema_texts::TextFault;
use serde_json::Value;
use std::alloc::Global;
use value_models::Containers;

/// So many levels of reading may stand in one another: parts of values, items that are entered at one value, and defaults of
/// what is left out. Values nest 127 deep at most.
pub const MOST_LEVELS: usize = 1000;

/// What reading goes by: the tables, the places of the stated defaults that were entered on the way (the last first), how
/// many more may be, and how many levels.
#[derive(Clone, Copy)]
pub struct Setting<'a> {
    pub alloc: Global,
    pub containers: &'a Containers,
    pub conversions: &'a Conversions,
    pub entered: &'a [u32],
    pub more: usize,
    pub levels: usize,
}

impl<'a> Setting<'a> {
    /// How many items may be entered at one value.
    pub fn allowed(&self) -> usize
        ensures { result ≡ allowed_in (containers_in self.now.containers.now) }
    {
        self.containers.count() + 1
    }

    /// Whether the place of a stated default was entered on the way.
    pub fn is_entered(&self, place: u32) -> bool
        ensures { result ≡ list_any (nat_eq place) self.now.entered.now }
    {
        is_among(self.entered, place)
    }

    /// The stated default at a place.
    pub fn default_at(&self, place: u32) -> Option<&'a Value>
        ensures { option_map (λ v. kept_view v.now) result ≡ slice_get (map kept_view self.now.conversions.now.defaults.items) place }
    {
        value_at(&self.conversions.defaults, place)
    }
}

#[tactic(auto, using(crate::proofs::Behind::value_behind))]
fn value_at(values: &[Value], place: u32) -> Option<&Value>
    ensures { option_map (λ v. kept_view v.now) result ≡ slice_get (map kept_view values.now) place }
{
    values.get(place as usize)
}

/// How many stated defaults the table has.
#[tactic(auto, using(crate::proofs::Behind::values_counted))]
pub fn count_defaults(conversions: &Conversions) -> usize
    ensures { result ≡ length (conversions_view conversions.now).defaults }
{
    conversions.defaults.len()
}

fn is_among(places: &[u32], place: u32) -> bool
    ensures { result ≡ list_any (nat_eq place) places.now }
{
    for other in places {
        if place == *other {
            return true;
        }
    }
    false
}

/// The places with one more in front.
pub fn with_entered(alloc: Global, place: u32, entered: &[u32]) -> Result<Vec<u32>, TextFault>
    ensures answer { IfOk result (λ v. v.items ≡ place ∷ entered.now) }
    ensures memory { IfErr result (λ e. e ≡ TextFault.Memory) }
{
    let mut places = Vec::new(alloc);
    match places.push(place) {
        Ok(()) => {}
        Err(_) => return Err(TextFault::Memory),
    }
    match places.extend_from_slice(entered) {
        Ok(()) => Ok(places),
        Err(_) => Err(TextFault::Memory),
    }
}
