//! Typed values built of their parts.
ghost use Rattle.std.specs.Prelude.{◌≡◌, [], IfErr, IfOk};
ghost use Rattle.typed_defs.specs.Typed.{list as list_typed, map_of as map_typed, newtype as newtype_typed, pairs, some as some_typed, struct as struct_typed, typeds, variant as variant_typed};
ghost use Rattle.value_models.specs.TypedView.{pairs_view, typed_view, typeds_view};

use schema_texts::TextFault;
use std::alloc::Global;
use value_models::Typed;

/// A list of the values.
#[tactic(auto, using(crate::proofs::TypedViews::list_seen))]
pub fn list_of(values: Vec<Typed>) -> Typed
    ensures { typed_view result ≡ list_typed (typeds (typeds_view values.items)) }
{
    Typed::List(values)
}

#[tactic(auto, using(crate::proofs::TypedViews::map_seen))]
pub(crate) fn map_of(found: Vec<(Typed, Typed)>) -> Typed
    ensures { typed_view result ≡ map_typed (pairs (pairs_view found.items)) }
{
    Typed::Map(found)
}

#[tactic(auto, using(crate::proofs::TypedViews::struct_seen))]
pub(crate) fn struct_of(values: Vec<Typed>) -> Typed
    ensures { typed_view result ≡ struct_typed (typeds (typeds_view values.items)) }
{
    Typed::Struct(values)
}

#[tactic(auto, using(crate::proofs::TypedViews::variant_seen))]
pub(crate) fn variant_of(place: u32, values: Vec<Typed>) -> Typed
    ensures { typed_view result ≡ variant_typed place (typeds (typeds_view values.items)) }
{
    Typed::Variant(place, values)
}

#[tactic(auto, using(crate::proofs::TypedViews::some_seen))]
fn some_in(held: Box<Typed>) -> Typed
    ensures { typed_view result ≡ some_typed (typed_view held.value) }
{
    Typed::Some(held)
}

#[tactic(auto, using(crate::proofs::TypedViews::newtype_seen))]
fn newtype_in(held: Box<Typed>) -> Typed
    ensures { typed_view result ≡ newtype_typed (typed_view held.value) }
{
    Typed::Newtype(held)
}

fn boxed(alloc: Global, typed: Typed) -> Result<Box<Typed>, TextFault>
    ensures answer { IfOk result (λ b. b.value ≡ typed) }
    ensures memory { IfErr result (λ e. e ≡ TextFault.Memory) }
{
    match Box::new(alloc, typed) {
        Ok(held) => Ok(held),
        Err(_) => Err(TextFault::Memory),
    }
}

pub(crate) fn some_of(alloc: Global, typed: Typed) -> Result<Typed, TextFault>
    ensures answer { IfOk result (λ x. typed_view x ≡ some_typed (typed_view typed)) }
    ensures memory { IfErr result (λ e. e ≡ TextFault.Memory) }
{
    let held = boxed(alloc, typed)?;
    Ok(some_in(held))
}

pub(crate) fn newtype_of(alloc: Global, typed: Typed) -> Result<Typed, TextFault>
    ensures answer { IfOk result (λ x. typed_view x ≡ newtype_typed (typed_view typed)) }
    ensures memory { IfErr result (λ e. e ≡ TextFault.Memory) }
{
    let held = boxed(alloc, typed)?;
    Ok(newtype_in(held))
}

pub(crate) fn no_items(alloc: Global) -> Typed
    ensures { typed_view result ≡ list_typed (typeds []) }
{
    list_of(Vec::new(alloc))
}

pub(crate) fn no_pairs(alloc: Global) -> Typed
    ensures { typed_view result ≡ map_typed (pairs []) }
{
    map_of(Vec::new(alloc))
}

pub(crate) fn bare_variant(alloc: Global, place: u32) -> Typed
    ensures { typed_view result ≡ variant_typed place (typeds []) }
{
    variant_of(place, Vec::new(alloc))
}
