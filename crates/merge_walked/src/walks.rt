//! Walks to children and to targets, and the mark of what a merge made.
ghost use Rattle.std.specs.Prelude.{◌≡◌, [], ◌∷◌, ◌++◌, IfOk, option_map, unwrap_or, string_bytes, bytes_eq};
ghost use Rattle.std.specs.Cmp.Lexicographic.{pointwise};
ghost use Rattle.schema_defs.specs.Location.{place as place_of};
ghost use Rattle.merge_walks.specs.Carried.{root_walk as root_walk_of, to_child as to_child_of, to_target as to_target_of, has_more_steps as has_more_steps_of, made_on as made_on_of, is_made as is_made_of, unmarked as unmarked_of};
ghost use Rattle.merge_walks.specs.Made.{longer as longer_of};

use schema_types::{Location, Walk};
use std::alloc::{AllocError, Global};

// The walk with one more place.
fn with_place(alloc: Global, walk: &Walk, place: Location) -> Result<Walk, AllocError>
    ensures { IfOk result (λ w. w ≡ walk.now ++ place ∷ []) }
{
    let mut longer = walk.try_clone(alloc)?;
    longer.locations.push(place)?;
    Ok(longer)
}

/// The walk to a child under a keyword. Fails only for want of memory, as all here that takes an allocator.
pub fn to_child(alloc: Global, walk: &Walk, keyword: &str) -> Result<Walk, AllocError>
    ensures { IfOk result (λ w. w ≡ to_child_of walk.now (keyword.now ∷ [])) }
{
    let last = walk.last(alloc)?;
    let place = last.child(alloc, keyword)?;
    with_place(alloc, walk, place)
}

/// The walk to a child under a name that stands under a keyword.
pub fn to_member(alloc: Global, walk: &Walk, keyword: &str, name: &str) -> Result<Walk, AllocError>
    ensures { IfOk result (λ w. w ≡ to_child_of walk.now (keyword.now ∷ name.now ∷ [])) }
{
    let last = walk.last(alloc)?;
    let list = last.child(alloc, keyword)?;
    let place = list.child(alloc, name)?;
    with_place(alloc, walk, place)
}

// The decimal digits of a place.
fn digits(alloc: Global, place: usize) -> Result<String, AllocError>
    ensures { IfOk result (λ s. string_bytes s ≡ place_of place) }
{
    let text = place.to_string(alloc)?;
    Ok(text)
}

/// The walk to a child at a place of the list under a keyword.
pub fn to_place(alloc: Global, walk: &Walk, keyword: &str, place: usize) -> Result<Walk, AllocError>
    ensures { IfOk result (λ w. w ≡ to_child_of walk.now (keyword.now ∷ place_of place ∷ [])) }
{
    let step = digits(alloc, place)?;
    to_member(alloc, walk, keyword, &step)
}

/// The walk to the target of a reference, where it has one.
pub fn to_target(alloc: Global, walk: &Walk, target: &Option<Location>) -> Result<Walk, AllocError>
    ensures { IfOk result (λ w. w ≡ to_target_of walk.now target.now) }
{
    match target {
        Some(place) => {
            let copy = place.try_clone(alloc)?;
            with_place(alloc, walk, copy)
        }
        None => walk.try_clone(alloc),
    }
}

/// Whether the walk has more steps than so many.
pub fn has_more_steps(most: usize, walk: &Walk) -> bool
    ensures { result ≡ has_more_steps_of most walk.now }
{
    let places = walk.locations.len();
    places > 0 && places - 1 > most
}

/// The longer of two walks, the first at a tie.
pub fn longer<'w>(first: &'w Walk, second: &'w Walk) -> &'w Walk
    ensures { result.now ≡ longer_of first.now second.now }
{
    if first.locations.len() < second.locations.len() {
        second
    } else {
        first
    }
}

// ---- the mark

/// The walk of what a merge made.
pub fn made_on(alloc: Global, walk: Walk) -> Result<Walk, AllocError>
    ensures { IfOk result (λ w. w ≡ made_on_of walk) }
{
    let last = walk.last(alloc)?;
    let mut marked = walk;
    marked.locations.push(last)?;
    Ok(marked)
}

#[tactic(auto, using(schema_types::proofs::Lists::pointwise_of_texts))]
fn same_place(a: &Location, b: &Location) -> bool
    ensures { result ≡ pointwise bytes_eq a.now b.now }
{
    a.steps == b.steps
}

/// Whether the walk is that of what a merge made.
pub fn is_made(walk: &Walk) -> bool
    ensures { result ≡ is_made_of walk.now }
{
    let Some((last, front)) = walk.locations.split_last() else {
        return false;
    };
    let Some((before, _)) = front.split_last() else {
        return false;
    };
    same_place(before, last)
}

/// The walk without the mark.
pub fn unmarked(walk: Walk) -> Walk
    ensures { result ≡ unmarked_of walk }
{
    if !is_made(&walk) {
        return walk;
    }
    let mut walk = walk;
    let _ = walk.locations.pop();
    walk
}

// That of the root.
pub(crate) fn root_walk(alloc: Global) -> Result<Walk, AllocError>
    ensures { IfOk result (λ w. w ≡ root_walk_of) }
{
    let mut locations = Vec::new(alloc);
    locations.push(Location::root(alloc))?;
    Ok(Walk { locations })
}

/// The walk that a schema itself has, without the mark, or the root's.
pub fn own_walk(alloc: Global, walk: &Option<Walk>) -> Result<Walk, AllocError>
    ensures { IfOk result (λ w. w ≡ unwrap_or (option_map unmarked_of walk.now) root_walk_of) }
{
    match walk {
        Some(walk) => {
            let copy = walk.try_clone(alloc)?;
            Ok(unmarked(copy))
        }
        None => root_walk(alloc),
    }
}
