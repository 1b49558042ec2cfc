//! A walk round, by the targets on it.
ghost use Rattle.std.specs.Prelude.{◌≡◌, ◌++◌, ◌<◌, length, IfOk, OnOk, reverse};
ghost use Rattle.schema_defs.specs.Walks as walks;
ghost use Rattle.schema_types.specs.DocumentView.{document_view};
ghost use Rattle.reference_graph.specs.Graph as graph;
ghost use Rattle.schema_loops.specs.Named.{target_names, named_graph};
ghost use Rattle.schema_loops.specs.Round.{places_down, GoesOn, IsNumbered, BeginsAt, location_at};

use crate::numbers::Numbers;
use crate::targets::{location_of, schema_of, target_at};
use crate::way::way_to;
use schema_types::{Document, Location, Walk};
use std::alloc::{AllocError, Global};

// The place that is these steps further.
fn joined(alloc: Global, place: &Location, steps: &Location) -> Result<Location, AllocError>
    ensures { IfOk result (λ l. l ≡ place.now ++ steps.now) }
{
    let mut longer = place.try_clone(alloc)?;
    for step in &steps.steps {
        longer = longer.child(alloc, step)?;
    }
    Ok(longer)
}

// Adds the places that the steps lead to, of which the last stands first.
fn push_down(
    alloc: Global,
    from: &Location,
    way: &[Location],
    places: &mut Vec<Location>,
) -> Result<(), AllocError>
    ensures { OnOk result (places.new.items ≡ places.old.items ++ places_down from.now (reverse way.now)) }
{
    let mut place = from.try_clone(alloc)?;
    for left in (0..way.len()).rev() {
        place = joined(alloc, &place, &way[left])?;
        places.push(place.try_clone(alloc)?)?;
    }
    Ok(())
}

// Adds the places on the way from a target to another, where a reference leads from the one to the other.
fn push_way(
    alloc: Global,
    document: &Document,
    targets: &[Option<&str>],
    numbers: &Numbers<'_>,
    from: usize,
    to: usize,
    places: &mut Vec<Location>,
) -> Result<(), AllocError>
    ensures { OnOk result (IsNumbered (document_view document.now) numbers.now targets.now → graph.Refers (named_graph (document_view document.now)) from to → to < length (target_names (document_view document.now)) → GoesOn (document_view document.now) (location_at (document_view document.now) from) (location_at (document_view document.now) to) places.old.items places.new.items) }
{
    let start = target_at(targets, from);
    let Some(schema) = schema_of(document, &start) else {
        return Ok(());
    };
    let Some(way) = way_to(alloc, schema, numbers, to)? else {
        return Ok(());
    };
    let place = location_of(alloc, document, &start)?;
    push_down(alloc, &place, &way, places)?;
    let end = target_at(targets, to);
    places.push(location_of(alloc, document, &end)?)?;
    Ok(())
}

// The walk round by the targets with these numbers.
pub(crate) fn walk_round(
    alloc: Global,
    document: &Document,
    targets: &[Option<&str>],
    numbers: &Numbers<'_>,
    path: &[usize],
) -> Result<Walk, AllocError>
    ensures round { IfOk result (λ walk. IsNumbered (document_view document.now) numbers.now targets.now → graph.IsLoop (named_graph (document_view document.now)) path.now → walks.IsLoop (document_view document.now) walk) }
    ensures start { IfOk result (λ walk. IsNumbered (document_view document.now) numbers.now targets.now → graph.IsLoop (named_graph (document_view document.now)) path.now → BeginsAt (document_view document.now) path.now walk) }
{
    let mut places = Vec::new(alloc);
    let Some((first, rest)) = path.split_first() else {
        return Ok(Walk { locations: places });
    };
    let mut at = *first;
    let start = target_at(targets, at);
    places.push(location_of(alloc, document, &start)?)?;
    for number in rest {
        push_way(alloc, document, targets, numbers, at, *number, &mut places)?;
        at = *number;
    }
    push_way(alloc, document, targets, numbers, at, *first, &mut places)?;
    Ok(Walk { locations: places })
}
