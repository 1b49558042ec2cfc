//! What reading a value gives.
ghost use Rattle.std.specs.Prelude.{◌≡◌, [], ◌∷◌, ◌++◌, IfErr, IfOk, option_map, string_bytes};
ghost use Rattle.schema_defs.specs.Location.{place as step_of};
ghost use Rattle.typed_defs.specs.Typed.{list as list_typed, map_of as map_typed, newtype, pairs, some as some_typed, struct as struct_typed, typeds};
ghost use Rattle.reading_defs.specs.Reading.{given as given_in, if_sound as if_sound_in, kept_if as kept_if_in, read_map, stopped, under, unit_of, variant_of as variant_in};
ghost use Rattle.value_models.specs.TypedView.{typed_view};
ghost use Rattle.value_parts.specs.Seen.{one_view, pair_view, pairs_read_view, several_view};

use crate::built::{bare_variant, list_of, map_of, newtype_of, some_of, struct_of, variant_of};
use locations::Location;
use schema_texts::TextFault;
use std::alloc::{AllocError, Global};
use value_models::Typed;

/// What reading a value gives, where memory and texts last.
#[derive(Drop)]
pub enum Outcome<T: Drop> {
    /// The value, as it was read.
    Taken(T),
    /// The place where reading stopped, from the value on.
    Refused(Location),
    /// A stated default was missed that its type doesn't read, or that was met inside itself.
    Unsound,
}

/// Refused itself. It takes no memory.
pub fn refused_here(alloc: Global) -> Outcome<Typed>
    ensures { one_view result ≡ stopped [] }
{
    Outcome::Refused(Location::root(alloc))
}

/// The same, where several values are read. It takes no memory.
pub fn refused_several(alloc: Global) -> Outcome<Vec<Typed>>
    ensures { several_view result ≡ stopped [] }
{
    Outcome::Refused(Location::root(alloc))
}

/// The same, where pairs are read. It takes no memory.
pub fn refused_pairs(alloc: Global) -> Outcome<Vec<(Typed, Typed)>>
    ensures { pairs_read_view result ≡ stopped [] }
{
    Outcome::Refused(Location::root(alloc))
}

fn one_step(alloc: Global, name: &str) -> Result<Location, AllocError>
    ensures { IfOk result (λ l. l ≡ name.now ∷ []) }
{
    let path = Location::root(alloc).child(alloc, name)?;
    Ok(path)
}

/// Refused at the member of that name.
pub fn refused_at(alloc: Global, name: &str) -> Result<Outcome<Typed>, TextFault>
    ensures answer { IfOk result (λ o. one_view o ≡ stopped (name.now ∷ [])) }
    ensures memory { IfErr result (λ e. e ≡ TextFault.Memory) }
{
    match one_step(alloc, name) {
        Ok(path) => Ok(Outcome::Refused(path)),
        Err(_) => Err(TextFault::Memory),
    }
}

/// The same, where several values are read.
pub fn refused_several_at(alloc: Global, name: &str) -> Result<Outcome<Vec<Typed>>, TextFault>
    ensures answer { IfOk result (λ o. several_view o ≡ stopped (name.now ∷ [])) }
    ensures memory { IfErr result (λ e. e ≡ TextFault.Memory) }
{
    match one_step(alloc, name) {
        Ok(path) => Ok(Outcome::Refused(path)),
        Err(_) => Err(TextFault::Memory),
    }
}

/// The same, where a pair is read.
pub fn refused_pair_at(alloc: Global, name: &str) -> Result<Outcome<(Typed, Typed)>, TextFault>
    ensures answer { IfOk result (λ o. pair_view o ≡ stopped (name.now ∷ [])) }
    ensures memory { IfErr result (λ e. e ≡ TextFault.Memory) }
{
    match one_step(alloc, name) {
        Ok(path) => Ok(Outcome::Refused(path)),
        Err(_) => Err(TextFault::Memory),
    }
}

// The place inside what stands at a step.
fn longer(alloc: Global, name: &str, path: Location) -> Result<Location, AllocError>
    ensures { IfOk result (λ l. l ≡ name.now ∷ path) }
{
    let step = String::from_str(alloc, name)?;
    let mut path = path;
    path.steps.insert(0, step)?;
    Ok(path)
}

/// What a member gives, at the object.
pub fn under_name(
    alloc: Global,
    name: &str,
    read: Outcome<Typed>,
) -> Result<Outcome<Typed>, TextFault>
    ensures answer { IfOk result (λ o. one_view o ≡ under name.now (one_view read)) }
    ensures memory { IfErr result (λ e. e ≡ TextFault.Memory) }
{
    match read {
        Outcome::Taken(typed) => Ok(Outcome::Taken(typed)),
        Outcome::Refused(path) => match longer(alloc, name, path) {
            Ok(path) => Ok(Outcome::Refused(path)),
            Err(_) => Err(TextFault::Memory),
        },
        Outcome::Unsound => Ok(Outcome::Unsound),
    }
}

/// A name that was read, with what the value of its member gives.
pub fn paired(
    alloc: Global,
    name: &str,
    first: Typed,
    read: Outcome<Typed>,
) -> Result<Outcome<(Typed, Typed)>, TextFault>
    ensures answer { IfOk result (λ o. pair_view o ≡ under name.now (read_map (λ y. (typed_view first, y)) (one_view read))) }
    ensures memory { IfErr result (λ e. e ≡ TextFault.Memory) }
{
    match read {
        Outcome::Taken(second) => Ok(Outcome::Taken((first, second))),
        Outcome::Refused(path) => match longer(alloc, name, path) {
            Ok(path) => Ok(Outcome::Refused(path)),
            Err(_) => Err(TextFault::Memory),
        },
        Outcome::Unsound => Ok(Outcome::Unsound),
    }
}

// The decimal digits of a place.
fn digits(alloc: Global, place: usize) -> Result<String, AllocError>
    ensures { IfOk result (λ s. string_bytes s ≡ step_of place) }
{
    let text = place.to_string(alloc)?;
    Ok(text)
}

fn step_text(alloc: Global, place: usize) -> Result<String, TextFault>
    ensures answer { IfOk result (λ s. string_bytes s ≡ step_of place) }
    ensures memory { IfErr result (λ e. e ≡ TextFault.Memory) }
{
    match digits(alloc, place) {
        Ok(text) => Ok(text),
        Err(_) => Err(TextFault::Memory),
    }
}

/// What an item gives, at the list.
pub fn under_place(
    alloc: Global,
    place: usize,
    read: Outcome<Typed>,
) -> Result<Outcome<Typed>, TextFault>
    ensures answer { IfOk result (λ o. one_view o ≡ under (step_of place) (one_view read)) }
    ensures memory { IfErr result (λ e. e ≡ TextFault.Memory) }
{
    match read {
        Outcome::Refused(path) => {
            let step = step_text(alloc, place)?;
            let read = under_name(alloc, &step, Outcome::Refused(path))?;
            Ok(read)
        }
        Outcome::Taken(typed) => Ok(Outcome::Taken(typed)),
        Outcome::Unsound => Ok(Outcome::Unsound),
    }
}

/// Several as a list.
pub fn as_list(read: Outcome<Vec<Typed>>) -> Outcome<Typed>
    ensures { one_view result ≡ read_map (λ xs. list_typed (typeds xs)) (several_view read) }
{
    match read {
        Outcome::Taken(values) => Outcome::Taken(list_of(values)),
        Outcome::Refused(path) => Outcome::Refused(path),
        Outcome::Unsound => Outcome::Unsound,
    }
}

/// Several as the fields of a struct.
pub fn as_struct(read: Outcome<Vec<Typed>>) -> Outcome<Typed>
    ensures { one_view result ≡ read_map (λ xs. struct_typed (typeds xs)) (several_view read) }
{
    match read {
        Outcome::Taken(values) => Outcome::Taken(struct_of(values)),
        Outcome::Refused(path) => Outcome::Refused(path),
        Outcome::Unsound => Outcome::Unsound,
    }
}

/// Several as the fields of a variant.
pub fn as_variant(place: u32, read: Outcome<Vec<Typed>>) -> Outcome<Typed>
    ensures { one_view result ≡ read_map (variant_in place) (several_view read) }
{
    match read {
        Outcome::Taken(values) => Outcome::Taken(variant_of(place, values)),
        Outcome::Refused(path) => Outcome::Refused(path),
        Outcome::Unsound => Outcome::Unsound,
    }
}

/// A variant that has no fields.
pub fn as_unit(alloc: Global, place: u32, read: Outcome<Vec<Typed>>) -> Outcome<Typed>
    ensures { one_view result ≡ read_map (unit_of place) (several_view read) }
{
    match read {
        Outcome::Taken(_) => Outcome::Taken(bare_variant(alloc, place)),
        Outcome::Refused(path) => Outcome::Refused(path),
        Outcome::Unsound => Outcome::Unsound,
    }
}

/// Pairs as a map.
pub fn as_map(read: Outcome<Vec<(Typed, Typed)>>) -> Outcome<Typed>
    ensures { one_view result ≡ read_map (λ es. map_typed (pairs es)) (pairs_read_view read) }
{
    match read {
        Outcome::Taken(found) => Outcome::Taken(map_of(found)),
        Outcome::Refused(path) => Outcome::Refused(path),
        Outcome::Unsound => Outcome::Unsound,
    }
}

/// The inner value as a newtype.
pub fn as_newtype(alloc: Global, read: Outcome<Typed>) -> Result<Outcome<Typed>, TextFault>
    ensures answer { IfOk result (λ o. one_view o ≡ read_map newtype (one_view read)) }
    ensures memory { IfErr result (λ e. e ≡ TextFault.Memory) }
{
    match read {
        Outcome::Taken(typed) => {
            let held = newtype_of(alloc, typed)?;
            Ok(Outcome::Taken(held))
        }
        Outcome::Refused(path) => Ok(Outcome::Refused(path)),
        Outcome::Unsound => Ok(Outcome::Unsound),
    }
}

/// The inner value as an option that holds it.
pub fn as_some(alloc: Global, read: Outcome<Typed>) -> Result<Outcome<Typed>, TextFault>
    ensures answer { IfOk result (λ o. one_view o ≡ read_map some_typed (one_view read)) }
    ensures memory { IfErr result (λ e. e ≡ TextFault.Memory) }
{
    match read {
        Outcome::Taken(typed) => {
            let held = some_of(alloc, typed)?;
            Ok(Outcome::Taken(held))
        }
        Outcome::Refused(path) => Ok(Outcome::Refused(path)),
        Outcome::Unsound => Ok(Outcome::Unsound),
    }
}

/// One value, as a list of one.
pub fn as_single(alloc: Global, read: Outcome<Typed>) -> Result<Outcome<Vec<Typed>>, TextFault>
    ensures answer { IfOk result (λ o. several_view o ≡ read_map (λ x. x ∷ []) (one_view read)) }
    ensures memory { IfErr result (λ e. e ≡ TextFault.Memory) }
{
    match read {
        Outcome::Taken(typed) => {
            let mut values = Vec::new(alloc);
            push_typed(&mut values, typed)?;
            Ok(Outcome::Taken(values))
        }
        Outcome::Refused(path) => Ok(Outcome::Refused(path)),
        Outcome::Unsound => Ok(Outcome::Unsound),
    }
}

/// Adds a value. It fails where memory runs out.
pub fn push_typed(values: &mut Vec<Typed>, typed: Typed) -> Result<(), TextFault>
    ensures answer { IfOk result (λ _. values.new.items ≡ values.old.items ++ typed ∷ []) }
    ensures memory { IfErr result (λ e. e ≡ TextFault.Memory) }
{
    match values.push(typed) {
        Ok(()) => Ok(()),
        Err(_) => Err(TextFault::Memory),
    }
}

/// Adds a pair. It fails where memory runs out.
pub fn push_pair(found: &mut Vec<(Typed, Typed)>, pair: (Typed, Typed)) -> Result<(), TextFault>
    ensures answer { IfOk result (λ _. found.new.items ≡ found.old.items ++ pair ∷ []) }
    ensures memory { IfErr result (λ e. e ≡ TextFault.Memory) }
{
    match found.push(pair) {
        Ok(()) => Ok(()),
        Err(_) => Err(TextFault::Memory),
    }
}

/// A value that was read, refused itself where its rule doesn't hold.
pub fn kept_if(alloc: Global, holds: bool, read: Outcome<Typed>) -> Outcome<Typed>
    ensures { one_view result ≡ kept_if_in holds (one_view read) }
{
    match read {
        Outcome::Taken(typed) => if holds {
            Outcome::Taken(typed)
        } else {
            refused_here(alloc)
        },
        Outcome::Refused(path) => Outcome::Refused(path),
        Outcome::Unsound => Outcome::Unsound,
    }
}

/// What a stated default gives.
pub fn if_sound(read: Outcome<Typed>) -> Outcome<Typed>
    ensures { one_view result ≡ if_sound_in (one_view read) }
{
    match read {
        Outcome::Taken(typed) => Outcome::Taken(typed),
        _ => Outcome::Unsound,
    }
}

/// The value of an absence, if there is one.
pub fn given(alloc: Global, absent: Option<Typed>) -> Outcome<Typed>
    ensures { one_view result ≡ given_in (option_map typed_view absent) }
{
    match absent {
        Some(typed) => Outcome::Taken(typed),
        None => refused_here(alloc),
    }
}
