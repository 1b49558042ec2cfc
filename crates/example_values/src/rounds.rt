//! Numbers of rounds: None where there is none in which something is built.
ghost use Rattle.std.specs.Prelude.{◌≡◌, IfOk};
ghost use Rattle.example_values.specs.Fewest.{before_first as before_first_in, both as both_in, either as either_in, greater as greater_in, in_first as in_first_in, later as later_in, lesser as lesser_in, same_rounds as same_rounds_in};
ghost use Rattle.example_values.specs.Known.{rounds_at as rounds_at_in};

use std::alloc::AllocError;

/// One round more. There is no memory for more than a u64 says.
pub(crate) fn later(rounds: Option<u64>) -> Result<Option<u64>, AllocError>
    ensures { IfOk result (λ r. r ≡ later_in rounds) }
{
    let Some(rounds) = rounds else {
        return Ok(None);
    };
    if rounds == u64::MAX {
        return Err(AllocError);
    }
    Ok(Some(rounds + 1))
}

fn greater(a: u64, b: u64) -> u64
    ensures { result ≡ greater_in a b }
{
    if a <= b { b } else { a }
}

fn lesser(a: u64, b: u64) -> u64
    ensures { result ≡ lesser_in a b }
{
    if a <= b { a } else { b }
}

/// Those in which both are built.
pub(crate) fn both(a: Option<u64>, b: Option<u64>) -> Option<u64>
    ensures { result ≡ both_in a b }
{
    let Some(a) = a else {
        return None;
    };
    let Some(b) = b else {
        return None;
    };
    Some(greater(a, b))
}

/// Those in which one of the two is built.
pub(crate) fn either(a: Option<u64>, b: Option<u64>) -> Option<u64>
    ensures { result ≡ either_in a b }
{
    let Some(a) = a else {
        return b;
    };
    let Some(b) = b else {
        return Some(a);
    };
    Some(lesser(a, b))
}

/// Whether they are the same.
pub(crate) fn same_rounds(a: Option<u64>, b: Option<u64>) -> bool
    ensures { result ≡ same_rounds_in a b }
{
    let Some(a) = a else {
        return b.is_none();
    };
    let Some(b) = b else {
        return false;
    };
    a == b
}

/// Before the first round, or never.
pub(crate) fn before_first(built: bool) -> Option<u64>
    ensures { result ≡ before_first_in built }
{
    if built { Some(0) } else { None }
}

/// In the first round, or never.
pub(crate) fn in_first(built: bool) -> Option<u64>
    ensures { result ≡ in_first_in built }
{
    if built { Some(1) } else { None }
}

/// Those of the item at a place.
pub(crate) fn rounds_at(rounds: &[Option<u64>], place: usize) -> Option<u64>
    ensures { result ≡ rounds_at_in rounds.now place }
{
    match rounds.get(place) {
        Some(found) => *found,
        None => None,
    }
}
