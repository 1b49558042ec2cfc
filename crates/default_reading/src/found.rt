//! What reading comes to.
ghost use Rattle.std.specs.Prelude.{◌≡◌};
ghost use Rattle.default_defs.specs.Found.{both as both_of, given as given_of, is_ended as is_ended_of, is_refused as is_refused_of, told as told_of};
ghost use Rattle.default_reading.specs.Seen.{found_view};

/// What a default comes to.
#[derive(Clone, Copy, PartialEq, Eq)]
pub enum Found {
    /// It isn't taken.
    Refused,
    /// It is taken, and what it leaves out comes to an end.
    Ended,
    /// A default that is read for what it leaves out, in the order of reading, never comes to an end.
    Endless,
}

pub fn told(holds: bool) -> Found
    ensures { found_view result ≡ told_of holds }
{
    if holds { Found::Ended } else { Found::Refused }
}

pub fn is_refused(found: Found) -> bool
    ensures { result ≡ is_refused_of (found_view found) }
{
    match found {
        Found::Refused => true,
        Found::Ended => false,
        Found::Endless => false,
    }
}

pub fn is_ended(found: Found) -> bool
    ensures { result ≡ is_ended_of (found_view found) }
{
    match found {
        Found::Refused => false,
        Found::Ended => true,
        Found::Endless => false,
    }
}

/// One after the other: what is refused or endless already stays.
pub fn both(before: Found, after: Found) -> Found
    ensures { found_view result ≡ both_of (found_view before) (found_view after) }
{
    match before {
        Found::Refused => Found::Refused,
        Found::Ended => after,
        Found::Endless => Found::Endless,
    }
}

/// Of a default that is read for what is left out: one that is refused is told by itself.
pub fn given(found: Found) -> Found
    ensures { found_view result ≡ given_of (found_view found) }
{
    match found {
        Found::Refused => Found::Ended,
        Found::Ended => Found::Ended,
        Found::Endless => Found::Endless,
    }
}
