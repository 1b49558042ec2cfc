//! Bounds of numbers: of an inclusive and an exclusive one the tighter.
ghost use Rattle.std.specs.Prelude.{◌≡◌};
ghost use Rattle.merge_defs.specs.Outcome.{either};
ghost use Rattle.merge_defs.specs.Leaves.{bounds_cross as bounds_cross_of, greatest_int, if_exclusive as if_exclusive_of, if_inclusive as if_inclusive_of, least_int, lower_bound as lower_bound_of, upper_bound as upper_bound_of};
ghost use Rattle.merge_leaves.specs.View.{bound_view};

/// How far numbers go.
#[derive(Clone, Copy)]
pub(crate) enum Bound {
    Unbounded,
    Inclusive(i128),
    Exclusive(i128),
}

fn least(first: Option<i128>, second: Option<i128>) -> Option<i128>
    ensures { result ≡ either least_int first second }
{
    match (first, second) {
        (Some(a), Some(b)) => if a <= b { Some(a) } else { Some(b) },
        (Some(a), None) => Some(a),
        (None, Some(b)) => Some(b),
        (None, None) => None,
    }
}

fn greatest(first: Option<i128>, second: Option<i128>) -> Option<i128>
    ensures { result ≡ either greatest_int first second }
{
    match (first, second) {
        (Some(a), Some(b)) => if a <= b { Some(b) } else { Some(a) },
        (Some(a), None) => Some(a),
        (None, Some(b)) => Some(b),
        (None, None) => None,
    }
}

fn upper_bound(inclusive: Option<i128>, exclusive: Option<i128>) -> Bound
    ensures { bound_view result ≡ upper_bound_of inclusive exclusive }
{
    match (inclusive, exclusive) {
        (None, None) => Bound::Unbounded,
        (Some(i), None) => Bound::Inclusive(i),
        (None, Some(e)) => Bound::Exclusive(e),
        (Some(i), Some(e)) => if e <= i {
            Bound::Exclusive(e)
        } else {
            Bound::Inclusive(i)
        },
    }
}

fn lower_bound(inclusive: Option<i128>, exclusive: Option<i128>) -> Bound
    ensures { bound_view result ≡ lower_bound_of inclusive exclusive }
{
    match (inclusive, exclusive) {
        (None, None) => Bound::Unbounded,
        (Some(i), None) => Bound::Inclusive(i),
        (None, Some(e)) => Bound::Exclusive(e),
        (Some(i), Some(e)) => if i <= e {
            Bound::Exclusive(e)
        } else {
            Bound::Inclusive(i)
        },
    }
}

/// The upper bound of both sides: of their `maximum`, and of their `exclusiveMaximum`.
pub(crate) fn both_upper(
    inclusive: Option<i128>,
    other_inclusive: Option<i128>,
    exclusive: Option<i128>,
    other_exclusive: Option<i128>,
) -> Bound
    ensures { bound_view result ≡ upper_bound_of (either least_int inclusive other_inclusive) (either least_int exclusive other_exclusive) }
{
    upper_bound(
        least(inclusive, other_inclusive),
        least(exclusive, other_exclusive),
    )
}

/// The lower bound of both sides: of their `minimum`, and of their `exclusiveMinimum`.
pub(crate) fn both_lower(
    inclusive: Option<i128>,
    other_inclusive: Option<i128>,
    exclusive: Option<i128>,
    other_exclusive: Option<i128>,
) -> Bound
    ensures { bound_view result ≡ lower_bound_of (either greatest_int inclusive other_inclusive) (either greatest_int exclusive other_exclusive) }
{
    lower_bound(
        greatest(inclusive, other_inclusive),
        greatest(exclusive, other_exclusive),
    )
}

pub(crate) fn if_inclusive(bound: Bound) -> Option<i128>
    ensures { result ≡ if_inclusive_of (bound_view bound) }
{
    match bound {
        Bound::Unbounded => None,
        Bound::Inclusive(z) => Some(z),
        Bound::Exclusive(_) => None,
    }
}

pub(crate) fn if_exclusive(bound: Bound) -> Option<i128>
    ensures { result ≡ if_exclusive_of (bound_view bound) }
{
    match bound {
        Bound::Unbounded => None,
        Bound::Inclusive(_) => None,
        Bound::Exclusive(z) => Some(z),
    }
}

/// Whether no number lies between the bounds.
pub(crate) fn bounds_cross(low: Bound, high: Bound) -> bool
    ensures { result ≡ bounds_cross_of (bound_view low) (bound_view high) }
{
    match low {
        Bound::Unbounded => false,
        Bound::Inclusive(l) => match high {
            Bound::Unbounded => false,
            Bound::Inclusive(u) => u < l,
            Bound::Exclusive(u) => u <= l,
        },
        Bound::Exclusive(l) => match high {
            Bound::Unbounded => false,
            Bound::Inclusive(u) => u <= l,
            Bound::Exclusive(u) => u <= l,
        },
    }
}
