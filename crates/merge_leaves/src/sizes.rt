//! The least and the greatest of sizes.
ghost use Rattle.std.specs.Prelude.{◌≡◌, max, min};
ghost use Rattle.merge_defs.specs.Outcome.{either};
ghost use Rattle.merge_defs.specs.Leaves.{sizes_cross as sizes_cross_of};

/// Of two greatest sizes the less.
pub(crate) fn least(first: Option<u32>, second: Option<u32>) -> Option<u32>
    ensures { result ≡ either min first second }
{
    match (first, second) {
        (Some(a), Some(b)) => Some(a.min(b)),
        (Some(a), None) => Some(a),
        (None, Some(b)) => Some(b),
        (None, None) => None,
    }
}

/// Of two least sizes the greater.
pub(crate) fn greatest(first: Option<u32>, second: Option<u32>) -> Option<u32>
    ensures { result ≡ either max first second }
{
    match (first, second) {
        (Some(a), Some(b)) => Some(a.max(b)),
        (Some(a), None) => Some(a),
        (None, Some(b)) => Some(b),
        (None, None) => None,
    }
}

/// Whether no size is both at least the one and at most the other.
pub(crate) fn sizes_cross(least: Option<u32>, most: Option<u32>) -> bool
    ensures { result ≡ sizes_cross_of least most }
{
    match (least, most) {
        (Some(m), Some(n)) => n < m,
        _ => false,
    }
}
