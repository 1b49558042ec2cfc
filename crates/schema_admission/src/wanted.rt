//! How many of a list of schemas have to admit a value.
ghost use Rattle.std.specs.Prelude.{◌≡◌};
ghost use Rattle.schema_admission.specs.Judging.{count_agrees};

/// All of them, at least one, or just one: `allOf`, `anyOf` and `oneOf`.
#[derive(Clone, Copy)]
pub enum Wanted {
    All,
    Any,
    One,
}

/// Whether `count` of `most` schemas are as many as are wanted.
pub fn is_enough(wanted: Wanted, count: usize, most: usize) -> bool
    ensures { result ≡ count_agrees wanted count most }
{
    match wanted {
        Wanted::All => count == most,
        Wanted::Any => count > 0,
        Wanted::One => count == 1,
    }
}
