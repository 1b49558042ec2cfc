//! The number of a range that is nearest to 0.
ghost use Rattle.std.specs.Prelude.{◌≡◌};
ghost use Rattle.example_defs.specs.Built.{nearest as nearest_in, has_number as has_number_in, is_i64 as is_i64_in};

/// The number of the range from the least to the greatest that is nearest to 0.
pub fn nearest(least: i128, greatest: i128) -> i128
    ensures { result ≡ nearest_in (record { least = least; greatest = greatest }) }
{
    if 0 <= least {
        least
    } else if 0 <= greatest {
        0
    } else {
        greatest
    }
}

fn is_i64(number: i128) -> bool
    ensures { result ≡ is_i64_in number }
{
    -9_223_372_036_854_775_808 <= number && number <= 9_223_372_036_854_775_807
}

/// Whether the range has an i64.
pub fn has_number(least: i128, greatest: i128) -> bool
    ensures { result ≡ has_number_in (record { least = least; greatest = greatest }) }
{
    let number = nearest(least, greatest);
    (least <= number && number <= greatest) && is_i64(number)
}
