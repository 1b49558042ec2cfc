//! The integer types, with their ranges, and what takes their place from 1 on.
ghost use Rattle.std.specs.Prelude.{◌≡◌, ℤ, ◌&&◌, Option, option_map};
ghost use Rattle.schema_defs.specs.Integers.{range_of};
ghost use Rattle.entry_defs.specs.Layer.{integer_range};
ghost use Rattle.convert_defs.specs.IntegerRow.{first_kind as first_kind_of, kinds};
ghost use Rattle.entry_types.specs.View.{integer_view};
ghost use Rattle.integer_rows.specs.Bounds.{ends_view, kind_view, kind_fits, end_is as end_is_of, nonzero_for, small_kinds};

use entry_types::IntName;

/// The least number of a type, or of what is admitted, and the greatest.
#[derive(Clone, Copy)]
pub struct Ends {
    pub least: i128,
    pub greatest: i128,
}

/// The range of a type.
pub fn ends_of(name: IntName) -> Ends
    ensures { ends_view result ≡ integer_range (integer_view name) }
{
    match name {
        IntName::I8 => Ends {
            least: -128,
            greatest: 127,
        },
        IntName::U8 => Ends {
            least: 0,
            greatest: 255,
        },
        IntName::I16 => Ends {
            least: -32768,
            greatest: 32767,
        },
        IntName::U16 => Ends {
            least: 0,
            greatest: 65535,
        },
        IntName::I32 => Ends {
            least: -2147483648,
            greatest: 2147483647,
        },
        IntName::U32 => Ends {
            least: 0,
            greatest: 4294967295,
        },
        IntName::I64 => Ends {
            least: -9223372036854775808,
            greatest: 9223372036854775807,
        },
        IntName::U64 => Ends {
            least: 0,
            greatest: 18446744073709551615,
        },
        IntName::NonZeroU8 => Ends {
            least: 1,
            greatest: 255,
        },
        IntName::NonZeroU16 => Ends {
            least: 1,
            greatest: 65535,
        },
        IntName::NonZeroU32 => Ends {
            least: 1,
            greatest: 4294967295,
        },
        IntName::NonZeroU64 => Ends {
            least: 1,
            greatest: 18446744073709551615,
        },
    }
}

/// The least number of a type.
pub fn least_end(name: IntName) -> i128
    ensures { result ≡ (integer_range (integer_view name)).least }
{
    ends_of(name).least
}

/// The greatest number of a type.
pub fn greatest_end(name: IntName) -> i128
    ensures { result ≡ (integer_range (integer_view name)).greatest }
{
    ends_of(name).greatest
}

/// The type of an integer format.
pub fn format_name(name: &str) -> Option<IntName>
    ensures { option_map (λ g. integer_range (integer_view g)) result ≡ range_of name.now }
{
    match name {
        "int8" => Some(IntName::I8),
        "uint8" => Some(IntName::U8),
        "int16" => Some(IntName::I16),
        "uint16" => Some(IntName::U16),
        "int" => Some(IntName::I32),
        "int32" => Some(IntName::I32),
        "uint" => Some(IntName::U32),
        "uint32" => Some(IntName::U32),
        "int64" => Some(IntName::I64),
        "uint64" => Some(IntName::U64),
        _ => None,
    }
}

// Whether the bound is that end, where one is asked for.
fn end_is(end: i128, bound: Option<i128>) -> bool
    ensures { result ≡ end_is_of end bound }
{
    match bound {
        Some(bound) => end == bound,
        None => true,
    }
}

fn fits(name: IntName, least: Option<i128>, greatest: Option<i128>) -> bool
    ensures { result ≡ (end_is_of (integer_range (integer_view name)).least least && end_is_of (integer_range (integer_view name)).greatest greatest) }
{
    end_is(least_end(name), least) && end_is(greatest_end(name), greatest)
}

/// The first of the eight types without a hole at 0 that begins and ends there.
pub fn first_kind(least: Option<i128>, greatest: Option<i128>) -> Option<IntName>
    ensures { option_map kind_view result ≡ first_kind_of (kind_fits least greatest) kinds }
{
    if fits(IntName::U64, least, greatest) {
        Some(IntName::U64)
    } else if fits(IntName::I64, least, greatest) {
        Some(IntName::I64)
    } else if fits(IntName::U32, least, greatest) {
        Some(IntName::U32)
    } else if fits(IntName::I32, least, greatest) {
        Some(IntName::I32)
    } else {
        small_kind(least, greatest)
    }
}

fn small_kind(least: Option<i128>, greatest: Option<i128>) -> Option<IntName>
    ensures { option_map kind_view result ≡ first_kind_of (kind_fits least greatest) small_kinds }
{
    if fits(IntName::U16, least, greatest) {
        Some(IntName::U16)
    } else if fits(IntName::I16, least, greatest) {
        Some(IntName::I16)
    } else if fits(IntName::U8, least, greatest) {
        Some(IntName::U8)
    } else if fits(IntName::I8, least, greatest) {
        Some(IntName::I8)
    } else {
        None
    }
}

/// What takes the place of a type from 1 on.
pub fn nonzero_kind(name: IntName) -> IntName
    ensures { integer_view result ≡ nonzero_for name }
{
    match name {
        IntName::I8 | IntName::U8 => IntName::NonZeroU8,
        IntName::I16 | IntName::U16 => IntName::NonZeroU16,
        IntName::I32 | IntName::U32 => IntName::NonZeroU32,
        _ => IntName::NonZeroU64,
    }
}
