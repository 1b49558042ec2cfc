//! Words for integer types and for formats.
use entry_types::IntName;
use schema_tree::Format;

/// The word of an integer type.
pub fn int_word(name: IntName) -> &'static str {
    match name {
        IntName::I8 => "i8",
        IntName::U8 => "u8",
        IntName::I16 => "i16",
        IntName::U16 => "u16",
        IntName::I32 => "i32",
        IntName::U32 => "u32",
        IntName::I64 => "i64",
        IntName::U64 => "u64",
        IntName::NonZeroU8 => "non-zero u8",
        IntName::NonZeroU16 => "non-zero u16",
        IntName::NonZeroU32 => "non-zero u32",
        IntName::NonZeroU64 => "non-zero u64",
    }
}

/// The word of a format.
pub fn format_word(format: Format) -> &'static str {
    match format {
        Format::Uuid => "uuid",
        Format::Date => "date",
        Format::DateTime => "date-time",
        Format::Ip => "ip",
        Format::Ipv4 => "ipv4",
        Format::Ipv6 => "ipv6",
    }
}
