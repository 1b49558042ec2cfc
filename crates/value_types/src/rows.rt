//! The built-in types by their names.
ghost use Rattle.std.specs.Prelude.{◌≡◌, map};
ghost use Rattle.type_spellings.specs.Types.{plain_path};
ghost use Rattle.value_types.specs.Paths.{names_of};
ghost use Rattle.value_types.specs.RowView.{row_view, word_rows, plain_rows, holder_rows, meaning_of, plain_in, holder_in, plain_or_outside};

use crate::path::have_names;
use schema_defs::Format;
use syntax_trees::PathSegment;
use token_trees::Symbol;

/// A built-in type that holds no other.
#[derive(Clone, Copy)]
pub enum Plain {
    Boolean,
    /// Whole numbers from the least to the greatest.
    Whole { least: u64, greatest: u64 },
    /// Whole numbers down to so many below 0, and up to the greatest.
    Signed { below: u64, greatest: u64 },
    Text,
    /// A text that has the format.
    Native(Format),
    Any,
}

/// A built-in type that holds one other.
#[derive(Clone, Copy)]
pub enum Holder {
    Optional,
    Boxed,
    List,
    Set,
}

#[derive(Clone, Copy)]
pub(crate) enum Meaning {
    Plain(Plain),
    Holder(Holder),
}

#[derive(Clone, Copy)]
pub(crate) struct Row {
    names: &'static [Symbol],
    meaning: Meaning,
}

static WORDS: [Row; 9] = [
    Row {
        names: &[Symbol("bool")],
        meaning: Meaning::Plain(Plain::Boolean),
    },
    Row {
        names: &[Symbol("i8")],
        meaning: Meaning::Plain(Plain::Signed {
            below: 128,
            greatest: 127,
        }),
    },
    Row {
        names: &[Symbol("u8")],
        meaning: Meaning::Plain(Plain::Whole {
            least: 0,
            greatest: 255,
        }),
    },
    Row {
        names: &[Symbol("i16")],
        meaning: Meaning::Plain(Plain::Signed {
            below: 32768,
            greatest: 32767,
        }),
    },
    Row {
        names: &[Symbol("u16")],
        meaning: Meaning::Plain(Plain::Whole {
            least: 0,
            greatest: 65535,
        }),
    },
    Row {
        names: &[Symbol("i32")],
        meaning: Meaning::Plain(Plain::Signed {
            below: 2147483648,
            greatest: 2147483647,
        }),
    },
    Row {
        names: &[Symbol("u32")],
        meaning: Meaning::Plain(Plain::Whole {
            least: 0,
            greatest: 4294967295,
        }),
    },
    Row {
        names: &[Symbol("i64")],
        meaning: Meaning::Plain(Plain::Signed {
            below: 9223372036854775808,
            greatest: 9223372036854775807,
        }),
    },
    Row {
        names: &[Symbol("u64")],
        meaning: Meaning::Plain(Plain::Whole {
            least: 0,
            greatest: 18446744073709551615,
        }),
    },
];

static PLAIN: [Row; 11] = [
    Row {
        names: &[Symbol("std"), Symbol("num"), Symbol("NonZeroU8")],
        meaning: Meaning::Plain(Plain::Whole {
            least: 1,
            greatest: 255,
        }),
    },
    Row {
        names: &[Symbol("std"), Symbol("num"), Symbol("NonZeroU16")],
        meaning: Meaning::Plain(Plain::Whole {
            least: 1,
            greatest: 65535,
        }),
    },
    Row {
        names: &[Symbol("std"), Symbol("num"), Symbol("NonZeroU32")],
        meaning: Meaning::Plain(Plain::Whole {
            least: 1,
            greatest: 4294967295,
        }),
    },
    Row {
        names: &[Symbol("std"), Symbol("num"), Symbol("NonZeroU64")],
        meaning: Meaning::Plain(Plain::Whole {
            least: 1,
            greatest: 18446744073709551615,
        }),
    },
    Row {
        names: &[Symbol("std"), Symbol("string"), Symbol("String")],
        meaning: Meaning::Plain(Plain::Text),
    },
    Row {
        names: &[Symbol("serde_json"), Symbol("Value")],
        meaning: Meaning::Plain(Plain::Any),
    },
    Row {
        names: &[Symbol("uuid"), Symbol("Uuid")],
        meaning: Meaning::Plain(Plain::Native(Format::Uuid)),
    },
    Row {
        names: &[Symbol("chrono"), Symbol("naive"), Symbol("NaiveDate")],
        meaning: Meaning::Plain(Plain::Native(Format::Date)),
    },
    Row {
        names: &[Symbol("std"), Symbol("net"), Symbol("IpAddr")],
        meaning: Meaning::Plain(Plain::Native(Format::Ip)),
    },
    Row {
        names: &[Symbol("std"), Symbol("net"), Symbol("Ipv4Addr")],
        meaning: Meaning::Plain(Plain::Native(Format::Ipv4)),
    },
    Row {
        names: &[Symbol("std"), Symbol("net"), Symbol("Ipv6Addr")],
        meaning: Meaning::Plain(Plain::Native(Format::Ipv6)),
    },
];

static HOLDERS: [Row; 4] = [
    Row {
        names: &[Symbol("std"), Symbol("option"), Symbol("Option")],
        meaning: Meaning::Holder(Holder::Optional),
    },
    Row {
        names: &[Symbol("std"), Symbol("boxed"), Symbol("Box")],
        meaning: Meaning::Holder(Holder::Boxed),
    },
    Row {
        names: &[Symbol("std"), Symbol("vec"), Symbol("Vec")],
        meaning: Meaning::Holder(Holder::List),
    },
    Row {
        names: &[Symbol("std"), Symbol("collections"), Symbol("HashSet")],
        meaning: Meaning::Holder(Holder::Set),
    },
];

fn word_rows() -> &'static [Row]
    ensures { map row_view result.now ≡ word_rows }
{
    &WORDS
}

fn plain_rows() -> &'static [Row]
    ensures { map row_view result.now ≡ plain_rows }
{
    &PLAIN
}

fn holder_rows() -> &'static [Row]
    ensures { map row_view result.now ≡ holder_rows }
{
    &HOLDERS
}

// The meaning of the first row of those names.
fn find(rows: &[Row], segments: &[PathSegment]) -> Option<Meaning>
    ensures { result ≡ meaning_of (map row_view rows.now) (names_of segments.now) }
{
    for row in rows {
        if have_names(segments, row.names) {
            return Some(row.meaning);
        }
    }
    None
}

fn find_plain(rows: &[Row], segments: &[PathSegment]) -> Option<Plain>
    ensures { result ≡ plain_in (meaning_of (map row_view rows.now) (names_of segments.now)) }
{
    let Some(meaning) = find(rows, segments) else {
        return None;
    };
    match meaning {
        Meaning::Plain(plain) => Some(plain),
        Meaning::Holder(_) => None,
    }
}

/// A word of Rust's own.
pub(crate) fn word_named(segments: &[PathSegment]) -> Option<Plain>
    ensures { result ≡ plain_in (meaning_of word_rows (names_of segments.now)) }
{
    find_plain(word_rows(), segments)
}

/// A path from the root without arguments.
#[tactic(auto, using(crate::proofs::Tables::plain_meant))]
pub(crate) fn plain_named(segments: &[PathSegment]) -> Option<Plain>
    ensures { plain_or_outside result ≡ plain_path (names_of segments.now) }
{
    find_plain(plain_rows(), segments)
}

/// A path from the root with one argument.
pub(crate) fn holder_named(segments: &[PathSegment]) -> Option<Holder>
    ensures { result ≡ holder_in (meaning_of holder_rows (names_of segments.now)) }
{
    let Some(meaning) = find(holder_rows(), segments) else {
        return None;
    };
    match meaning {
        Meaning::Plain(_) => None,
        Meaning::Holder(holder) => Some(holder),
    }
}
