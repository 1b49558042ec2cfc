//! The built-in types by their paths.
ghost use Rattle.std.specs.Prelude.{◌≡◌};
ghost use Rattle.syntax_trees.specs.Syntax.{no_arguments};
ghost use Rattle.emit_defs.specs.Trees.{integer_ty};
ghost use Rattle.type_trees.specs.RowView.{row_view, row_ty};
ghost use Rattle.type_trees.specs.Integers.{integer_view};

use token_trees::Symbol;

/// The integer types of Rust that are used.
#[derive(Clone, Copy, PartialEq, Eq)]
pub enum IntegerName {
    I8,
    U8,
    I16,
    U16,
    I32,
    U32,
    I64,
    U64,
    NonZeroU8,
    NonZeroU16,
    NonZeroU32,
    NonZeroU64,
}

/// A type's path: whether it begins with `::`, its modules, and its name.
#[derive(Clone, Copy)]
pub(crate) struct Row {
    pub leading: bool,
    pub modules: &'static [Symbol],
    pub name: Symbol,
}

pub(crate) static BOOL: Row = Row {
    leading: false,
    modules: &[],
    name: Symbol("bool"),
};

pub(crate) static I8: Row = Row {
    leading: false,
    modules: &[],
    name: Symbol("i8"),
};

pub(crate) static U8: Row = Row {
    leading: false,
    modules: &[],
    name: Symbol("u8"),
};

pub(crate) static I16: Row = Row {
    leading: false,
    modules: &[],
    name: Symbol("i16"),
};

pub(crate) static U16: Row = Row {
    leading: false,
    modules: &[],
    name: Symbol("u16"),
};

pub(crate) static I32: Row = Row {
    leading: false,
    modules: &[],
    name: Symbol("i32"),
};

pub(crate) static U32: Row = Row {
    leading: false,
    modules: &[],
    name: Symbol("u32"),
};

pub(crate) static I64: Row = Row {
    leading: false,
    modules: &[],
    name: Symbol("i64"),
};

pub(crate) static U64: Row = Row {
    leading: false,
    modules: &[],
    name: Symbol("u64"),
};

pub(crate) static NON_ZERO_U8: Row = Row {
    leading: true,
    modules: &[Symbol("std"), Symbol("num")],
    name: Symbol("NonZeroU8"),
};

pub(crate) static NON_ZERO_U16: Row = Row {
    leading: true,
    modules: &[Symbol("std"), Symbol("num")],
    name: Symbol("NonZeroU16"),
};

pub(crate) static NON_ZERO_U32: Row = Row {
    leading: true,
    modules: &[Symbol("std"), Symbol("num")],
    name: Symbol("NonZeroU32"),
};

pub(crate) static NON_ZERO_U64: Row = Row {
    leading: true,
    modules: &[Symbol("std"), Symbol("num")],
    name: Symbol("NonZeroU64"),
};

pub(crate) static STRING: Row = Row {
    leading: true,
    modules: &[Symbol("std"), Symbol("string")],
    name: Symbol("String"),
};

pub(crate) static VALUE: Row = Row {
    leading: true,
    modules: &[Symbol("serde_json")],
    name: Symbol("Value"),
};

pub(crate) static UUID: Row = Row {
    leading: true,
    modules: &[Symbol("uuid")],
    name: Symbol("Uuid"),
};

pub(crate) static NAIVE_DATE: Row = Row {
    leading: true,
    modules: &[Symbol("chrono"), Symbol("naive")],
    name: Symbol("NaiveDate"),
};

pub(crate) static DATE_TIME: Row = Row {
    leading: true,
    modules: &[Symbol("chrono")],
    name: Symbol("DateTime"),
};

pub(crate) static UTC: Row = Row {
    leading: true,
    modules: &[Symbol("chrono"), Symbol("offset")],
    name: Symbol("Utc"),
};

pub(crate) static IP_ADDR: Row = Row {
    leading: true,
    modules: &[Symbol("std"), Symbol("net")],
    name: Symbol("IpAddr"),
};

pub(crate) static IPV4_ADDR: Row = Row {
    leading: true,
    modules: &[Symbol("std"), Symbol("net")],
    name: Symbol("Ipv4Addr"),
};

pub(crate) static IPV6_ADDR: Row = Row {
    leading: true,
    modules: &[Symbol("std"), Symbol("net")],
    name: Symbol("Ipv6Addr"),
};

pub(crate) static OPTION: Row = Row {
    leading: true,
    modules: &[Symbol("std"), Symbol("option")],
    name: Symbol("Option"),
};

pub(crate) static BOX: Row = Row {
    leading: true,
    modules: &[Symbol("std"), Symbol("boxed")],
    name: Symbol("Box"),
};

pub(crate) static VEC: Row = Row {
    leading: true,
    modules: &[Symbol("std"), Symbol("vec")],
    name: Symbol("Vec"),
};

pub(crate) static HASH_SET: Row = Row {
    leading: true,
    modules: &[Symbol("std"), Symbol("collections")],
    name: Symbol("HashSet"),
};

pub(crate) static HASH_MAP: Row = Row {
    leading: true,
    modules: &[Symbol("std"), Symbol("collections")],
    name: Symbol("HashMap"),
};

/// The row of an integer type.
pub(crate) fn integer_row(name: IntegerName) -> &'static Row
    ensures { row_ty (row_view result.now) no_arguments ≡ integer_ty (integer_view name) }
{
    match name {
        IntegerName::I8 => &I8,
        IntegerName::U8 => &U8,
        IntegerName::I16 => &I16,
        IntegerName::U16 => &U16,
        IntegerName::I32 => &I32,
        IntegerName::U32 => &U32,
        IntegerName::I64 => &I64,
        IntegerName::U64 => &U64,
        IntegerName::NonZeroU8 => &NON_ZERO_U8,
        IntegerName::NonZeroU16 => &NON_ZERO_U16,
        IntegerName::NonZeroU32 => &NON_ZERO_U32,
        IntegerName::NonZeroU64 => &NON_ZERO_U64,
    }
}
