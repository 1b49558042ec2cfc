//! The types of entries.
ghost use Rattle.std.specs.Fmt.{decimal};
ghost use Rattle.std.specs.Prelude.{◌≡◌, IfOk, map, codes, if◌then◌else◌};
ghost use Rattle.token_trees.specs.Token.{site, digits};
ghost use Rattle.syntax_trees.specs.Syntax.{no_arguments, ty_array, ty_tuple, ex_fixed, tys_of, end_tys};
ghost use Rattle.syntax_trees.specs.View.{ty, arguments_view};
ghost use Rattle.emit_defs.specs.Trees.{lone, in_std, of_one, of_two, option_ty, boxed_ty, text_ty, map_ty, integer_ty, native_ty, any_ty};
ghost use Rattle.type_trees.specs.RowView.{row_view, row_ty};
ghost use Rattle.type_trees.specs.Integers.{integer_view};

use crate::built_in::{
    BOOL, BOX, DATE_TIME, HASH_MAP, HASH_SET, IP_ADDR, IPV4_ADDR, IPV6_ADDR, IntegerName,
    NAIVE_DATE, OPTION, Row, STRING, UTC, UUID, VALUE, VEC, integer_row,
};
use crate::parts::{array_of, lone, no_arguments, of_one, of_two, tuple_of, type_at};
use schema_defs::Format;
use std::alloc::{AllocError, Global};
use syntax_trees::{PathArguments, Ty};

fn with_arguments(alloc: Global, row: &Row, arguments: PathArguments) -> Result<Ty, AllocError>
    ensures { IfOk result (λ t. ty t ≡ row_ty (row_view row.now) (arguments_view arguments)) }
{
    type_at(alloc, row.leading, row.modules, row.name.0, arguments)
}

// A type that holds no other.
fn plain(alloc: Global, row: &Row) -> Result<Ty, AllocError>
    ensures { IfOk result (λ t. ty t ≡ row_ty (row_view row.now) no_arguments) }
{
    with_arguments(alloc, row, no_arguments())
}

// A type that holds one other.
fn holder(alloc: Global, row: &Row, inner: Ty) -> Result<Ty, AllocError>
    ensures { IfOk result (λ t. ty t ≡ row_ty (row_view row.now) (of_one (ty inner))) }
{
    with_arguments(alloc, row, of_one(alloc, inner)?)
}

/// `bool`.
pub fn boolean_ty(alloc: Global) -> Result<Ty, AllocError>
    ensures { IfOk result (λ t. ty t ≡ lone (codes "bool")) }
{
    plain(alloc, &BOOL)
}

/// An integer type: a word of Rust's own, or one of `std::num`.
pub fn integer_ty(alloc: Global, name: IntegerName) -> Result<Ty, AllocError>
    ensures { IfOk result (λ t. ty t ≡ integer_ty (integer_view name)) }
{
    plain(alloc, integer_row(name))
}

/// `::std::string::String`.
pub fn text_ty(alloc: Global) -> Result<Ty, AllocError>
    ensures { IfOk result (λ t. ty t ≡ text_ty) }
{
    plain(alloc, &STRING)
}

/// The type of texts of a format, of the crates `uuid` and `chrono` and of `std::net`.
pub fn native_ty(alloc: Global, format: Format) -> Result<Ty, AllocError>
    ensures { IfOk result (λ t. ty t ≡ native_ty format) }
{
    match format {
        Format::Uuid => plain(alloc, &UUID),
        Format::Date => plain(alloc, &NAIVE_DATE),
        Format::DateTime => holder(alloc, &DATE_TIME, plain(alloc, &UTC)?),
        Format::Ip => plain(alloc, &IP_ADDR),
        Format::Ipv4 => plain(alloc, &IPV4_ADDR),
        Format::Ipv6 => plain(alloc, &IPV6_ADDR),
    }
}

/// `::serde_json::Value`.
pub fn any_ty(alloc: Global) -> Result<Ty, AllocError>
    ensures { IfOk result (λ t. ty t ≡ any_ty) }
{
    plain(alloc, &VALUE)
}

/// `()`. It takes no memory.
pub fn unit_ty(alloc: Global) -> Ty
    ensures { ty result ≡ ty_tuple end_tys }
{
    tuple_of(Vec::new(alloc))
}

/// `::std::option::Option` of a type.
pub fn option_ty(alloc: Global, inner: Ty) -> Result<Ty, AllocError>
    ensures { IfOk result (λ t. ty t ≡ option_ty (ty inner)) }
{
    holder(alloc, &OPTION, inner)
}

/// `::std::boxed::Box` of a type.
pub fn boxed_ty(alloc: Global, inner: Ty) -> Result<Ty, AllocError>
    ensures { IfOk result (λ t. ty t ≡ boxed_ty (ty inner)) }
{
    holder(alloc, &BOX, inner)
}

/// `::std::vec::Vec` of a type.
pub fn vec_ty(alloc: Global, inner: Ty) -> Result<Ty, AllocError>
    ensures { IfOk result (λ t. ty t ≡ in_std (codes "vec") (codes "Vec") (of_one (ty inner))) }
{
    holder(alloc, &VEC, inner)
}

/// `::std::collections::HashSet` of a type.
pub fn set_ty(alloc: Global, inner: Ty) -> Result<Ty, AllocError>
    ensures { IfOk result (λ t. ty t ≡ in_std (codes "collections") (codes "HashSet") (of_one (ty inner))) }
{
    holder(alloc, &HASH_SET, inner)
}

/// `::std::collections::HashMap` from keys of a type to values of another.
pub fn map_ty(alloc: Global, key: Ty, value: Ty) -> Result<Ty, AllocError>
    ensures { IfOk result (λ t. ty t ≡ map_ty (ty key) (ty value)) }
{
    with_arguments(alloc, &HASH_MAP, of_two(alloc, key, value)?)
}

/// A tuple of the types in order. It takes no memory.
pub fn tuple_ty(types: Vec<Ty>) -> Ty
    ensures { ty result ≡ ty_tuple (tys_of (map ty types.items)) }
{
    tuple_of(types)
}

/// An array of so many items of a type.
pub fn array_ty(alloc: Global, inner: Ty, len: u32) -> Result<Ty, AllocError>
    ensures { IfOk result (λ t. ty t ≡ ty_array (ty inner) (ex_fixed (digits (decimal len)) site)) }
{
    array_of(alloc, inner, len)
}

/// The item of that name, in a box where its uses are boxed.
pub fn used_ty(alloc: Global, is_boxed: bool, name: &str) -> Result<Ty, AllocError>
    ensures { IfOk result (λ t. ty t ≡ (if is_boxed then boxed_ty (lone name.now) else lone name.now)) }
{
    let item = lone(alloc, name)?;
    if is_boxed {
        return boxed_ty(alloc, item);
    }
    Ok(item)
}
