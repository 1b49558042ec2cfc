//! What tells an entry from the others of its space.
ghost use Rattle.std.specs.Prelude.{◌≡◌, IfOk};
ghost use Rattle.entry_types.specs.View.{entry_view};
ghost use Rattle.entry_space.specs.Keys.{key_view, bare};

use entry_types::{IntName, TypeEntry, TypeId};
use schema_tree::Format;
use std::alloc::{AllocError, Global};

/// An item is told by its name, any other entry by what it is.
#[derive(PartialEq, Eq, Drop)]
#[derive_where(Hash)]
pub enum Key {
    Bool,
    Integer(IntName),
    Text,
    Native(#[derive_where(skip(Hash))] Format),
    Any,
    Unit,
    Option(TypeId),
    Vec(TypeId),
    Set(TypeId),
    Map(TypeId, TypeId),
    Tuple(Vec<TypeId>),
    Array(TypeId, u32),
    Reference(TypeId),
    Item(String),
}

// The key of an entry.
pub fn key_of(alloc: Global, entry: &TypeEntry) -> Result<Key, AllocError>
    ensures { IfOk result (λ k. key_view k ≡ bare (entry_view entry.now)) }
{
    Ok(match entry {
        TypeEntry::Bool => Key::Bool,
        TypeEntry::Integer(name) => Key::Integer(*name),
        TypeEntry::Text => Key::Text,
        TypeEntry::Native(format) => Key::Native(*format),
        TypeEntry::Any => Key::Any,
        TypeEntry::Unit => Key::Unit,
        TypeEntry::Option(id) => Key::Option(*id),
        TypeEntry::Vec(id) => Key::Vec(*id),
        TypeEntry::Set(id) => Key::Set(*id),
        TypeEntry::Map(key, id) => Key::Map(*key, *id),
        TypeEntry::Tuple(ids) => Key::Tuple(ids.as_slice().to_vec(alloc)?),
        TypeEntry::Array(id, places) => Key::Array(*id, *places),
        TypeEntry::Reference(id) => Key::Reference(*id),
        TypeEntry::Item(item) => Key::Item(String::from_str(alloc, &item.name)?),
    })
}
