//! The names that attributes are read by, each its own text: those of serde's container, variant and field attributes
//! (serde.rs, attributes), the attributes `serde` and `repr` themselves, and `non_exhaustive`.

use token_trees::Symbol;

pub const ALIAS: Symbol = Symbol("alias");

pub const BORROW: Symbol = Symbol("borrow");

pub const BOUND: Symbol = Symbol("bound");

pub const CONTENT: Symbol = Symbol("content");

pub const CRATE: Symbol = Symbol("crate");

pub const DEFAULT: Symbol = Symbol("default");

pub const DENY_UNKNOWN_FIELDS: Symbol = Symbol("deny_unknown_fields");

pub const DESERIALIZE: Symbol = Symbol("deserialize");

pub const DESERIALIZE_WITH: Symbol = Symbol("deserialize_with");

pub const EXPECTING: Symbol = Symbol("expecting");

pub const FIELD_IDENTIFIER: Symbol = Symbol("field_identifier");

pub const FLATTEN: Symbol = Symbol("flatten");

pub const FROM: Symbol = Symbol("from");

pub const GETTER: Symbol = Symbol("getter");

pub const INTO: Symbol = Symbol("into");

pub const NON_EXHAUSTIVE: Symbol = Symbol("non_exhaustive");

pub const OTHER: Symbol = Symbol("other");

pub const REMOTE: Symbol = Symbol("remote");

pub const RENAME: Symbol = Symbol("rename");

pub const RENAME_ALL: Symbol = Symbol("rename_all");

pub const RENAME_ALL_FIELDS: Symbol = Symbol("rename_all_fields");

pub const REPR: Symbol = Symbol("repr");

pub const SERDE: Symbol = Symbol("serde");

pub const SERIALIZE: Symbol = Symbol("serialize");

pub const SERIALIZE_WITH: Symbol = Symbol("serialize_with");

pub const SKIP: Symbol = Symbol("skip");

pub const SKIP_DESERIALIZING: Symbol = Symbol("skip_deserializing");

pub const SKIP_SERIALIZING: Symbol = Symbol("skip_serializing");

pub const SKIP_SERIALIZING_IF: Symbol = Symbol("skip_serializing_if");

pub const TAG: Symbol = Symbol("tag");

pub const TRANSPARENT: Symbol = Symbol("transparent");

pub const TRY_FROM: Symbol = Symbol("try_from");

pub const UNTAGGED: Symbol = Symbol("untagged");

pub const VARIANT_IDENTIFIER: Symbol = Symbol("variant_identifier");

pub const WITH: Symbol = Symbol("with");
