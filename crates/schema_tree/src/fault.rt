//! Why a document or a value is refused, and the line that tells it.
ghost use Rattle.std.specs.Prelude.{◌≡◌, ◌↔◌, ◌++◌, IfOk, IsTrue, codes, decimal, string_bytes};
ghost use Rattle.schema_tree.specs.Fault.{fault_line, fault_view, line_at, memory};

use crate::print::json_string;
use schema_types::{Location, Walk};
use serde_json::Value;
use std::alloc::{AllocError, Global};
use thiserror::Error;

/// Why a schema document, or a value beside it, is refused. A `path` is the place in the document, except where another
/// is named.
#[derive(Debug, Drop, Error)]
pub enum Fault {
    /// Memory ran out.
    #[error("out of memory")]
    Memory,
    /// A known keyword holds what JSON Schema Draft 7 doesn't allow it.
    #[error("malformed keyword")]
    Malformed {
        path: Location,
        keyword: String,
    },
    /// A reference within the document that names neither the root nor a definition.
    #[error("missing definition")]
    MissingRef {
        path: Location,
        name: String,
    },
    /// A reference that leaves the document.
    #[error("reference to another document")]
    ExternalRef {
        path: Location,
        name: String,
    },
    /// A walk that returns to its first place at one value.
    #[error("endless reference")]
    Unguarded {
        walk: Walk,
    },
    /// A walk longer than the limit.
    #[error("too deep")]
    Depth {
        walk: Walk,
    },
    /// A list whose equal sizes are over the limit.
    #[error("too many places")]
    Places {
        path: Location,
        places: u64,
    },
    /// A number that is neither an i64 nor a u64, or numbers of any kind.
    #[error("fractional numbers")]
    Float {
        path: Location,
    },
    /// A number in the value of that index that isn't an i64, by its place in the value.
    #[error("number out of range in a value")]
    ValueNumber {
        index: u64,
        path: Location,
    },
    /// A default or a listed value that isn't read.
    #[error("invalid value")]
    InvalidValue {
        path: Location,
        value: Value,
    },
    /// A listed value of an enumerated string type that is neither a text nor null.
    #[error("bad value")]
    BadValue {
        path: Location,
        value: Value,
    },
    /// A schema without a meaning.
    #[error("invalid schema")]
    InvalidSchema {
        path: Location,
        kind: InvalidKind,
    },
    /// A schema that isn't converted.
    #[error("unsupported schema")]
    Unsupported {
        path: Location,
        kind: UnsupportedKind,
    },
    /// The judge of texts failed.
    #[error("texts failed")]
    Texts {
        path: Location,
    },
}

/// What makes a schema invalid.
#[derive(Clone, Copy, Debug, PartialEq, Eq)]
pub enum InvalidKind {
    Array,
    Pattern,
}

/// What isn't converted.
#[derive(Clone, Copy, Debug, PartialEq, Eq)]
pub enum UnsupportedKind {
    Conditional,
    Mix,
    MixedEnum,
    NestedEnum,
    Not,
    AnyOne,
    Names,
    Subtract,
}

impl Fault {
    /// Whether memory ran out. It takes no memory.
    pub fn is_memory(&self) -> bool
        ensures { IsTrue result ↔ (fault_view self.now ≡ memory) }
    {
        match self {
            Fault::Memory => true,
            _ => false,
        }
    }

    /// A copy. Fails only for want of memory.
    pub fn try_clone(&self, alloc: Global) -> Result<Fault, AllocError>
        ensures { IfOk result (λ f. fault_view f ≡ fault_view self.now) }
    {
        match self {
            Fault::Memory => Ok(Fault::Memory),
            Fault::Malformed { path, keyword } => Ok(Fault::Malformed {
                path: path.try_clone(alloc)?,
                keyword: String::from_str(alloc, keyword)?,
            }),
            Fault::MissingRef { path, name } => Ok(Fault::MissingRef {
                path: path.try_clone(alloc)?,
                name: String::from_str(alloc, name)?,
            }),
            Fault::ExternalRef { path, name } => Ok(Fault::ExternalRef {
                path: path.try_clone(alloc)?,
                name: String::from_str(alloc, name)?,
            }),
            Fault::Unguarded { walk } => Ok(Fault::Unguarded {
                walk: walk.try_clone(alloc)?,
            }),
            Fault::Depth { walk } => Ok(Fault::Depth {
                walk: walk.try_clone(alloc)?,
            }),
            Fault::Places { path, places } => Ok(Fault::Places {
                path: path.try_clone(alloc)?,
                places: *places,
            }),
            Fault::Float { path } => Ok(Fault::Float {
                path: path.try_clone(alloc)?,
            }),
            Fault::ValueNumber { index, path } => Ok(Fault::ValueNumber {
                index: *index,
                path: path.try_clone(alloc)?,
            }),
            Fault::InvalidValue { path, value } => Ok(Fault::InvalidValue {
                path: path.try_clone(alloc)?,
                value: value.clone()?,
            }),
            Fault::BadValue { path, value } => Ok(Fault::BadValue {
                path: path.try_clone(alloc)?,
                value: value.clone()?,
            }),
            Fault::InvalidSchema { path, kind } => Ok(Fault::InvalidSchema {
                path: path.try_clone(alloc)?,
                kind: *kind,
            }),
            Fault::Unsupported { path, kind } => Ok(Fault::Unsupported {
                path: path.try_clone(alloc)?,
                kind: *kind,
            }),
            Fault::Texts { path } => Ok(Fault::Texts {
                path: path.try_clone(alloc)?,
            }),
        }
    }

    /// The line that tells the fault: `fault`, its name, and its place as a JSON string, with a line feed. A walk stands
    /// for its first place in `Unguarded`, and for its last in `Depth`. The number of the value follows the name
    /// `ValueNumber`. There is no line for want of memory: the text is empty then.
    pub fn line(&self, alloc: Global) -> Result<String, AllocError>
        ensures { IfOk result (λ s. string_bytes s ≡ fault_line (fault_view self.now)) }
    {
        match self {
            Fault::Memory => Ok(String::new(alloc)),
            Fault::Malformed { path, .. } => line_of(alloc, "Malformed", path),
            Fault::MissingRef { path, .. } => line_of(alloc, "MissingRef", path),
            Fault::ExternalRef { path, .. } => line_of(alloc, "ExternalRef", path),
            Fault::Unguarded { walk } => line_of(alloc, "Unguarded", &walk.first(alloc)?),
            Fault::Depth { walk } => line_of(alloc, "Depth", &walk.last(alloc)?),
            Fault::Places { path, .. } => line_of(alloc, "Places", path),
            Fault::Float { path } => line_of(alloc, "Float", path),
            Fault::ValueNumber { index, path } => value_line(alloc, *index, path),
            Fault::InvalidValue { path, .. } => line_of(alloc, "InvalidValue", path),
            Fault::BadValue { path, .. } => line_of(alloc, "BadValue", path),
            Fault::InvalidSchema { path, .. } => line_of(alloc, "InvalidSchema", path),
            Fault::Unsupported { path, .. } => line_of(alloc, "Unsupported", path),
            Fault::Texts { path } => line_of(alloc, "Texts", path),
        }
    }
}

fn value_line(alloc: Global, index: u64, path: &Location) -> Result<String, AllocError>
    ensures { IfOk result (λ s. string_bytes s ≡ line_at (codes "ValueNumber " ++ decimal index) path.now) }
{
    let name = format!(in alloc; "ValueNumber {index}")?;
    line_of(alloc, &name, path)
}

fn line_of(alloc: Global, name: &str, path: &Location) -> Result<String, AllocError>
    ensures { IfOk result (λ s. string_bytes s ≡ line_at name.now path.now) }
{
    let text = path.text(alloc)?;
    let quoted = json_string(alloc, &text)?;
    format!(in alloc; "fault {name} {quoted}\n")
}
