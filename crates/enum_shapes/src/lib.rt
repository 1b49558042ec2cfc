//! Shapes of schemas that make an option or one of serde's representations of enums
//! (<https://serde.rs/enum-representations.html>). Each is decided by shape alone, and borrows from the schemas.
#![tactic(auto)]

mod adjacent;
mod cases;
mod external;
mod internal;
mod keyword;
mod object;
mod option;

pub use adjacent::{AdjacentShape, adjacent_shape};
pub use cases::Case;
pub use external::external_shape;
pub use internal::{InternalCase, InternalShape, internal_shape};
pub use keyword::{are_null_types, constant_text, is_null_schema};
pub use object::{ObjectShape, constant_of, is_named, is_required, is_unruled, object_shape};
pub use option::option_shape;
