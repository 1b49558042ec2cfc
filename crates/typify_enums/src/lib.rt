//! Shapes of schemas that make an option or one of serde's representations of enums, the kinds of values that a schema
//! leaves open, and schemas of which no two admit one value. Shapes are decided by shape alone, and borrow from the
//! schemas; kinds and exclusive schemas are told in a document that was read, where references come to an end.
#![tactic(auto)]

ghost use Rattle.std.specs.Prelude.{◌≡◌};
ghost use Rattle.schema_types.specs.View.{schema_view, schemas_view};
ghost use Rattle.schema_tree.specs.Document.{view as document_seen};
ghost use Rattle.enum_defs.specs.Kinds.{kinds as kinds_in, null_free as null_free_in};
ghost use Rattle.enum_defs.specs.Exclusive.{exclusive as exclusive_in};

pub use enum_defs::KindSet;
pub use enum_shapes::{
    AdjacentShape, Case, InternalCase, InternalShape, ObjectShape, adjacent_shape, constant_of,
    constant_text, external_shape, internal_shape, is_named, is_null_schema, is_required,
    object_shape, option_shape,
};
use schema_tree::{Document, Schema};

/// The kinds of values that a schema leaves open by `type`, `enum`, `const`, `$ref`, `allOf`, `anyOf` and `oneOf`, and
/// by those of the schemas that these lead to; `false` leaves none open, and neither does a reference that leads
/// nowhere. It takes no memory.
pub fn kinds(document: &Document, schema: &Schema) -> KindSet
    ensures { result ≡ kinds_in (document_seen document.now) (schema_view schema.now) }
{
    enum_kinds::kinds(document.parts(), schema)
}

/// Whether a schema doesn't leave null open. It takes no memory.
pub fn null_free(document: &Document, schema: &Schema) -> bool
    ensures { result ≡ null_free_in (document_seen document.now) (schema_view schema.now) }
{
    enum_kinds::null_free(document.parts(), schema)
}

/// Whether each two of the schemas have no kind in common; or both lead by references alone to object shapes of which
/// both require a property with different constant texts, or one requires a property that the other, closed, doesn't
/// name. It looks at each two of them once, and takes no memory.
pub fn exclusive(document: &Document, schemas: &[Schema]) -> bool
    ensures { result ≡ exclusive_in (document_seen document.now) (schemas_view schemas.now) }
{
    enum_kinds::exclusive(document.parts(), schemas)
}
