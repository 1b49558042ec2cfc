//! An object as a schema.
ghost use Rattle.std.specs.Prelude.{◌≡◌};
ghost use Rattle.schema_types.specs.View.{schema_view, object_view};

use crate::schema::{Schema, SchemaObject};

/// The schema that is this object.
pub fn as_schema(object: Box<SchemaObject>) -> Schema
    ensures { schema_view result ≡ object_view object.value }
{
    Schema::Object(object)
}
