//! Options: schemas of which all but one are null.
ghost use Rattle.std.specs.Prelude.{◌≡◌, option_map};
ghost use Rattle.enum_defs.specs.Shapes.{option_shape as option_shape_of};
ghost use Rattle.schema_types.specs.View.{schema_view, schemas_view};

use crate::keyword::is_null_schema;
use schema_types::Schema;

/// Of two or more schemas the one that isn't a null schema, where there is one such alone. A null schema has the type
/// null, or a list of types that are all null; or without a type the constant null; or without both an `enum` of nulls
/// alone, the empty list included. It takes no memory.
pub fn option_shape<'s>(schemas: &'s [Schema]) -> Option<&'s Schema>
    ensures { option_map (λ s. schema_view s.now) result ≡ option_shape_of (schemas_view schemas.now) }
{
    if schemas.len() < 2 {
        return None;
    }
    let mut found: Option<&'s Schema> = None;
    let mut left = schemas;
    while let Some((schema, rest)) = left.split_first() {
        if !is_null_schema(schema) {
            if found.is_some() {
                return None;
            }
            found = Some(schema);
        }
        left = rest;
    }
    found
}
