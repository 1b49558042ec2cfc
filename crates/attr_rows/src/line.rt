//! The tables of attributes.
ghost use Rattle.std.specs.Prelude.{◌≡◌, Some, None, option_map, map};
ghost use Rattle.token_trees.specs.View.{trees};
ghost use Rattle.attr_defs.specs.Rows.{container_lines, variant_lines, field_lines, lines_of, line_of};
ghost use Rattle.attr_rows.specs.OwnerView.{owner_view, line_view};

use crate::owner::Owner;
use attr_acts::is_path;
use attr_defs::Row;
use attr_parts::{
    ALIAS, BORROW, BOUND, CONTENT, CRATE, DEFAULT, DENY_UNKNOWN_FIELDS, DESERIALIZE_WITH,
    EXPECTING, FIELD_IDENTIFIER, FLATTEN, FROM, GETTER, INTO, OTHER, REMOTE, RENAME, RENAME_ALL,
    RENAME_ALL_FIELDS, SERIALIZE_WITH, SKIP, SKIP_DESERIALIZING, SKIP_SERIALIZING,
    SKIP_SERIALIZING_IF, TAG, TRANSPARENT, TRY_FROM, UNTAGGED, VARIANT_IDENTIFIER, WITH,
};
use token_trees::{Symbol, TokenTree};

/// An attribute by its name, and the form that it has.
#[derive(Clone, Copy)]
pub struct Line {
    pub name: Symbol,
    pub row: Row,
}

// Attributes by their names, each with its form.
macro_rules! lines {
    ($($name:ident => $row:ident,)*) => {
        [$(Line { name: $name, row: Row::$row }),*]
    };
}

// The attributes of a container.
static CONTAINER: [Line; 18] = lines! {
    RENAME => Names,
    RENAME_ALL => Rules,
    RENAME_ALL_FIELDS => FieldsRules,
    TRANSPARENT => Flag,
    DENY_UNKNOWN_FIELDS => Flag,
    DEFAULT => ContainerDefault,
    BOUND => Bounds,
    UNTAGGED => EnumFlag,
    TAG => Tag,
    CONTENT => Content,
    FROM => Ty,
    TRY_FROM => Ty,
    INTO => Ty,
    REMOTE => Remote,
    FIELD_IDENTIFIER => Flag,
    VARIANT_IDENTIFIER => Flag,
    CRATE => Path,
    EXPECTING => Text,
};

// Those of a variant.
static VARIANT: [Line; 13] = lines! {
    RENAME => ManyNames,
    ALIAS => Alias,
    RENAME_ALL => Rules,
    SKIP => Skip,
    SKIP_DESERIALIZING => Flag,
    SKIP_SERIALIZING => Flag,
    OTHER => Flag,
    BOUND => Bounds,
    WITH => With,
    SERIALIZE_WITH => Function,
    DESERIALIZE_WITH => Function,
    BORROW => VariantBorrow,
    UNTAGGED => Flag,
};

// Those of a field.
static FIELD: [Line; 14] = lines! {
    RENAME => ManyNames,
    ALIAS => Alias,
    DEFAULT => FieldDefault,
    SKIP_SERIALIZING => Flag,
    SKIP_DESERIALIZING => Flag,
    SKIP => Skip,
    SKIP_SERIALIZING_IF => Function,
    SERIALIZE_WITH => Function,
    DESERIALIZE_WITH => Function,
    WITH => With,
    BOUND => Bounds,
    BORROW => FieldBorrow,
    GETTER => Function,
    FLATTEN => Flag,
};

// The attributes of a container.
fn container_lines() -> &'static [Line]
    ensures { map line_view result.now ≡ container_lines }
{
    &CONTAINER
}

// Those of a variant.
fn variant_lines() -> &'static [Line]
    ensures { map line_view result.now ≡ variant_lines }
{
    &VARIANT
}

// Those of a field.
fn field_lines() -> &'static [Line]
    ensures { map line_view result.now ≡ field_lines }
{
    &FIELD
}

// The attributes that the owner has.
fn lines_of(owner: Owner<'_>) -> &'static [Line]
    ensures { map line_view result.now ≡ lines_of (owner_view owner.entry) }
{
    match owner {
        Owner::Container(_) => container_lines(),
        Owner::Variant(_) => variant_lines(),
        Owner::Field(_, _) => field_lines(),
    }
}

// The line of that path.
fn find(lines: &[Line], path: &[TokenTree]) -> Option<Line>
    ensures { option_map line_view result ≡ line_of (map line_view lines.now) (trees path.now) }
{
    for line in lines {
        if is_path(path, line.name) {
            return Some(*line);
        }
    }
    None
}

/// The attribute of the owner that the path names.
pub fn line_of(owner: Owner<'_>, path: &[TokenTree]) -> Option<Line>
    ensures { option_map line_view result ≡ line_of (lines_of (owner_view owner.entry)) (trees path.now) }
{
    find(lines_of(owner), path)
}
