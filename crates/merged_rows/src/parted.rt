//! What a row merges.
ghost use Rattle.std.specs.Prelude.{◌≡◌, map, option_map};
ghost use Rattle.schema_defs.specs.Texts.{Relations};
ghost use Rattle.convert_walks.specs.Tree.{if_merged};
ghost use Rattle.row_findings.specs.View.{part_view, row_view};

use row_findings::{Part, Row};

/// The parts that the row merges, where it merges some. It takes no memory.
pub fn merged_parts<'r, 'd>(row: &'r Row<'d>) -> Option<&'r Vec<Part<'d>>>
    ensures { (r : Relations) → option_map (λ v. map part_view v.now.items) result ≡ if_merged (row_view r row.now) }
{
    match row {
        Row::Merged(parts) => Some(parts),
        Row::Leaf(_) => None,
        Row::Reference(_) => None,
        Row::AsItIs(_) => None,
        Row::Option(_) => None,
        Row::Ruled(_, _) => None,
        Row::Vec(_) => None,
        Row::Set(_) => None,
        Row::Array(_, _) => None,
        Row::Tuple {
            listed: _,
            more: _,
            rest: _,
        } => None,
        Row::Map(_, _) => None,
        Row::PatternMap(_, _) => None,
        Row::Struct {
            closed: _,
            fields: _,
            outside: _,
        } => None,
        Row::Enum {
            tag: _,
            closing: _,
            variants: _,
        } => None,
        Row::Refused(_) => None,
    }
}
