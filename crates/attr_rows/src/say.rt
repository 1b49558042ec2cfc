//! What a meta does, by the form of its attribute.
ghost use Rattle.std.specs.Prelude.{IfOk, option_map};
ghost use Rattle.token_trees.specs.View.{trees};
ghost use Rattle.attr_defs.specs.Rows.{says};
ghost use Rattle.attr_defs.specs.Texts.{lexed};
ghost use Rattle.attr_acts.specs.Does.{Does};
ghost use Rattle.attr_rows.specs.OwnerView.{owner_view};
ghost use Rattle.attr_acts.specs.Views.{acts_view};

use crate::borrow::borrow;
use crate::bound::bounds;
use crate::defaults::{default, with_module};
use crate::line::Line;
use crate::owner::Owner;
use crate::remote::remote;
use crate::row::{
    alias, enum_flag, fields_rules, flag, function, many_names, names, path_row, rules, skip,
    text_row, type_row,
};
use attr_acts::Act;
use attr_defs::Row;
use attr_parts::DiagKind;
use std::alloc::{AllocError, Global};
use token_trees::{Span, TokenTree};

/// A meta of that attribute: what stands behind its path is read, and what is left of it answered; none where reading of the
/// attribute ends.
pub fn says<'a>(
    alloc: Global,
    acts: &mut Vec<Act>,
    owner: Owner<'_>,
    line: Line,
    path: &'a [TokenTree],
    end: Span,
    rest: &'a [TokenTree],
) -> Result<Option<&'a [TokenTree]>, AllocError>
    ensures { IfOk result (λ o. Does (acts_view acts.old.items) (acts_view acts.new.items) (option_map (λ t. trees t.now) o) (says lexed (owner_view owner.entry) line.row line.name.0.now (trees path.now) end (trees rest.now))) }
{
    let name = line.name;
    match line.row {
        Row::Names => names(alloc, acts, name, path, end, rest),
        Row::ManyNames => many_names(alloc, acts, name, path, end, rest),
        Row::Alias => alias(alloc, acts, name, end, rest),
        Row::Rules => rules(alloc, acts, name, path, end, rest),
        Row::FieldsRules => fields_rules(alloc, acts, owner, name, path, end, rest),
        Row::Flag => flag(acts, name, path, rest),
        Row::EnumFlag => enum_flag(acts, owner, name, path, rest),
        Row::Skip => skip(acts, path, rest),
        Row::ContainerDefault => default(alloc, acts, owner, name, path, end, rest),
        Row::FieldDefault => default(alloc, acts, owner, name, path, end, rest),
        Row::Bounds => bounds(alloc, acts, name, path, end, rest),
        Row::Tag => {
            let fits = owner.is_enum() || owner.has_names();
            text_row(alloc, acts, fits, DiagKind::TagPlace, name, path, end, rest)
        }
        Row::Content => {
            let fits = owner.is_enum();
            text_row(
                alloc,
                acts,
                fits,
                DiagKind::ContentPlace,
                name,
                path,
                end,
                rest,
            )
        }
        Row::Text => text_row(
            alloc,
            acts,
            true,
            DiagKind::ContentPlace,
            name,
            path,
            end,
            rest,
        ),
        Row::Ty => type_row(alloc, acts, name, path, end, rest),
        Row::Remote => remote(alloc, acts, owner, name, path, end, rest),
        Row::Path => path_row(alloc, acts, name, path, end, rest),
        Row::Function => function(alloc, acts, name, path, end, rest),
        Row::With => with_module(alloc, acts, name, path, end, rest),
        Row::VariantBorrow => borrow(alloc, acts, owner, name, path, end, rest),
        Row::FieldBorrow => borrow(alloc, acts, owner, name, path, end, rest),
    }
}
