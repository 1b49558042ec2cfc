//! Attributes, on one line or with an argument a line.
ghost use Rattle.std.specs.Prelude.{◌≡◌, ◌∷◌, ◌++◌, [], IfOk, OnOk, List, map, string_bytes, codes};
ghost use Rattle.token_trees.specs.Token.{Tok};
ghost use Rattle.token_trees.specs.View.{group_view, stream, tree as tree_view, trees as trees_view};
ghost use Rattle.syntax_trees.specs.View.{path_view};
ghost use Rattle.syntax_trees.specs.Item.{attribute_view};
ghost use Rattle.module_texts.specs.Attributes.{argument_line, argument_lines, attribute_line, attribute_lines, broken_lines, has_comma as comma_in, is_comma as commas, is_wide as wide, list_lines, plain_line};

use crate::tokens::{push_attribute, push_path, push_stream, width};
use std::alloc::{AllocError, Global};
use std::mem;
use syntax_trees::{Attribute, Meta, Path};
use token_trees::{Group, Literal, TokenStream, TokenTree};

fn is_comma(tree: &TokenTree) -> bool
    ensures { result ≡ commas (tree_view tree.now) }
{
    match tree {
        TokenTree::Punct(punct) => punct.ch == ',',
        _ => false,
    }
}

fn has_comma(trees: &[TokenTree]) -> bool
    ensures { result ≡ comma_in (trees_view trees.now) }
{
    let mut left = trees;
    while let Some((first, rest)) = left.split_first() {
        if is_comma(first) {
            return true;
        }
        left = rest;
    }
    false
}

fn copy_group(alloc: Global, group: &Group) -> Result<TokenTree, AllocError>
    ensures { IfOk result (λ t. tree_view t ≡ group_view group.now) }
{
    let inner = group.stream.try_clone(alloc)?;
    Ok(TokenTree::Group(Group {
        delimiter: group.delimiter,
        stream: inner,
        span: group.span,
    }))
}

fn copy_tree(alloc: Global, tree: &TokenTree) -> Result<TokenTree, AllocError>
    ensures { IfOk result (λ t. tree_view t ≡ tree_view tree.now) }
{
    match tree {
        TokenTree::Ident(name) => Ok(TokenTree::Ident(name.try_clone(alloc)?)),
        TokenTree::Punct(punct) => Ok(TokenTree::Punct(*punct)),
        TokenTree::Literal(literal) => Ok(TokenTree::Literal(Literal {
            lit: literal.lit.try_clone(alloc)?,
            span: literal.span,
        })),
        TokenTree::Group(group) => copy_group(alloc, group),
    }
}

// An argument on a line of its own, with the end of the line.
#[tactic(auto, using(crate::proofs::Parts::assoc))]
fn push_argument(
    out: &mut String,
    alloc: Global,
    indent: &str,
    argument: &TokenStream,
    end: &str,
) -> Result<(), AllocError>
    ensures { OnOk result (string_bytes out.new ≡ string_bytes out.old ++ argument_line indent.now (stream argument.now) end.now) }
{
    out.push_str(indent)?;
    out.push_str("    ")?;
    push_stream(out, alloc, argument)?;
    out.push_str(end)?;
    Ok(())
}

// The argument whose tokens those are, and none is begun.
fn end_argument(
    out: &mut String,
    alloc: Global,
    indent: &str,
    begun: &mut TokenStream,
) -> Result<(), AllocError>
    ensures text { OnOk result (string_bytes out.new ≡ string_bytes out.old ++ argument_line indent.now (stream begun.old) (codes ",\n")) }
    ensures begun { OnOk result (stream begun.new ≡ []) }
{
    let argument = mem::replace(begun, TokenStream::new(alloc));
    push_argument(out, alloc, indent, &argument, ",\n")?;
    Ok(())
}

// One token more of the arguments.
fn push_token(
    out: &mut String,
    alloc: Global,
    indent: &str,
    begun: &mut TokenStream,
    tree: &TokenTree,
) -> Result<(), AllocError>
    ensures { OnOk result ((ts : List Tok) → string_bytes out.new ++ argument_lines indent.now (stream begun.new) ts ≡ string_bytes out.old ++ argument_lines indent.now (stream begun.old) (tree_view tree.now ∷ ts)) }
{
    if is_comma(tree) {
        end_argument(out, alloc, indent, begun)?;
        return Ok(());
    }
    let copy = copy_tree(alloc, tree)?;
    begun.push(copy)?;
    Ok(())
}

fn push_arguments(
    out: &mut String,
    alloc: Global,
    indent: &str,
    tokens: &[TokenTree],
) -> Result<(), AllocError>
    ensures { OnOk result (string_bytes out.new ≡ string_bytes out.old ++ argument_lines indent.now [] (trees_view tokens.now)) }
{
    let mut begun = TokenStream::new(alloc);
    let mut left = tokens;
    while let Some((first, rest)) = left.split_first() {
        push_token(out, alloc, indent, &mut begun, first)?;
        left = rest;
    }
    push_argument(out, alloc, indent, &begun, "\n")?;
    Ok(())
}

#[tactic(auto, using(crate::proofs::Parts::assoc))]
fn push_broken(
    out: &mut String,
    alloc: Global,
    indent: &str,
    path: &Path,
    arguments: &TokenStream,
) -> Result<(), AllocError>
    ensures { OnOk result (string_bytes out.new ≡ string_bytes out.old ++ broken_lines indent.now (path_view path.now) (stream arguments.now)) }
{
    out.push_str(indent)?;
    out.push_str("#[")?;
    push_path(out, alloc, path)?;
    out.push_str("(\n")?;
    push_arguments(out, alloc, indent, arguments.trees())?;
    out.push_str(indent)?;
    out.push_str(")]\n")?;
    Ok(())
}

#[tactic(auto, using(crate::proofs::Parts::assoc))]
fn push_plain(
    out: &mut String,
    alloc: Global,
    indent: &str,
    attribute: &Attribute,
) -> Result<(), AllocError>
    ensures { OnOk result (string_bytes out.new ≡ string_bytes out.old ++ plain_line indent.now (attribute_view attribute.now)) }
{
    out.push_str(indent)?;
    push_attribute(out, alloc, attribute)?;
    out.push_str("\n")?;
    Ok(())
}

// Whether the arguments don't stand on the attribute's line.
fn is_wide(
    alloc: Global,
    indent: &str,
    attribute: &Attribute,
    arguments: &TokenStream,
) -> Result<bool, AllocError>
    ensures { IfOk result (λ b. b ≡ wide indent.now (attribute_view attribute.now) (stream arguments.now)) }
{
    let mut text = String::new(alloc);
    if has_comma(arguments.trees()) {
        push_stream(&mut text, alloc, arguments)?;
        return Ok(width(&text) > 70);
    }
    text.push_str(indent)?;
    push_attribute(&mut text, alloc, attribute)?;
    Ok(width(&text) > 99)
}

// An attribute with arguments.
fn push_list(
    out: &mut String,
    alloc: Global,
    indent: &str,
    attribute: &Attribute,
    path: &Path,
    arguments: &TokenStream,
) -> Result<(), AllocError>
    ensures { OnOk result (string_bytes out.new ≡ string_bytes out.old ++ list_lines indent.now (attribute_view attribute.now) (path_view path.now) (stream arguments.now)) }
{
    if is_wide(alloc, indent, attribute, arguments)? {
        return push_broken(out, alloc, indent, path, arguments);
    }
    push_plain(out, alloc, indent, attribute)
}

fn push_line(
    out: &mut String,
    alloc: Global,
    indent: &str,
    attribute: &Attribute,
) -> Result<(), AllocError>
    ensures { OnOk result (string_bytes out.new ≡ string_bytes out.old ++ attribute_line indent.now (attribute_view attribute.now)) }
{
    match &attribute.meta {
        Meta::Path(_) => push_plain(out, alloc, indent, attribute),
        Meta::List { path, tokens, .. } => push_list(out, alloc, indent, attribute, path, tokens),
        Meta::NameValue { .. } => push_plain(out, alloc, indent, attribute),
    }
}

/// Appends the lines of each attribute.
#[tactic(auto, using(crate::proofs::Parts::assoc))]
pub(crate) fn push_attributes(
    out: &mut String,
    alloc: Global,
    indent: &str,
    attributes: &[Attribute],
) -> Result<(), AllocError>
    ensures { OnOk result (string_bytes out.new ≡ string_bytes out.old ++ attribute_lines indent.now (map attribute_view attributes.now)) }
{
    for attribute in attributes {
        push_line(out, alloc, indent, attribute)?;
    }
    Ok(())
}
