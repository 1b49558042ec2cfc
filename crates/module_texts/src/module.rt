//! The module.
ghost use Rattle.std.specs.Prelude.{◌≡◌, ◌++◌, OnOk, map, string_bytes};
ghost use Rattle.serde_json.specs.View.{view};
ghost use Rattle.syntax_trees.specs.View.{ty as ty_view};
ghost use Rattle.syntax_trees.specs.Item.{item_view};
ghost use Rattle.module_texts.specs.Docs.{doc_view};
ghost use Rattle.module_texts.specs.Module.{module_text, parts_text, root_line};

use crate::asked::is_hashed;
use crate::defaults::push_defaults;
use crate::docs::ItemDoc;
use crate::helpers::push_helpers;
use crate::items::push_items;
use crate::tokens::push_type;
use conversion_table::Conversions;
use std::alloc::{AllocError, Global};
use syntax_trees::{DeriveInput, Ty};

// A comment with the root's type.
#[tactic(auto, using(crate::proofs::Parts::assoc))]
fn push_root(out: &mut String, alloc: Global, root: &Ty) -> Result<(), AllocError>
    ensures { OnOk result (string_bytes out.new ≡ string_bytes out.old ++ root_line (ty_view root.now)) }
{
    out.push_str("// root ")?;
    push_type(out, alloc, root)?;
    out.push_str("\n")?;
    Ok(())
}

#[tactic(auto, using(crate::proofs::Parts::assoc))]
fn push_parts(
    out: &mut String,
    alloc: Global,
    hashed: bool,
    items: &[DeriveInput],
    docs: &[ItemDoc],
    conversions: &Conversions,
    root: &Ty,
) -> Result<(), AllocError>
    ensures { OnOk result (string_bytes out.new ≡ string_bytes out.old ++ parts_text hashed (map item_view items.now) (map doc_view docs.now) conversions.now (ty_view root.now)) }
{
    push_root(out, alloc, root)?;
    push_helpers(out, &conversions.constraints)?;
    push_defaults(out, alloc, &conversions.defaults)?;
    push_items(out, alloc, hashed, items, docs, &conversions.constraints)?;
    Ok(())
}

/// Appends the text of a Rust module that has the items: a comment with the root's type, the helpers that attributes name, a function for each stated default,
/// and each item with `pub`, derives, and the conversion that its rule asks, and with its text among `docs`, which stand in the order of the items, as a doc
/// comment. It compiles with serde, serde_json and, where types or rules name them, uuid, chrono and regex, but where std or serde have no trait for a type,
/// which a comment says. Lines are broken and indented as rustfmt does, but for calls with lists, defaults, newtypes, impls and types by themselves that are
/// longer than a line, and for short variants. Items have no parameters. It fails where memory runs out, and at an array whose length is greater than a u64.
pub fn push_module(
    out: &mut String,
    alloc: Global,
    items: &[DeriveInput],
    docs: &[ItemDoc],
    conversions: &Conversions,
    root: &Ty,
) -> Result<(), AllocError>
    ensures { OnOk result (string_bytes out.new ≡ string_bytes out.old ++ module_text (map item_view items.now) (map doc_view docs.now) conversions.now (ty_view root.now)) }
{
    let hashed = is_hashed(alloc, items, root)?;
    push_parts(out, alloc, hashed, items, docs, conversions, root)?;
    Ok(())
}
