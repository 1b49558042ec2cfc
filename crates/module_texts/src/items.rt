//! Items with their docs and derives.
ghost use Rattle.std.specs.Prelude.{◌≡◌, ◌++◌, ◌&&◌, OnOk, map, string_bytes, not, if◌then◌else◌, []};
ghost use Rattle.syntax_trees.specs.Item.{attribute_view, fields_view, variant_view, body_view, item_view};
ghost use Rattle.module_texts.specs.Docs.{doc_view, own_doc as own_doc_of};
ghost use Rattle.module_texts.specs.Items.{body_text, derive_line, hash_text, hash_where, head_text, item_text, items_text, keyword, parts_text, struct_text};

use crate::asked::{Asked, body_has};
use crate::attributes::push_attributes;
use crate::docs::{ItemDoc, docs_behind, own_doc};
use crate::fields::{push_braced, push_places, push_variants};
use crate::impls::{left_behind, push_impl_of};
use conversion_table::Constraint;
use std::alloc::{AllocError, Global};
use syntax_trees::{Data, DeriveInput, Fields};
use tidy_texts::push_doc_comment;

fn push_if(out: &mut String, holds: bool, text: &str) -> Result<(), AllocError>
    ensures { OnOk result (string_bytes out.new ≡ string_bytes out.old ++ (if holds then text.now else [])) }
{
    if holds {
        out.push_str(text)?;
    }
    Ok(())
}

fn derives_hash(hashed: bool, holder: bool) -> bool
    ensures { result ≡ (hashed && not holder) }
{
    hashed && !holder
}

fn needs_hash(hashed: bool, holder: bool) -> bool
    ensures { result ≡ (hashed && holder) }
{
    hashed && holder
}

// The line of derives.
fn push_derives(out: &mut String, hashed: bool, holder: bool) -> Result<(), AllocError>
    ensures { OnOk result (string_bytes out.new ≡ string_bytes out.old ++ derive_line hashed holder) }
{
    out.push_str("#[derive(Clone, Debug, PartialEq, ")?;
    push_if(out, hashed, "Eq, ")?;
    push_if(out, derives_hash(hashed, holder), "Hash, ")?;
    out.push_str("::serde::Serialize, ::serde::Deserialize)]\n")?;
    Ok(())
}

fn push_keyword(out: &mut String, body: &Data) -> Result<(), AllocError>
    ensures { OnOk result (string_bytes out.new ≡ string_bytes out.old ++ keyword (body_view body.now)) }
{
    match body {
        Data::Struct(_, _) => out.push_str("struct "),
        Data::Enum(_, _) => out.push_str("enum "),
        Data::Union(_, _) => out.push_str("union "),
    }
}

#[tactic(auto, using(crate::proofs::Parts::assoc))]
fn push_struct(out: &mut String, alloc: Global, fields: &Fields) -> Result<(), AllocError>
    ensures { OnOk result (string_bytes out.new ≡ string_bytes out.old ++ struct_text (fields_view fields.now)) }
{
    match fields {
        Fields::Named(fields) => push_braced(out, alloc, "", "    ", "pub ", fields),
        Fields::Unnamed(fields) => {
            push_places(out, alloc, "pub ", fields)?;
            out.push_str(";")?;
            Ok(())
        }
        Fields::Unit => out.push_str(";"),
    }
}

fn push_body(out: &mut String, alloc: Global, body: &Data) -> Result<(), AllocError>
    ensures { OnOk result (string_bytes out.new ≡ string_bytes out.old ++ body_text (body_view body.now)) }
{
    match body {
        Data::Struct(fields, _) => push_struct(out, alloc, fields),
        Data::Enum(variants, _) => push_variants(out, alloc, variants),
        Data::Union(fields, _) => push_braced(out, alloc, "", "    ", "pub ", fields),
    }
}

// A hash for an item that holds a set or a map.
fn push_hash(out: &mut String, name: &str) -> Result<(), AllocError>
    ensures { OnOk result (string_bytes out.new ≡ string_bytes out.old ++ hash_text name.now) }
{
    out.push_str(
        "\n// Sets and maps have no hash: each value has the same.\nimpl ::std::hash::Hash for ",
    )?;
    out.push_str(name)?;
    out.push_str(" {\n    fn hash<H: ::std::hash::Hasher>(&self, _: &mut H) {}\n}\n")?;
    Ok(())
}

fn push_hash_where(out: &mut String, needed: bool, name: &str) -> Result<(), AllocError>
    ensures { OnOk result (string_bytes out.new ≡ string_bytes out.old ++ hash_where needed name.now) }
{
    if needed {
        return push_hash(out, name);
    }
    Ok(())
}

// What stands before the item's body.
#[tactic(auto, using(crate::proofs::Parts::assoc))]
fn push_head(
    out: &mut String,
    alloc: Global,
    hashed: bool,
    holder: bool,
    item: &DeriveInput,
) -> Result<(), AllocError>
    ensures { OnOk result (string_bytes out.new ≡ string_bytes out.old ++ head_text hashed holder (item_view item.now)) }
{
    push_derives(out, hashed, holder)?;
    push_attributes(out, alloc, "", &item.attrs)?;
    out.push_str("pub ")?;
    push_keyword(out, &item.body)?;
    out.push_str(&item.ident.text)?;
    Ok(())
}

// An item of which it is known whether it holds a set or a map, and a type that is too long.
fn push_parts(
    out: &mut String,
    alloc: Global,
    hashed: bool,
    holder: bool,
    long: bool,
    doc: &str,
    item: &DeriveInput,
) -> Result<(), AllocError>
    ensures { OnOk result (string_bytes out.new ≡ string_bytes out.old ++ parts_text hashed holder long doc.now (item_view item.now)) }
{
    out.push_str("\n")?;
    push_if(
        out,
        long,
        "// A tuple of more than 12 places or an array of more than 32 stands in it: write these traits yourself.\n",
    )?;
    push_doc_comment(out, alloc, doc)?;
    push_head(out, alloc, hashed, holder, item)?;
    push_body(out, alloc, &item.body)?;
    out.push_str("\n")?;
    push_hash_where(out, needs_hash(hashed, holder), &item.ident.text)?;
    Ok(())
}

// An item, with its doc where that is the first.
fn push_item(
    out: &mut String,
    alloc: Global,
    hashed: bool,
    docs: &[ItemDoc],
    item: &DeriveInput,
) -> Result<(), AllocError>
    ensures { OnOk result (string_bytes out.new ≡ string_bytes out.old ++ item_text hashed (own_doc_of (map doc_view docs.now) (item_view item.now).name.text) (item_view item.now)) }
{
    let doc = own_doc(docs, &item.ident.text);
    let holder = body_has(alloc, Asked::Holder, false, &item.body)?;
    let long = body_has(alloc, Asked::Length, false, &item.body)?;
    push_parts(out, alloc, hashed, holder, long, doc, item)?;
    Ok(())
}

/// Appends each item, with what is said of it, and the conversion that its rule asks.
#[tactic(auto, using(crate::proofs::Parts::assoc))]
pub(crate) fn push_items(
    out: &mut String,
    alloc: Global,
    hashed: bool,
    items: &[DeriveInput],
    docs: &[ItemDoc],
    constraints: &[Constraint],
) -> Result<(), AllocError>
    ensures { OnOk result (string_bytes out.new ≡ string_bytes out.old ++ items_text hashed (map item_view items.now) (map doc_view docs.now) constraints.now) }
{
    let mut docs_left = docs;
    let mut left = constraints;
    for item in items {
        push_item(out, alloc, hashed, docs_left, item)?;
        push_impl_of(out, alloc, item, left)?;
        docs_left = docs_behind(docs_left, &item.ident.text);
        left = left_behind(left, &item.ident.text);
    }
    Ok(())
}
