//! Docs in the order of the items.
ghost use Rattle.std.specs.Prelude.{◌≡◌, map, option_map, IfOk};
ghost use Rattle.syntax_trees.specs.Item.{item_view};
ghost use Rattle.module_texts.specs.Docs.{doc_view};
ghost use Rattle.item_docs.specs.Docs.{in_order, item_doc, text_for, text_in};

use crate::table::Docs;
use module_texts::ItemDoc;
use std::alloc::{AllocError, Global};
use syntax_trees::DeriveInput;

fn text_in(doc: Option<&ItemDoc>) -> &str
    ensures { result.now ≡ text_in (option_map (λ x. doc_view x.now) doc.entry) }
{
    match doc {
        Some(doc) => doc.text.as_str(),
        None => "",
    }
}

fn text_for<'a>(docs: &Docs<'a>, item: &str) -> &'a str
    ensures { result.now ≡ text_for (map doc_view docs.now.docs.now) item.now }
{
    text_in(docs.doc(item))
}

fn item_doc(alloc: Global, docs: &Docs<'_>, item: &DeriveInput) -> Result<ItemDoc, AllocError>
    ensures { IfOk result (λ x. doc_view x ≡ item_doc (map doc_view docs.now.docs.now) (item_view item.now)) }
{
    let text = String::from_str(alloc, text_for(docs, &item.ident.text))?;
    let item = String::from_str(alloc, &item.ident.text)?;
    Ok(ItemDoc { item, text })
}

/// For each item the text of the first doc that has its name. Fails where memory runs out.
pub(crate) fn in_order(
    alloc: Global,
    docs: &[ItemDoc],
    items: &[DeriveInput],
) -> Result<Vec<ItemDoc>, AllocError>
    ensures { IfOk result (λ v. map doc_view v.items ≡ in_order (map doc_view docs.now) (map item_view items.now)) }
{
    let table = Docs::new(alloc, docs)?;
    let mut ordered = Vec::with_capacity(alloc, items.len())?;
    for item in items {
        let doc = item_doc(alloc, &table, item)?;
        ordered.push(doc)?;
    }
    Ok(ordered)
}
