//! What is said of the items of a document.
ghost use Rattle.std.specs.Prelude.{◌≡◌, ◌++◌, ℕ, List, [], false, IfOk, OnOk, map, option_map, codes, string_bytes};
ghost use Rattle.syntax_trees.specs.Item.{item_view};
ghost use Rattle.syntax_trees.specs.View.{ty as ty_view};
ghost use Rattle.schema_types.specs.View.{schema_view};
ghost use Rattle.schema_types.specs.DocumentView.{document_view};
ghost use Rattle.value_types.specs.ShapeView.{type_in};
ghost use Rattle.naming_defs.specs.Names.{Names};
ghost use Rattle.good_names.specs.Given.{Stands, Does, item_given};
ghost use Rattle.module_texts.specs.Docs.{doc_view};
ghost use Rattle.item_docs.specs.Said.{said_where as said_where_schema};
ghost use Rattle.item_docs.specs.Forms.{item_in as item_in_type};
ghost use Rattle.item_docs.specs.Docs.{below_body, below_definitions, body_in, definition_docs as docs_of_definitions, docs_of, names_in, root_docs, told_docs};

use crate::forms::item_in;
use crate::nested::{push_at, push_below};
use crate::ordered::in_order;
use crate::said::{said_of, said_where};
use crate::table::Items;
use good_names::GivenNames;
use module_texts::ItemDoc;
use schema_types::{Document, Schema};
use std::alloc::{AllocError, Global};
use syntax_trees::{DeriveInput, Ty};

// The names of the definitions are wanted.
fn wanted_names(alloc: Global, document: &Document) -> Result<GivenNames, AllocError>
    ensures { IfOk result (λ s. (prefix : List ℕ) → Stands s prefix [] (names_in (document_view document.now))) }
{
    let mut given = GivenNames::new(alloc);
    let mut names = document.names();
    while let Some(name) = names.next() {
        given.want(alloc, name)?;
    }
    Ok(given)
}

// The item of the definition of that name is named, and what is said of it.
fn definition_doc(
    alloc: Global,
    document: &Document,
    given: &mut GivenNames,
    name: &str,
) -> Result<ItemDoc, AllocError>
    ensures named { IfOk result (λ x. Does (codes "Type") given.old given.new (string_bytes x.item) (item_given false name.now)) }
    ensures said { IfOk result (λ x. string_bytes x.text ≡ said_where_schema (string_bytes x.item) (body_in (document_view document.now) name.now)) }
{
    let item = given.give_item(alloc, name, false)?;
    let text = said_where(alloc, &item, document.definition(name))?;
    Ok(ItemDoc { item, text })
}

fn definition_docs(
    alloc: Global,
    document: &Document,
    mut given: GivenNames,
) -> Result<Vec<ItemDoc>, AllocError>
    ensures { IfOk result (λ v. (beside : Names) → ((prefix : List ℕ) → Stands given prefix [] beside) → map doc_view v.items ≡ docs_of_definitions (document_view document.now) beside [] (names_in (document_view document.now))) }
{
    let mut docs = Vec::new(alloc);
    let mut names = document.names();
    while let Some(name) = names.next() {
        let doc = definition_doc(alloc, document, &mut given, name)?;
        docs.push(doc)?;
    }
    Ok(docs)
}

// What is said of the root is added, where it is an item.
fn push_root(
    alloc: Global,
    docs: &mut Vec<ItemDoc>,
    root: &Ty,
    schema: &Schema,
) -> Result<(), AllocError>
    ensures { OnOk result (map doc_view docs.new.items ≡ map doc_view docs.old.items ++ root_docs (item_in_type (type_in root.now)) (schema_view schema.now)) }
{
    match item_in(root) {
        Some(name) => push_doc(alloc, docs, name, schema),
        None => Ok(()),
    }
}

fn push_doc(
    alloc: Global,
    docs: &mut Vec<ItemDoc>,
    name: &str,
    schema: &Schema,
) -> Result<(), AllocError>
    ensures { OnOk result (map doc_view docs.new.items ≡ map doc_view docs.old.items ++ root_docs (Some name.now) (schema_view schema.now)) }
{
    let text = said_of(alloc, name, schema)?;
    let item = String::from_str(alloc, name)?;
    docs.push(ItemDoc { item, text })?;
    Ok(())
}

// What is said below a definition that was converted to the item is added.
fn push_below_body(
    alloc: Global,
    items: &Items<'_>,
    docs: &mut Vec<ItemDoc>,
    body: Option<&Schema>,
    item: &str,
) -> Result<(), AllocError>
    ensures { OnOk result (map doc_view docs.new.items ≡ map doc_view docs.old.items ++ below_body (map item_view items.now.items.now) (option_map (λ s. schema_view s.now) body.entry) item.now) }
{
    match body {
        Some(body) => push_below(alloc, items, docs, body, item),
        None => Ok(()),
    }
}

// What is said below the definitions, of which the first have these docs.
fn below_definitions(
    alloc: Global,
    document: &Document,
    items: &Items<'_>,
    told: &[ItemDoc],
) -> Result<Vec<ItemDoc>, AllocError>
    ensures { IfOk result (λ v. map doc_view v.items ≡ below_definitions (map item_view items.now.items.now) (document_view document.now) (map doc_view told.now) (names_in (document_view document.now))) }
{
    let mut docs = Vec::new(alloc);
    let mut names = document.names();
    for doc in told {
        let Some(name) = names.next() else {
            return Ok(docs);
        };
        push_below_body(
            alloc,
            items,
            &mut docs,
            document.definition(name),
            &doc.item,
        )?;
    }
    Ok(docs)
}

// What is said of the items of the definitions and of the root, and then what is said below.
fn told_docs<'a>(
    alloc: Global,
    document: &Document,
    items: &Items<'a>,
    root: &'a Ty,
) -> Result<Vec<ItemDoc>, AllocError>
    ensures { IfOk result (λ v. map doc_view v.items ≡ told_docs (document_view document.now) (map item_view items.now.items.now) (ty_view root.now)) }
{
    let given = wanted_names(alloc, document)?;
    let mut docs = definition_docs(alloc, document, given)?;
    let mut below = below_definitions(alloc, document, items, &docs)?;
    push_root(alloc, &mut docs, root, document.root())?;
    push_at(alloc, items, &mut below, document.root(), root)?;
    docs.append(&mut below)?;
    Ok(docs)
}

/// What is said of each item of a document whose root has the type, in the order of the items: the title of its schema, unless it is the item's name, and the description. The items of the
/// definitions are told by their names, which are given before all others, and that of the root by its type. Below these an item is a part's where that part stands in the schema: the items of
/// a list, a place of a tuple, the members of a map, a property. Nothing is said of what stands in or below a schema with a reference or with subschemas that judge the same value. Fails
/// where memory runs out.
pub fn item_docs<'a>(
    alloc: Global,
    document: &Document,
    items: &'a [DeriveInput],
    root: &'a Ty,
) -> Result<Vec<ItemDoc>, AllocError>
    ensures { IfOk result (λ v. map doc_view v.items ≡ docs_of (document_view document.now) (map item_view items.now) (ty_view root.now)) }
{
    let table = Items::new(alloc, items)?;
    let told = told_docs(alloc, document, &table, root)?;
    let docs = in_order(alloc, &told, items)?;
    Ok(docs)
}
