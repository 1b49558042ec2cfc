//! The items of a report as a module.
ghost use Rattle.std.specs.Prelude.{◌≡◌, ◌++◌, IfOk, OnOk, map, string_bytes};
ghost use Rattle.serde_json.specs.View.{view};
ghost use Rattle.syntax_trees.specs.View.{ty as ty_view};
ghost use Rattle.schema_words.specs.Said.{said_of};
ghost use Rattle.schema_words.specs.Outcome.{tells_line};
ghost use Rattle.typify_run.specs.Page.{head};
ghost use Rattle.typify_run.specs.Headline.{items_of};
ghost use Rattle.tidy_texts.specs.Comment.{comment};
ghost use Rattle.schema_types.specs.DocumentView.{document_view};
ghost use Rattle.module_texts.specs.Docs.{doc_view};
ghost use Rattle.module_texts.specs.Module.{module_text};
ghost use Rattle.item_docs.specs.Docs.{docs_of as docs_of_document};
ghost use Rattle.rust_run.specs.Prints.{Prints, docs_for, rust_page};

use item_docs::item_docs;
use module_texts::{ItemDoc, push_module};
use schema_defs::Setting;
use schema_reading::document;
use schema_tree::Fault;
use schema_types::Document;
use schema_words::{Answer, Answering};
use serde_json::Value;
use std::alloc::{AllocError, Global};
use tidy_texts::push_comment;
use typify_run::{Report, head_text};

/// What `rust` answers of a report: always a page, a Rust module with the items. Its first comment has the version, the number of items, the notes, and
/// the root's type. Items have the titles and descriptions of their schemas as doc comments, as far as it is sure of which schema an item is.
#[derive(Clone, Copy)]
pub struct RustPrinting;

fn push_head(out: &mut String, alloc: Global, report: &Report) -> Result<(), AllocError>
    ensures { OnOk result (string_bytes out.new ≡ string_bytes out.old ++ comment (head report.now)) }
{
    let head = head_text(alloc, report)?;
    push_comment(out, alloc, &head)?;
    Ok(())
}

fn docs_of(alloc: Global, document: &Document, report: &Report) -> Result<Vec<ItemDoc>, AllocError>
    ensures { IfOk result (λ v. map doc_view v.items ≡ docs_of_document (document_view document.now) (items_of report.now) (ty_view report.now.root)) }
{
    let docs = item_docs(alloc, document, &report.items, &report.root)?;
    Ok(docs)
}

// What the schema says of the items.
fn docs_for(alloc: Global, schema: &Value, report: &Report) -> Result<Vec<ItemDoc>, AllocError>
    ensures { IfOk result (λ v. map doc_view v.items ≡ docs_for (view schema.now) report.now) }
{
    let found = document(alloc, schema, Setting::Strict)?;
    match &found {
        Some(document) => docs_of(alloc, document, report),
        None => Ok(Vec::new(alloc)),
    }
}

fn push_items(
    out: &mut String,
    alloc: Global,
    schema: &Value,
    report: &Report,
) -> Result<(), AllocError>
    ensures { OnOk result (string_bytes out.new ≡ string_bytes out.old ++ module_text (items_of report.now) (docs_for (view schema.now) report.now) report.now.conversions (ty_view report.now.root)) }
{
    let docs = docs_for(alloc, schema, report)?;
    push_module(
        out,
        alloc,
        &report.items,
        &docs,
        &report.conversions,
        &report.root,
    )?;
    Ok(())
}

fn page(alloc: Global, schema: &Value, report: &Report) -> Result<String, AllocError>
    ensures { IfOk result (λ s. string_bytes s ≡ rust_page (view schema.now) report.now) }
{
    let mut page = String::from_str(alloc, "// typify 0.8.0\n")?;
    push_head(&mut page, alloc, report)?;
    push_items(&mut page, alloc, schema, report)?;
    Ok(page)
}

impl Answering for RustPrinting {
    ghost answers = { Prints };

    ghost tells = { tells_line };

    fn answer(&self, alloc: Global, schema: &Value, report: &Report) -> Result<Answer, AllocError> {
        let page = page(alloc, schema, report)?;
        Ok(Answer::Page(page))
    }

    fn tell(&self, alloc: Global, _schema: &Value, fault: &Fault) -> Result<String, AllocError> {
        fault.line(alloc)
    }
}
