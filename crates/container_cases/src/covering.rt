//! Two modules of items are compared, and what came of it is printed.
use crate::modules::{conversions_of, items_of};
use crate::reading::tokens_of;
use attr_parts::NoCase;
use case_items::{no_case, ty_of};
use derive_model::Module;
use model_evolve::{Broken, Covered, Node, covers, way_text};
use rust_syntax::{DeriveInput, ParseFault, ToTokens, Ty};
use schema_tree::Conversions;
use std::alloc::{AllocError, Global};
use token_trees::TokenStream;

// Items with their rules and stated defaults.
#[derive(Drop)]
struct Side {
    items: Vec<DeriveInput>,
    conversions: Conversions,
}

fn word_of(broken: Broken) -> &'static str {
    match broken {
        Broken::Kind => "Kind",
        Broken::Range => "Range",
        Broken::Rule => "Rule",
        Broken::Length => "Length",
        Broken::Tag => "Tag",
        Broken::Variant => "Variant",
        Broken::Missing => "Missing",
        Broken::Unknown => "Unknown",
        Broken::Twice => "Twice",
        Broken::Rest => "Rest",
    }
}

fn place_of(alloc: Global, node: &Node) -> Result<String, AllocError> {
    match node {
        Node::Ty(ty) => {
            let mut tokens = TokenStream::new(alloc);
            ty.to_tokens(&mut tokens)?;
            tokens.text(alloc)
        }
        Node::Content { item, variant } => format!(in alloc; "{item}.{variant}"),
    }
}

fn shown(alloc: Global, covered: &Covered) -> Result<String, AllocError> {
    match covered {
        Covered::Yes => String::from_str(alloc, "covered"),
        Covered::No {
            old,
            new,
            broken,
            way,
        } => {
            let word = word_of(*broken);
            let way = way_text(alloc, way)?;
            let old = place_of(alloc, old)?;
            let new = place_of(alloc, new)?;
            format!(in alloc; "{word} {way} {old} -> {new}")
        }
    }
}

fn compared(
    alloc: Global,
    old: &Module<'_>,
    old_root: &Ty,
    new: &Module<'_>,
    new_root: &Ty,
) -> Result<String, AllocError> {
    if !old.knows(old_root) {
        return String::from_str(alloc, "unknown");
    }
    if !new.knows(new_root) {
        return String::from_str(alloc, "unknown");
    }
    if old.reaches_itself() {
        return String::from_str(alloc, "reaches itself");
    }
    if new.reaches_itself() {
        return String::from_str(alloc, "reaches itself");
    }
    let covered = covers(alloc, old, old_root, new, new_root)?;
    shown(alloc, &covered)
}

fn type_in(alloc: Global, text: &str) -> Result<Ty, ParseFault> {
    let tokens = tokens_of(alloc, text)?;
    ty_of(alloc, tokens.trees())
}

fn side_of(alloc: Global, text: &str) -> Result<Side, ParseFault> {
    let (items, words) = match text.split_once(" @ ") {
        Some((items, words)) => (items, words),
        None => (text, ""),
    };
    let conversions = conversions_of(alloc, words)?;
    if items == "-" {
        return Ok(Side {
            items: Vec::new(alloc),
            conversions,
        });
    }
    let items = items_of(alloc, items)?;
    Ok(Side { items, conversions })
}

fn module_of(alloc: Global, side: &Side) -> Result<Module<'_>, ParseFault> {
    match Module::new(alloc, &side.items, &side.conversions, &NoCase) {
        Ok(module) => Ok(module),
        Err(_) => Err(no_case()),
    }
}

/// Whether a module of the second items reads, as the second type, what one of the first items writes of the first type; or the rule that
/// is broken, the way to the pair that breaks it, and that pair.
pub(crate) fn covers_answer(alloc: Global, types: &str, text: &str) -> Result<String, ParseFault> {
    let Some((old_root, new_root)) = types.split_once(" -> ") else {
        return Err(no_case());
    };
    let Some((old, new)) = text.split_once(" | ") else {
        return Err(no_case());
    };
    let old_root = type_in(alloc, old_root)?;
    let new_root = type_in(alloc, new_root)?;
    let old = side_of(alloc, old)?;
    let new = side_of(alloc, new)?;
    let from = module_of(alloc, &old)?;
    let to = module_of(alloc, &new)?;
    Ok(compared(alloc, &from, &old_root, &to, &new_root)?)
}
