//! Schemas that have items of their own, as references lead to them.
ghost use Rattle.std.specs.Prelude.{◌≡◌, ◌||◌, Some, [], ◌∷◌, IfErr, IfOk, map, option_map, is_some, string_bytes, bytes_eq, codes};
ghost use Rattle.schema_defs.specs.Admits.{defined};
ghost use Rattle.schema_defs.specs.Children.{schema_at};
ghost use Rattle.schema_tree.specs.Document.{view as document_seen};
ghost use Rattle.schema_tree.specs.Fault.{fault_view, memory};
ghost use Rattle.entry_defs.specs.Entry.{definition as definition_of};
ghost use Rattle.tree_types.specs.View.{target_view};
ghost use Rattle.history_laws.specs.Added.{definition_at, target_at};

use root_references::refers_to_root;
use schema_tree::{Document, Fault, Location};
use std::alloc::{AllocError, Global};
use tree_types::Target;

fn root_target(document: &Document) -> Option<Target>
    ensures { option_map target_view result ≡ target_at (document_seen document.now) [] }
{
    if refers_to_root(document) {
        Some(Target::Root)
    } else {
        None
    }
}

fn holds_definitions(word: &str) -> bool
    ensures { result ≡ (bytes_eq word.now (codes "definitions") || bytes_eq word.now (codes "$defs")) }
{
    word == "definitions" || word == "$defs"
}

fn stands_at(alloc: Global, document: &Document, word: &str, name: &str) -> Result<bool, AllocError>
    ensures { IfOk result (λ b. b ≡ is_some (schema_at (document_seen document.now) (word.now ∷ name.now ∷ []))) }
{
    let owner = Location::root(alloc).child(alloc, word)?;
    let place = owner.child(alloc, name)?;
    Ok(document.schema_at(&place).is_some())
}

fn definition(alloc: Global, name: &str) -> Result<Option<Target>, AllocError>
    ensures { IfOk result (λ o. option_map target_view o ≡ Some (definition_of name.now)) }
{
    let key = String::from_str(alloc, name)?;
    Ok(Some(Target::Definition(key)))
}

// The definition that stands under the keyword.
#[tactic(auto, using(crate::proofs::Standing::other_word, crate::proofs::Standing::not_there, crate::proofs::Standing::is_there))]
fn definition_under(
    alloc: Global,
    document: &Document,
    word: &str,
    name: &str,
) -> Result<Option<Target>, AllocError>
    ensures { IfOk result (λ o. option_map target_view o ≡ definition_at word.now name.now (defined name.now (document_seen document.now).definitions)) }
{
    if !holds_definitions(word) {
        return Ok(None);
    }
    if !stands_at(alloc, document, word, name)? {
        return Ok(None);
    }
    let found = definition(alloc, name)?;
    Ok(found)
}

fn behind_word(
    alloc: Global,
    document: &Document,
    word: &str,
    rest: &[String],
) -> Result<Option<Target>, AllocError>
    ensures { IfOk result (λ o. option_map target_view o ≡ target_at (document_seen document.now) (word.now ∷ map string_bytes rest.now)) }
{
    let Some((name, more)) = rest.split_first() else {
        return Ok(None);
    };
    match more.split_first() {
        Some(_) => Ok(None),
        None => {
            let found = definition_under(alloc, document, word, name)?;
            Ok(found)
        }
    }
}

fn target_of(
    alloc: Global,
    document: &Document,
    at: &Location,
) -> Result<Option<Target>, AllocError>
    ensures { IfOk result (λ o. option_map target_view o ≡ target_at (document_seen document.now) at.now) }
{
    let Some((word, rest)) = at.steps.split_first() else {
        return Ok(root_target(document));
    };
    let found = behind_word(alloc, document, word, rest)?;
    Ok(found)
}

/// Where references to the schema at the location lead: a definition is a target, and the root where some `$ref` is `#`.
pub(crate) fn target_found(
    alloc: Global,
    document: &Document,
    at: &Location,
) -> Result<Option<Target>, Fault>
    ensures target { IfOk result (λ o. option_map target_view o ≡ target_at (document_seen document.now) at.now) }
    ensures memory { IfErr result (λ f. fault_view f ≡ memory) }
{
    match target_of(alloc, document, at) {
        Ok(found) => Ok(found),
        Err(_) => Err(Fault::Memory),
    }
}
