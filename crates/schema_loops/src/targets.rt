//! The targets of references, in the order of their numbers.
ghost use Rattle.std.specs.Prelude.{◌≡◌, [], ◌∷◌, ◌++◌, map, is_some, option_map, codes, IfOk, OnOk, Some, None, slice_index_or};
ghost use Rattle.schema_defs.specs.Admits.{definition_word};
ghost use Rattle.schema_types.specs.View.{schema_view};
ghost use Rattle.schema_types.specs.DocumentView.{document_view};
ghost use Rattle.schema_loops.specs.Named.{Rises, is_under_defs, names_under, target_names, seen, schema_named};
ghost use Rattle.schema_loops.specs.Round.{location_named};

use schema_types::{Document, Location, Schema};
use std::alloc::{AllocError, Global};

// The targets by name, in the order of their numbers; the root has none.
pub(crate) fn targets_of<'a>(
    alloc: Global,
    document: &'a Document,
) -> Result<Vec<Option<&'a str>>, AllocError>
    ensures names { IfOk result (λ v. seen v.items ≡ target_names (document_view document.now)) }
    ensures rise { IfOk result (λ v. Rises (document_view document.now)) }
{
    let mut targets = Vec::new(alloc);
    targets.push(None)?;
    push_names(alloc, document, true, &mut targets)?;
    push_names(alloc, document, false, &mut targets)?;
    Ok(targets)
}

// Adds the names of the definitions under one keyword.
fn push_names<'a>(
    alloc: Global,
    document: &'a Document,
    under_defs: bool,
    targets: &mut Vec<Option<&'a str>>,
) -> Result<(), AllocError>
    ensures names { OnOk result (seen targets.new.items ≡ seen targets.old.items ++ map Some (names_under (document_view document.now) under_defs)) }
    ensures rise { OnOk result (Rises (document_view document.now)) }
{
    let mut names = document.names();
    while let Some(name) = names.next() {
        if stands_under_defs(alloc, document, name)? == under_defs {
            targets.push(Some(name))?;
        }
    }
    Ok(())
}

fn stands_under_defs(alloc: Global, document: &Document, name: &str) -> Result<bool, AllocError>
    ensures { IfOk result (λ b. b ≡ is_under_defs (document_view document.now) name.now) }
{
    let keyword = Location::root(alloc).child(alloc, "$defs")?;
    let place = keyword.child(alloc, name)?;
    Ok(document.schema_at(&place).is_some())
}

// What stands at a target.
pub(crate) fn schema_of<'a>(document: &'a Document, target: &Option<&str>) -> Option<&'a Schema>
    ensures { option_map (λ s. schema_view s.now) result ≡ schema_named (document_view document.now) (option_map (λ t. t.now) target.now) }
{
    match target {
        Some(name) => document.definition(name),
        None => Some(document.root()),
    }
}

// The name of the target with the number.
pub(crate) fn target_at<'a>(targets: &[Option<&'a str>], number: usize) -> Option<&'a str>
    ensures { option_map (λ t. t.now) result ≡ slice_index_or (seen targets.now) number None }
{
    match targets.get(number) {
        Some(target) => *target,
        None => None,
    }
}

// Where a target stands.
pub(crate) fn location_of(
    alloc: Global,
    document: &Document,
    target: &Option<&str>,
) -> Result<Location, AllocError>
    ensures { IfOk result (λ l. l ≡ location_named (document_view document.now) (option_map (λ t. t.now) target.now)) }
{
    match target {
        Some(name) => location_of_name(alloc, document, name),
        None => Ok(Location::root(alloc)),
    }
}

fn location_of_name(alloc: Global, document: &Document, name: &str) -> Result<Location, AllocError>
    ensures { IfOk result (λ l. l ≡ location_named (document_view document.now) (Some name.now)) }
{
    let keyword = keyword_of(stands_under_defs(alloc, document, name)?);
    let place = Location::root(alloc).child(alloc, keyword)?;
    let location = place.child(alloc, name)?;
    Ok(location)
}

fn keyword_of(under_defs: bool) -> &'static str
    ensures { result.now ≡ definition_word under_defs }
{
    if under_defs { "$defs" } else { "definitions" }
}
