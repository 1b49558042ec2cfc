//! Merging the keywords of texts.
ghost use Rattle.std.specs.Prelude.{◌≡◌, ◌++◌, IfOk, OnOk, map, option_map, string_bytes, bytes_eq};
ghost use Rattle.std.specs.Cmp.Lexicographic.{pointwise};
ghost use Rattle.schema_types.specs.View.{texts_view};
ghost use Rattle.merge_defs.specs.Outcome.{where_both};
ghost use Rattle.merge_defs.specs.Alike.{same_texts as same_texts_of};
ghost use Rattle.merge_defs.specs.Leaves.{each_once as each_once_of, joined_texts as joined_texts_of, two_texts as two_texts_of};
ghost use Rattle.merge_parts.specs.View.{notes_view};
ghost use Rattle.merge_parts.specs.Steps.{Steps};

use crate::sizes::{greatest, least, sizes_cross};
use merge_parts::{MergeKind, MergeNote, never_unless};
use schema_types::StringValidation;
use std::alloc::{AllocError, Global};
use std::collections::BTreeSet;

#[tactic(auto, using(crate::proofs::Patterns::pointwise_of_texts))]
fn same_patterns(first: &Vec<String>, second: &Vec<String>) -> bool
    ensures { result ≡ pointwise bytes_eq (map string_bytes first.now.items) (map string_bytes second.now.items) }
{
    first == second
}

fn same_texts(first: &StringValidation, second: &StringValidation) -> bool
    ensures { result ≡ same_texts_of (texts_view first.now) (texts_view second.now) }
{
    first.max_length == second.max_length
        && first.min_length == second.min_length
        && same_patterns(&first.patterns, &second.patterns)
}

// The texts of a list, behind those before them.
fn push_texts<'t>(names: &mut Vec<&'t str>, texts: &'t Vec<String>) -> Result<(), AllocError>
    ensures { OnOk result (map (λ n. n.now) names.new.items ≡ map (λ n. n.now) names.old.items ++ map string_bytes texts.now.items) }
{
    for text in texts {
        names.push(text.as_str())?;
    }
    Ok(())
}

// Each text once, where it stands first: those before are kept in order, so that each is looked up among them.
#[tactic(auto, using(crate::proofs::Patterns::none_seen, crate::proofs::Patterns::new_seen, crate::proofs::Patterns::seen_before, crate::proofs::Patterns::all_seen))]
fn each_once(alloc: Global, texts: &Vec<&str>) -> Result<Vec<String>, AllocError>
    ensures { IfOk result (λ v. map string_bytes v.items ≡ each_once_of (map (λ n. n.now) texts.now.items)) }
{
    let mut seen = BTreeSet::new(alloc);
    let mut kept = Vec::new(alloc);
    for text in texts {
        if seen.insert(*text)? {
            kept.push(String::from_str(alloc, text)?)?;
        }
    }
    Ok(kept)
}

fn joined_patterns(
    alloc: Global,
    first: &Vec<String>,
    second: &Vec<String>,
) -> Result<Vec<String>, AllocError>
    ensures { IfOk result (λ v. map string_bytes v.items ≡ each_once_of (map string_bytes first.now.items ++ map string_bytes second.now.items)) }
{
    let mut names = Vec::new(alloc);
    push_texts(&mut names, first)?;
    push_texts(&mut names, second)?;
    let kept = each_once(alloc, &names)?;
    Ok(kept)
}

fn joined_texts(
    alloc: Global,
    first: &StringValidation,
    second: &StringValidation,
) -> Result<StringValidation, AllocError>
    ensures { IfOk result (λ t. texts_view t ≡ joined_texts_of (texts_view first.now) (texts_view second.now)) }
{
    Ok(StringValidation {
        max_length: least(first.max_length, second.max_length),
        min_length: greatest(first.min_length, second.min_length),
        patterns: joined_patterns(alloc, &first.patterns, &second.patterns)?,
    })
}

fn two_texts(
    alloc: Global,
    notes: &mut Vec<MergeNote>,
    is_whole: bool,
    first: &StringValidation,
    second: &StringValidation,
) -> Result<Option<Option<StringValidation>>, AllocError>
    ensures { IfOk result (λ o. Steps (notes_view notes.old.items) (notes_view notes.new.items) (two_texts_of is_whole (texts_view first.now) (texts_view second.now)) (option_map (option_map texts_view) o)) }
{
    if same_texts(first, second) {
        return Ok(Some(Some(first.try_clone(alloc)?)));
    }
    if sizes_cross(
        greatest(first.min_length, second.min_length),
        least(first.max_length, second.max_length),
    ) {
        never_unless(notes, is_whole, MergeKind::Clash)?;
        return Ok(None);
    }
    Ok(Some(Some(joined_texts(alloc, first, second)?)))
}

/// The texts that both sides admit, where `is_whole` says that the merged type is string, each pattern once; where one side alone says
/// something of texts, that.
pub fn both_texts(
    alloc: Global,
    notes: &mut Vec<MergeNote>,
    is_whole: bool,
    first: &Option<StringValidation>,
    second: &Option<StringValidation>,
) -> Result<Option<Option<StringValidation>>, AllocError>
    ensures { IfOk result (λ o. Steps (notes_view notes.old.items) (notes_view notes.new.items) (where_both (two_texts_of is_whole) (option_map texts_view first.now) (option_map texts_view second.now)) (option_map (option_map texts_view) o)) }
{
    match (first, second) {
        (None, None) => Ok(Some(None)),
        (None, Some(texts)) => Ok(Some(Some(texts.try_clone(alloc)?))),
        (Some(texts), None) => Ok(Some(Some(texts.try_clone(alloc)?))),
        (Some(texts), Some(others)) => two_texts(alloc, notes, is_whole, texts, others),
    }
}
