//! Merging `format`.
ghost use Rattle.std.specs.Prelude.{◌≡◌, IfOk, Some, option_map, string_bytes};
ghost use Rattle.merge_defs.specs.Outcome.{where_both};
ghost use Rattle.merge_defs.specs.Leaves.{is_ip as is_ip_of, is_ip_of_one_kind as is_ip_of_one_kind_of, two_formats as two_formats_of};
ghost use Rattle.merge_parts.specs.View.{notes_view};
ghost use Rattle.merge_parts.specs.Steps.{Steps};

use merge_parts::{MergeKind, MergeNote, Way, note};
use std::alloc::{AllocError, Global};

fn is_ip(format: &str) -> bool
    ensures { result ≡ is_ip_of format.now }
{
    format == "ip"
}

fn is_ip_of_one_kind(format: &str) -> bool
    ensures { result ≡ is_ip_of_one_kind_of format.now }
{
    format == "ipv4" || format == "ipv6"
}

fn kept(alloc: Global, format: &str) -> Result<Option<Option<String>>, AllocError>
    ensures { IfOk result (λ o. option_map (option_map string_bytes) o ≡ Some (Some format.now)) }
{
    let text = String::from_str(alloc, format)?;
    Ok(Some(Some(text)))
}

// Of two address formats the one that says which kind; other formats clash.
fn two_formats(
    alloc: Global,
    notes: &mut Vec<MergeNote>,
    first: &str,
    second: &str,
) -> Result<Option<Option<String>>, AllocError>
    ensures { IfOk result (λ o. Steps (notes_view notes.old.items) (notes_view notes.new.items) (two_formats_of first.now second.now) (option_map (option_map string_bytes) o)) }
{
    if first == second {
        return kept(alloc, first);
    }
    if is_ip(first) && is_ip_of_one_kind(second) {
        return kept(alloc, second);
    }
    if is_ip(second) && is_ip_of_one_kind(first) {
        return kept(alloc, first);
    }
    note(notes, Way::Narrowed, MergeKind::Formats)?;
    Ok(None)
}

/// The format of both sides, or never; where one side alone has one, that.
pub fn both_formats(
    alloc: Global,
    notes: &mut Vec<MergeNote>,
    first: &Option<String>,
    second: &Option<String>,
) -> Result<Option<Option<String>>, AllocError>
    ensures { IfOk result (λ o. Steps (notes_view notes.old.items) (notes_view notes.new.items) (where_both two_formats_of (option_map string_bytes first.now) (option_map string_bytes second.now)) (option_map (option_map string_bytes) o)) }
{
    match (first, second) {
        (None, None) => Ok(Some(None)),
        (None, Some(format)) => kept(alloc, format),
        (Some(format), None) => kept(alloc, format),
        (Some(format), Some(other)) => two_formats(alloc, notes, format, other),
    }
}
