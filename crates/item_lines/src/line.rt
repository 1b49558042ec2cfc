//! A line that names an item.
ghost use Rattle.std.specs.Prelude.{◌≡◌, Some, None, map, option_map, string_bytes, IfOk};
ghost use Rattle.std.specs.List.{slice_get};
ghost use Rattle.syntax_trees.specs.Item.{item_view};
ghost use Rattle.item_lines.specs.Lines.{item_line as item_line_of, named};

use std::alloc::{AllocError, Global};
use syntax_trees::DeriveInput;

#[tactic(auto, using(crate::proofs::Named::at_place))]
fn item_at(items: &[DeriveInput], place: u32) -> Option<&DeriveInput>
    ensures { option_map (λ i. item_view i.now) result ≡ slice_get (map item_view items.now) place }
{
    items.get(place as usize)
}

fn name_at(items: &[DeriveInput], place: u32) -> Option<&str>
    ensures { option_map (λ n. n.now) result ≡ option_map (λ i. i.name.text) (slice_get (map item_view items.now) place) }
{
    match item_at(items, place) {
        Some(item) => Some(item.ident.text.as_str()),
        None => None,
    }
}

fn with_name(alloc: Global, lead: &str, name: &str) -> Result<String, AllocError>
    ensures { IfOk result (λ s. string_bytes s ≡ named lead.now (Some name.now)) }
{
    let mut line = String::from_str(alloc, lead)?;
    line.push_str(" ")?;
    line.push_str(name)?;
    line.push_str("\n")?;
    Ok(line)
}

fn without_name(alloc: Global, lead: &str) -> Result<String, AllocError>
    ensures { IfOk result (λ s. string_bytes s ≡ named lead.now None) }
{
    let mut line = String::from_str(alloc, lead)?;
    line.push_str("\n")?;
    Ok(line)
}

fn line_of(alloc: Global, lead: &str, name: Option<&str>) -> Result<String, AllocError>
    ensures { IfOk result (λ s. string_bytes s ≡ named lead.now (option_map (λ n. n.now) name.entry)) }
{
    match name {
        Some(name) => {
            let line = with_name(alloc, lead, name)?;
            Ok(line)
        }
        None => {
            let line = without_name(alloc, lead)?;
            Ok(line)
        }
    }
}

/// The lead, and behind it the name of the item at the place, where there is one. Fails where memory runs out.
pub fn item_line(
    alloc: Global,
    lead: &str,
    items: &[DeriveInput],
    item: Option<u32>,
) -> Result<String, AllocError>
    ensures { IfOk result (λ s. string_bytes s ≡ item_line_of lead.now (map item_view items.now) item) }
{
    match item {
        Some(place) => {
            let name = name_at(items, place);
            let line = line_of(alloc, lead, name)?;
            Ok(line)
        }
        None => {
            let line = without_name(alloc, lead)?;
            Ok(line)
        }
    }
}
