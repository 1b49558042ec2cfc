//! The keys by which pairs of places are looked up.
ghost use Rattle.std.specs.Prelude.{◌≡◌, ◌++◌, IfOk, OnOk, codes, string_bytes};
ghost use Rattle.std.specs.Fmt.{decimal};
ghost use Rattle.model_defs.specs.Types.{types};
ghost use Rattle.value_models.specs.TypeView.{type_view, types_view};
ghost use Rattle.evolve_rows.specs.PlaceView.{place_view};
ghost use Rattle.evolve_rows.specs.TurnView.{pair_view};
ghost use Rattle.evolve_walks.specs.Same.{format_key, item_key, range_key, spot_key, spots_key, type_key, types_key, variant_key};

use evolve_rows::{Pair, Place};
use schema_defs::Format;
use std::alloc::{AllocError, Global};
use value_models::ValueType;

fn format_key(format: Format) -> &'static str
    ensures { result.now ≡ format_key format }
{
    match format {
        Format::Uuid => "U",
        Format::Date => "D",
        Format::DateTime => "T",
        Format::Ip => "I",
        Format::Ipv4 => "F",
        Format::Ipv6 => "S",
    }
}

fn range_key(alloc: Global, least: i128, greatest: i128) -> Result<String, AllocError>
    ensures { IfOk result (λ s. string_bytes s ≡ range_key (record { least = least; greatest = greatest })) }
{
    format!(in alloc; "i{least},{greatest}.")
}

fn push_range(
    alloc: Global,
    text: &mut String,
    least: i128,
    greatest: i128,
) -> Result<(), AllocError>
    ensures { OnOk result (string_bytes text.new ≡ string_bytes text.old ++ range_key (record { least = least; greatest = greatest })) }
{
    let key = range_key(alloc, least, greatest)?;
    text.push_str(&key)?;
    Ok(())
}

fn length_key(alloc: Global, length: u64) -> Result<String, AllocError>
    ensures { IfOk result (λ s. string_bytes s ≡ codes "#" ++ decimal length) }
{
    format!(in alloc; "#{length}")
}

fn item_key(alloc: Global, name: &str) -> Result<String, AllocError>
    ensures { IfOk result (λ s. string_bytes s ≡ item_key name.now) }
{
    format!(in alloc; "<{name}>")
}

fn push_item(alloc: Global, text: &mut String, name: &str) -> Result<(), AllocError>
    ensures { OnOk result (string_bytes text.new ≡ string_bytes text.old ++ item_key name.now) }
{
    let key = item_key(alloc, name)?;
    text.push_str(&key)?;
    Ok(())
}

// What stands at a type, behind the text.
#[cycle(keys)]
#[tactic(auto, using(crate::proofs::Parts::map_more))]
fn push_type(alloc: Global, text: &mut String, ty: &ValueType) -> Result<(), AllocError>
    ensures { OnOk result (string_bytes text.new ≡ string_bytes text.old ++ type_key (type_view ty.now)) }
{
    match ty {
        ValueType::Boolean => text.push_str("b"),
        ValueType::Integer { least, greatest } => push_range(alloc, text, *least, *greatest),
        ValueType::Text => text.push_str("s"),
        ValueType::Native(format) => text.push_str(format_key(*format)),
        ValueType::Any => text.push_str("a"),
        ValueType::Unit => text.push_str("u"),
        ValueType::Optional(inner) => push_inside(alloc, text, "?", inner),
        ValueType::Boxed(inner) => push_inside(alloc, text, "*", inner),
        ValueType::List(inner) => push_inside(alloc, text, "[", inner),
        ValueType::Set(inner) => push_inside(alloc, text, "{", inner),
        ValueType::Map(key, value) => {
            push_inside(alloc, text, ":", key)?;
            push_type(alloc, text, value)?;
            Ok(())
        }
        ValueType::Tuple(parts) => push_between(alloc, text, "(", parts, ")"),
        ValueType::Array(inner, length) => push_array(alloc, text, inner, *length),
        ValueType::Item(name) => push_item(alloc, text, name),
        ValueType::Outside => text.push_str("-"),
    }
}

#[cycle(keys)]
#[tactic(auto, using(crate::proofs::Parts::two_more))]
fn push_inside(
    alloc: Global,
    text: &mut String,
    mark: &str,
    inner: &ValueType,
) -> Result<(), AllocError>
    ensures { OnOk result (string_bytes text.new ≡ string_bytes text.old ++ (mark.now ++ type_key (type_view inner.now))) }
{
    text.push_str(mark)?;
    push_type(alloc, text, inner)?;
    Ok(())
}

#[cycle(keys)]
fn push_array(
    alloc: Global,
    text: &mut String,
    inner: &ValueType,
    length: u64,
) -> Result<(), AllocError>
    ensures { OnOk result (string_bytes text.new ≡ string_bytes text.old ++ ((codes "#" ++ decimal length) ++ type_key (type_view inner.now))) }
{
    let key = length_key(alloc, length)?;
    push_inside(alloc, text, &key, inner)?;
    Ok(())
}

#[cycle(keys)]
#[tactic(auto, using(crate::proofs::Parts::three_more))]
fn push_between(
    alloc: Global,
    text: &mut String,
    first: &str,
    parts: &[ValueType],
    last: &str,
) -> Result<(), AllocError>
    ensures { OnOk result (string_bytes text.new ≡ string_bytes text.old ++ (first.now ++ (types_key (types (types_view parts.now)) ++ last.now))) }
{
    text.push_str(first)?;
    push_types(alloc, text, parts)?;
    text.push_str(last)?;
    Ok(())
}

#[cycle(keys)]
#[tactic(auto, using(crate::proofs::Parts::part_turn, crate::proofs::Parts::parts_end))]
fn push_types(alloc: Global, text: &mut String, parts: &[ValueType]) -> Result<(), AllocError>
    ensures { OnOk result (string_bytes text.new ≡ string_bytes text.old ++ types_key (types (types_view parts.now))) }
{
    for part in parts {
        push_type(alloc, text, part)?;
    }
    Ok(())
}

fn variant_key(alloc: Global, name: &str, number: u32) -> Result<String, AllocError>
    ensures { IfOk result (λ s. string_bytes s ≡ variant_key name.now number) }
{
    format!(in alloc; "|{number}<{name}>")
}

fn push_variant(alloc: Global, text: &mut String, name: &str, number: u32) -> Result<(), AllocError>
    ensures { OnOk result (string_bytes text.new ≡ string_bytes text.old ++ variant_key name.now number) }
{
    let key = variant_key(alloc, name, number)?;
    text.push_str(&key)?;
    Ok(())
}

fn push_place(alloc: Global, text: &mut String, place: Place<'_>) -> Result<(), AllocError>
    ensures { OnOk result (string_bytes text.new ≡ string_bytes text.old ++ spot_key (place_view place.entry)) }
{
    match place {
        Place::Of(ty) => push_type(alloc, text, ty),
        Place::Variant(name, number) => push_variant(alloc, text, name, number),
        Place::Nowhere => text.push_str("-"),
    }
}

#[tactic(auto, using(crate::proofs::Parts::two_more))]
fn push_next(
    alloc: Global,
    text: &mut String,
    mark: &str,
    place: Place<'_>,
) -> Result<(), AllocError>
    ensures { OnOk result (string_bytes text.new ≡ string_bytes text.old ++ (mark.now ++ spot_key (place_view place.entry))) }
{
    text.push_str(mark)?;
    push_place(alloc, text, place)?;
    Ok(())
}

/// The key of a pair. Pairs that are the same have one.
pub(crate) fn key_of(alloc: Global, pair: Pair<'_>) -> Result<String, AllocError>
    ensures { IfOk result (λ s. string_bytes s ≡ spots_key (pair_view pair.entry)) }
{
    let mut text = String::new(alloc);
    push_place(alloc, &mut text, pair.old)?;
    push_next(alloc, &mut text, "/", pair.new)?;
    Ok(text)
}
