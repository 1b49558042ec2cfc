//! Names among properties, and among those that are required.
ghost use Rattle.std.specs.Prelude.{◌≡◌, ◌&&◌, not, IfOk, OnOk, ◌++◌, map, string_bytes};
ghost use Rattle.std.specs.List.{list_any};
ghost use Rattle.std.specs.BTreeSet.{keys};
ghost use Rattle.schema_defs.specs.Layer.{is_given, property_at};
ghost use Rattle.schema_types.specs.View.{properties_view};
ghost use Rattle.enum_defs.specs.Words.{is_name, names_of};
ghost use Rattle.merge_defs.specs.Objects.{all_names};
ghost use Rattle.merge_members.specs.Plans.{seen_schema};

use merge_leaves::{push_names, rising_names};
use schema_types::Schema;
use std::alloc::{AllocError, Global};
use std::collections::{BTreeMap, BTreeSet};

/// The property of a name.
pub fn property<'s>(properties: &'s BTreeMap<String, Schema>, name: &str) -> Option<&'s Schema>
    ensures { seen_schema result ≡ property_at name.now (properties_view properties.now.entries) }
{
    properties.get(name)
}

/// Whether there is a property of the name.
pub(crate) fn has_property(properties: &BTreeMap<String, Schema>, name: &str) -> bool
    ensures { result ≡ is_given (property_at name.now (properties_view properties.now.entries)) }
{
    properties.contains_key(name)
}

/// Whether the name is one of those.
pub fn is_among(names: &BTreeSet<String>, name: &str) -> bool
    ensures { result ≡ is_name name.now (map string_bytes (keys names.now)) }
{
    names.contains(name)
}

fn is_there_and_not_among(
    properties: &BTreeMap<String, Schema>,
    names: &BTreeSet<String>,
    name: &str,
) -> bool
    ensures { result ≡ (is_given (property_at name.now (properties_view properties.now.entries)) && not (is_name name.now (map string_bytes (keys names.now)))) }
{
    has_property(properties, name) && !is_among(names, name)
}

/// Whether one of the names is a property, and none of the others.
pub(crate) fn needs_more(
    needed: &BTreeSet<String>,
    properties: &BTreeMap<String, Schema>,
    others: &BTreeSet<String>,
) -> bool
    ensures { result ≡ list_any (λ n. is_given (property_at n (properties_view properties.now.entries)) && not (is_name n (map string_bytes (keys others.now)))) (map string_bytes (keys needed.now)) }
{
    for name in needed.iter() {
        if is_there_and_not_among(properties, others, name.as_str()) {
            return true;
        }
    }
    false
}

fn is_neither(properties: &BTreeMap<String, Schema>, names: &BTreeSet<String>, name: &str) -> bool
    ensures { result ≡ (not (is_given (property_at name.now (properties_view properties.now.entries))) && not (is_name name.now (map string_bytes (keys names.now)))) }
{
    !has_property(properties, name) && !is_among(names, name)
}

/// Whether one of the properties is none of the others, and its name none of the names.
pub(crate) fn has_more(
    properties: &BTreeMap<String, Schema>,
    others: &BTreeMap<String, Schema>,
    names: &BTreeSet<String>,
) -> bool
    ensures { result ≡ list_any (λ n. not (is_given (property_at n (properties_view others.now.entries))) && not (is_name n (map string_bytes (keys names.now)))) (names_of (properties_view properties.now.entries)) }
{
    for (name, _) in properties.iter() {
        if is_neither(others, names, name.as_str()) {
            return true;
        }
    }
    false
}

/// Whether one of the properties is none of the others.
pub(crate) fn has_unnamed(
    properties: &BTreeMap<String, Schema>,
    others: &BTreeMap<String, Schema>,
) -> bool
    ensures { result ≡ list_any (λ n. not (is_given (property_at n (properties_view others.now.entries)))) (names_of (properties_view properties.now.entries)) }
{
    for (name, _) in properties.iter() {
        if !has_property(others, name.as_str()) {
            return true;
        }
    }
    false
}

/// The names of properties, in their order, behind those before them.
pub fn push_properties<'n>(
    names: &mut Vec<&'n str>,
    properties: &'n BTreeMap<String, Schema>,
) -> Result<(), AllocError>
    ensures { OnOk result (map (λ n. n.now) names.new.items ≡ map (λ n. n.now) names.old.items ++ names_of (properties_view properties.now.entries)) }
{
    for (name, _) in properties.iter() {
        names.push(name.as_str())?;
    }
    Ok(())
}

/// The names of the properties of both sides, rising.
#[tactic(auto, using(merge_leaves::proofs::Rising::all_of_two))]
pub(crate) fn names_of_both(
    alloc: Global,
    first: &BTreeMap<String, Schema>,
    second: &BTreeMap<String, Schema>,
) -> Result<BTreeSet<String>, AllocError>
    ensures { IfOk result (λ found. map string_bytes (keys found) ≡ all_names (names_of (properties_view first.now.entries)) (names_of (properties_view second.now.entries))) }
{
    let mut names = Vec::new(alloc);
    push_properties(&mut names, first)?;
    push_properties(&mut names, second)?;
    let found = rising_names(alloc, names)?;
    Ok(found)
}
