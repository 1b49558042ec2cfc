//! The parts of trees.
ghost use Rattle.std.specs.Prelude.{◌≡◌, ◌&&◌, Option, Some, drop, option_map};
ghost use Rattle.serde_json.specs.View.{members_view};
ghost use Rattle.json_value.specs.View.{members_of, kept_view};
ghost use Rattle.entry_defs.specs.Layer.{is_field as is_field_of};
ghost use Rattle.tree_types.specs.declared.tree.Tree.{Tree};
ghost use Rattle.default_reading.specs.Seen.{case_named, case_of_text, first_tree, front_tree, is_unit_case, listed, or_else, rest_tree as rest_tree_of, tagged_case};
ghost use Rattle.default_reading.specs.Steps.{has_others as has_others_of, is_other as is_other_of};

use crate::members::{is_passed, member};
use crate::owners::text_of;
use listed_reading::is_unit;
use serde_json::Value;
use serde_json::value::Map;
use tree_types::{ContentKind, FieldHead, Label, Tree, VariantHead};

/// The tree of what keeps the members that no field names.
pub fn rest_tree<'t, 'd>(rest: &'t Option<(Label<'d>, Box<Tree<'d>>)>) -> Option<&'t Tree<'d>>
    ensures { option_map (λ x. x.now) result ≡ rest_tree_of rest.now }
{
    match rest {
        Some((_, tree)) => Some(tree),
        None => None,
    }
}

/// The tree of the first part.
pub fn front_part<'t, 'd>(parts: &'t [(FieldHead<'d>, Option<Tree<'d>>)]) -> Option<&'t Tree<'d>>
    ensures { option_map (λ x. x.now) result ≡ front_tree parts.now }
{
    match parts.first() {
        Some(part) => part.1.as_ref(),
        None => None,
    }
}

/// The tree of the part at the place, which is that of the next one that has one.
#[tactic(auto, using(crate::proofs::Turns::found_here, crate::proofs::Turns::found_later, crate::proofs::Turns::found_none))]
pub fn tree_from<'t, 'd>(
    parts: &'t [(FieldHead<'d>, Option<Tree<'d>>)],
    place: usize,
) -> Option<&'t Tree<'d>>
    ensures { option_map (λ x. x.now) result ≡ first_tree (drop place parts.now) }
{
    for at in place..parts.len() {
        if let Some(tree) = &parts[at].1 {
            return Some(tree);
        }
    }
    None
}

/// The same, where after all parts stands the rest.
pub fn field_tree<'t, 'd>(
    fields: &'t [(FieldHead<'d>, Option<Tree<'d>>)],
    place: usize,
    rest: Option<&'t Tree<'d>>,
) -> Option<&'t Tree<'d>>
    ensures { option_map (λ x. x.now) result ≡ or_else (first_tree (drop place fields.now)) (option_map (λ x. x.now) rest.entry) }
{
    match tree_from(fields, place) {
        Some(tree) => Some(tree),
        None => rest,
    }
}

#[tactic(auto, using(crate::proofs::Turns::field_here, crate::proofs::Turns::field_later, crate::proofs::Turns::field_none))]
fn is_field<'d>(fields: &[(FieldHead<'d>, Option<Tree<'d>>)], name: &str) -> bool
    ensures { (o : Option Tree) → result ≡ is_field_of (listed fields.now o) name.now }
{
    for field in fields {
        if field.0.label.wanted == name {
            return true;
        }
    }
    false
}

/// Whether no field has the name, and it isn't passed over.
pub fn is_other<'d>(
    passed: Option<&str>,
    fields: &[(FieldHead<'d>, Option<Tree<'d>>)],
    name: &str,
) -> bool
    ensures { (o : Option Tree) → result ≡ is_other_of (option_map (λ p. p.now) passed.entry) (listed fields.now o) name.now }
{
    if is_passed(passed, name) {
        return false;
    }
    !is_field(fields, name)
}

fn has_others<'d>(
    passed: Option<&str>,
    fields: &[(FieldHead<'d>, Option<Tree<'d>>)],
    members: &Map<String, Value>,
) -> bool
    ensures { (o : Option Tree) → result ≡ has_others_of (option_map (λ p. p.now) passed.entry) (listed fields.now o) (members_of (members_view members.now.entries)) }
{
    for (name, _) in members.iter() {
        if is_other(passed, fields, name) {
            return true;
        }
    }
    false
}

/// Whether what is closed has a member that no field names, and that isn't passed over.
pub fn has_unnamed<'d>(
    closed: bool,
    passed: Option<&str>,
    fields: &[(FieldHead<'d>, Option<Tree<'d>>)],
    members: &Map<String, Value>,
) -> bool
    ensures { (o : Option Tree) → result ≡ (closed && has_others_of (option_map (λ p. p.now) passed.entry) (listed fields.now o) (members_of (members_view members.now.entries))) }
{
    if !closed {
        return false;
    }
    has_others(passed, fields, members)
}

/// The first variant of that name.
pub fn variant_named<'t, 'd>(
    variants: &'t [(VariantHead<'d>, Vec<(FieldHead<'d>, Option<Tree<'d>>)>)],
    name: &str,
) -> Option<&'t (VariantHead<'d>, Vec<(FieldHead<'d>, Option<Tree<'d>>)>)>
    ensures { option_map (λ w. w.now) result ≡ case_named name.now variants.now }
{
    for variant in variants {
        if name == variant.0.label.wanted {
            return Some(variant);
        }
    }
    None
}

/// Whether the first variant of that name holds nothing.
pub fn names_unit<'d>(
    variants: &[(VariantHead<'d>, Vec<(FieldHead<'d>, Option<Tree<'d>>)>)],
    name: &str,
) -> bool
    ensures { result ≡ is_unit_case (case_named name.now variants.now) }
{
    match variant_named(variants, name) {
        Some(variant) => is_unit(variant.0.kind),
        None => false,
    }
}

fn named_by<'t, 'd>(
    value: &Value,
    variants: &'t [(VariantHead<'d>, Vec<(FieldHead<'d>, Option<Tree<'d>>)>)],
) -> Option<&'t (VariantHead<'d>, Vec<(FieldHead<'d>, Option<Tree<'d>>)>)>
    ensures { option_map (λ w. w.now) result ≡ case_of_text variants.now (Some (kept_view value.now)) }
{
    match text_of(value) {
        Some(name) => variant_named(variants, name),
        None => None,
    }
}

/// The variant that the member of the tag names.
pub fn tagged<'t, 'd>(
    tag: &str,
    variants: &'t [(VariantHead<'d>, Vec<(FieldHead<'d>, Option<Tree<'d>>)>)],
    members: &Map<String, Value>,
) -> Option<&'t (VariantHead<'d>, Vec<(FieldHead<'d>, Option<Tree<'d>>)>)>
    ensures { option_map (λ w. w.now) result ≡ tagged_case tag.now variants.now (members_of (members_view members.now.entries)) }
{
    match member(members, tag) {
        Some(value) => named_by(value, variants),
        None => None,
    }
}
