//! What trees borrow from a document, copied for entries.
ghost use Rattle.std.specs.Prelude.{◌≡◌, [], ◌∷◌, ◌++◌, IfOk, OnOk, map, option_map, string_bytes};
ghost use Rattle.json_value.specs.View.{kept_view};
ghost use Rattle.schema_types.specs.View.{properties_view};
ghost use Rattle.schema_tree.specs.Conversions.{rule_view as rule_seen};
ghost use Rattle.model_defs.specs.Layer.{is_null};
ghost use Rattle.naming_defs.specs.Names.{name_by};
ghost use Rattle.convert_defs.specs.Scalars.{non_null};
ghost use Rattle.convert_defs.specs.Owners.{pattern_names};
ghost use Rattle.entry_types.specs.View.{tag_view as tag_seen, state_view as state_seen};
ghost use Rattle.row_findings.specs.Given.{given_values_view};
ghost use Rattle.row_findings.specs.View.{tag_view, state_view};
ghost use Rattle.tree_types.specs.View.{label_view, rule_view};

use entry_space::State;
use row_findings::{FieldState, GivenValues, TagRow};
use schema_tree::Rule;
use schema_types::{Schema, copy_list_of_texts, copy_list_of_values};
use serde_json::Value;
use std::alloc::{AllocError, Global};
use std::collections::BTreeMap;
use tag_kinds::TagType;
use tree_types::{Label, TreeRule};

/// The name that is given, or else the wanted one.
pub(crate) fn label_text<'t>(label: &'t Label<'_>) -> &'t str
    ensures { result.now ≡ label_view label.now }
{
    match &label.given {
        Some(given) => given.as_str(),
        None => label.wanted,
    }
}

/// The name of a variant in JSON.
pub(crate) fn variant_text<'t>(tag: &TagRow<'_>, label: &'t Label<'_>) -> &'t str
    ensures { result.now ≡ name_by (tag_view tag.now) (label_view label.now) label.now.wanted.now }
{
    match tag {
        TagRow::External => label.wanted,
        TagRow::Internal(_) => label.wanted,
        TagRow::Adjacent(_, _) => label.wanted,
        TagRow::Untagged => label_text(label),
    }
}

pub(crate) fn copy_tag(alloc: Global, tag: &TagRow<'_>) -> Result<TagType, AllocError>
    ensures { IfOk result (λ t. tag_seen t ≡ tag_view tag.now) }
{
    match tag {
        TagRow::External => Ok(TagType::External),
        TagRow::Internal(tag) => Ok(TagType::Internal {
            tag: String::from_str(alloc, tag)?,
        }),
        TagRow::Adjacent(tag, content) => Ok(TagType::Adjacent {
            tag: String::from_str(alloc, tag)?,
            content: String::from_str(alloc, content)?,
        }),
        TagRow::Untagged => Ok(TagType::None),
    }
}

pub(crate) fn copy_state(state: &FieldState<'_>) -> Result<State, AllocError>
    ensures { IfOk result (λ s. state_seen s ≡ state_view state.now) }
{
    match state {
        FieldState::Required => Ok(State::Required),
        FieldState::Optional => Ok(State::Optional),
        FieldState::Stated(value) => {
            let value: &Value = value;
            Ok(State::Stated(value.clone()?))
        }
    }
}

#[tactic(auto, using(crate::proofs::Copied::null_seen))]
fn is_null(value: &Value) -> bool
    ensures { result ≡ is_null (kept_view value.now) }
{
    value.is_null()
}

#[tactic(auto, using(crate::proofs::Copied::null_dropped, crate::proofs::Copied::other_kept))]
fn push_non_null(copies: &mut Vec<Value>, value: &Value) -> Result<(), AllocError>
    ensures { OnOk result (map kept_view copies.new.items ≡ map kept_view copies.old.items ++ non_null (kept_view value.now ∷ [])) }
{
    if is_null(value) {
        return Ok(());
    }
    copies.push(value.clone()?)?;
    Ok(())
}

// The values that aren't null.
#[tactic(auto, using(crate::proofs::Copied::value_turn, crate::proofs::Copied::value_end))]
fn copy_non_nulls(alloc: Global, from: &Vec<Value>) -> Result<Vec<Value>, AllocError>
    ensures { IfOk result (λ v. map kept_view v.items ≡ non_null (map kept_view from.now.items)) }
{
    let mut copies = Vec::new(alloc);
    for value in from {
        push_non_null(&mut copies, value)?;
    }
    Ok(copies)
}

#[tactic(auto, using(crate::proofs::Copied::values_less, crate::proofs::Copied::values_whole))]
fn copy_values(alloc: Global, values: &GivenValues<'_>) -> Result<Vec<Value>, AllocError>
    ensures { IfOk result (λ v. map kept_view v.items ≡ given_values_view values.now) }
{
    if values.less_nulls {
        let copies = copy_non_nulls(alloc, values.listed)?;
        return Ok(copies);
    }
    let copies = copy_list_of_values(alloc, values.listed)?;
    Ok(copies)
}

// The patterns that stand for names.
fn copy_patterns(
    alloc: Global,
    patterns: &BTreeMap<String, Schema>,
) -> Result<Vec<String>, AllocError>
    ensures { IfOk result (λ v. map string_bytes v.items ≡ pattern_names (properties_view patterns.now.entries)) }
{
    let mut copies = Vec::new(alloc);
    for (name, _) in patterns.iter() {
        let copy = String::from_str(alloc, name)?;
        copies.push(copy)?;
    }
    Ok(copies)
}

fn copy_rule(alloc: Global, rule: &TreeRule<'_>) -> Result<Rule, AllocError>
    ensures { IfOk result (λ r. rule_seen r ≡ rule_view rule.now) }
{
    match rule {
        TreeRule::Texts(texts) => Ok(Rule::Text {
            least: texts.min_length,
            most: texts.max_length,
            all: copy_list_of_texts(alloc, &texts.patterns)?,
            any: Vec::new(alloc),
        }),
        TreeRule::Keys(patterns) => Ok(Rule::Text {
            least: None,
            most: None,
            all: Vec::new(alloc),
            any: copy_patterns(alloc, patterns)?,
        }),
        TreeRule::Allow(values) => Ok(Rule::Allow(copy_values(alloc, values)?)),
        TreeRule::Deny(values) => Ok(Rule::Deny(copy_values(alloc, values)?)),
    }
}

pub(crate) fn copy_rules(
    alloc: Global,
    rule: &Option<TreeRule<'_>>,
) -> Result<Option<Rule>, AllocError>
    ensures { IfOk result (λ r. option_map rule_seen r ≡ option_map rule_view rule.now) }
{
    match rule {
        Some(rule) => Ok(Some(copy_rule(alloc, rule)?)),
        None => Ok(None),
    }
}
