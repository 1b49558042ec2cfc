//! Trees of rows without parts.
ghost use Rattle.std.specs.Prelude.{◌≡◌, ◌≤◌, ◌||◌, ◌∷◌, [], List, ℕ, false, Some, IfOk, IfErr, IsErrOf, OnOk, bytes_eq, map, option_map, if◌then◌else◌};
ghost use Rattle.std.specs.List.{list_any};
ghost use Rattle.std.specs.BTreeSet.{contains_text};
ghost use Rattle.schema_defs.specs.Faults.{Rises};
ghost use Rattle.json_value.specs.Value.{Value as ValueOf, text as text_value};
ghost use Rattle.schema_defs.specs.Layer.{if_given, texts_agree};
ghost use Rattle.json_value.specs.View.{kept_view};
ghost use Rattle.schema_types.specs.View.{texts_view};
ghost use Rattle.model_defs.specs.Model.{external_tag};
ghost use Rattle.model_defs.specs.Layer.{is_null};
ghost use Rattle.entry_defs.specs.Entry.{Variants, item, newtype_shape, text_entry, unit_contents, variant_then};
ghost use Rattle.enum_defs.specs.Words.{as_text as as_text_of};
ghost use Rattle.convert_defs.specs.Convert.{labeled};
ghost use Rattle.convert_defs.specs.Scalars.{kept_texts, listed_entry, never_entry, rule_of_texts, texts_in, unit_variants};
ghost use Rattle.row_findings.specs.Given.{given_values_view};
ghost use Rattle.row_findings.specs.View.{leaf_view};
ghost use Rattle.tree_types.specs.View.{tree_view, variants_then, variants_view, cases_of};
ghost use Rattle.tree_parts.specs.Lists.{kept_after, kept_one};

use crate::build::{as_option, atom, enum_tree, newtype};
use crate::lists::with_variant;
use crate::texts::meets_texts;
use row_findings::{GivenValues, Leaf, TagRow, ValueKind, any_of};
use schema_tree::{TextFault, Texts};
use schema_types::StringValidation;
use serde_json::Value;
use std::alloc::{AllocError, Global};
use std::collections::BTreeSet;
use tree_types::{Atom, ContentKind, FieldHead, Tree, TreeRule, VariantHead};

/// The entry that a schema has by itself, an item of that wanted name where it is one. Each listed text is asked about once. It fails
/// where memory runs out, or where the judge of texts failed.
#[tactic(auto, using(crate::proofs::Leaves::labeled_listed))]
pub fn leaf_tree<'d, T: Texts>(
    alloc: Global,
    name: &'d str,
    leaf: &Leaf<'d>,
    texts: &mut T,
) -> Result<Tree<'d>, TextFault>
    ensures answer { IfOk result (λ t. tree_view t ≡ labeled name.now (leaf_view (T.relations texts.old) leaf.now)) }
    ensures keeps { T.relations texts.new ≡ T.relations texts.old }
    ensures failed { IsErrOf result TextFault.Failed → Rises (T.faults texts.old) (T.faults texts.new) }
    ensures counts { T.faults texts.old ≤ T.faults texts.new }
{
    match leaf {
        Leaf::Bool => Ok(atom(Atom::Bool)),
        Leaf::Integer(kind) => Ok(atom(Atom::Integer(*kind))),
        Leaf::Text => Ok(atom(Atom::Text)),
        Leaf::Ruled {
            title: _,
            texts: rules,
        } => {
            let tree = ruled_tree(alloc, name, *rules)?;
            Ok(tree)
        }
        Leaf::Native(format) => Ok(atom(Atom::Native(*format))),
        Leaf::Any => Ok(atom(Atom::Any)),
        Leaf::Unit => Ok(atom(Atom::Unit)),
        Leaf::Listed {
            title: _,
            values,
            texts: rules,
        } => {
            let tree = listed_tree(alloc, name, *values, *rules, texts)?;
            Ok(tree)
        }
        Leaf::Constant {
            title: _,
            text,
            texts: rules,
        } => {
            let tree = constant_tree(alloc, name, *text, *rules, texts)?;
            Ok(tree)
        }
        Leaf::Never { title: _ } => Ok(enum_tree(name, false, TagRow::External, Vec::new(alloc))),
    }
}

fn ruled_tree<'d>(
    alloc: Global,
    name: &'d str,
    rules: &'d StringValidation,
) -> Result<Tree<'d>, TextFault>
    ensures answer { IfOk result (λ t. tree_view t ≡ item name.now (newtype_shape text_entry (Some (rule_of_texts (texts_view rules.now))))) }
    ensures memory { IfErr result (λ e. e ≡ TextFault.Memory) }
{
    match newtype(alloc, name, Some(TreeRule::Texts(rules)), atom(Atom::Text)) {
        Ok(tree) => Ok(tree),
        Err(_) => Err(TextFault::Memory),
    }
}

// The texts among the values, with null among them or not.
#[tactic(auto, using(crate::proofs::Leaves::listed_whole))]
fn listed_tree<'d, T: Texts>(
    alloc: Global,
    name: &'d str,
    values: GivenValues<'d>,
    rules: Option<&'d StringValidation>,
    texts: &mut T,
) -> Result<Tree<'d>, TextFault>
    ensures answer { IfOk result (λ t. tree_view t ≡ listed_entry (list_any is_null (given_values_view values.entry)) name.now (kept_texts (T.relations texts.old) (option_map (λ x. texts_view x.now) rules.entry) (given_values_view values.entry))) }
    ensures keeps { T.relations texts.new ≡ T.relations texts.old }
    ensures failed { IsErrOf result TextFault.Failed → Rises (T.faults texts.old) (T.faults texts.new) }
    ensures counts { T.faults texts.old ≤ T.faults texts.new }
{
    let kept = kept_listed(alloc, values.listed, rules, texts)?;
    let tree = texts_tree(alloc, name, any_of(values, ValueKind::Null), kept)?;
    Ok(tree)
}

// The one text.
fn constant_tree<'d, T: Texts>(
    alloc: Global,
    name: &'d str,
    text: &'d str,
    rules: Option<&'d StringValidation>,
    texts: &mut T,
) -> Result<Tree<'d>, TextFault>
    ensures answer { IfOk result (λ t. tree_view t ≡ listed_entry false name.now (kept_texts (T.relations texts.old) (option_map (λ x. texts_view x.now) rules.entry) (text_value text.now ∷ []))) }
    ensures keeps { T.relations texts.new ≡ T.relations texts.old }
    ensures failed { IsErrOf result TextFault.Failed → Rises (T.faults texts.old) (T.faults texts.new) }
    ensures counts { T.faults texts.old ≤ T.faults texts.new }
{
    let kept = kept_constant(alloc, text, rules, texts)?;
    let tree = texts_tree(alloc, name, false, kept)?;
    Ok(tree)
}

// The enum of these texts, an option of it beside null; of no texts null alone.
fn texts_tree<'d>(
    alloc: Global,
    name: &'d str,
    with_null: bool,
    kept: Vec<(VariantHead<'d>, Vec<(FieldHead<'d>, Option<Tree<'d>>)>)>,
) -> Result<Tree<'d>, TextFault>
    ensures answer { IfOk result (λ t. (ns : List (List ℕ)) → variants_view external_tag (cases_of kept.entry.items) ≡ unit_variants ns → tree_view t ≡ listed_entry with_null name.now ns) }
    ensures memory { IfErr result (λ e. e ≡ TextFault.Memory) }
{
    match built_texts(alloc, name, with_null, kept) {
        Ok(tree) => Ok(tree),
        Err(_) => Err(TextFault::Memory),
    }
}

#[tactic(auto, using(crate::proofs::Leaves::null_alone, crate::proofs::Leaves::texts_and_null, crate::proofs::Leaves::texts_alone))]
fn built_texts<'d>(
    alloc: Global,
    name: &'d str,
    with_null: bool,
    kept: Vec<(VariantHead<'d>, Vec<(FieldHead<'d>, Option<Tree<'d>>)>)>,
) -> Result<Tree<'d>, AllocError>
    ensures { IfOk result (λ t. (ns : List (List ℕ)) → variants_view external_tag (cases_of kept.entry.items) ≡ unit_variants ns → tree_view t ≡ listed_entry with_null name.now ns) }
{
    if !with_null {
        return Ok(enum_tree(name, false, TagRow::External, kept));
    }
    if kept.is_empty() {
        return Ok(atom(Atom::Unit));
    }
    let tree = as_option(alloc, enum_tree(name, false, TagRow::External, kept))?;
    Ok(tree)
}

// A variant of each text that is listed and meets the keywords, each once.
#[tactic(auto, using(crate::proofs::Leaves::kept_first, crate::proofs::Leaves::value_turn))]
fn kept_listed<'d, T: Texts>(
    alloc: Global,
    listed: &'d Vec<Value>,
    rules: Option<&'d StringValidation>,
    texts: &mut T,
) -> Result<Vec<(VariantHead<'d>, Vec<(FieldHead<'d>, Option<Tree<'d>>)>)>, TextFault>
    ensures answer { IfOk result (λ ws. variants_view external_tag (cases_of ws.items) ≡ unit_variants (kept_texts (T.relations texts.old) (option_map (λ x. texts_view x.now) rules.entry) (map kept_view listed.now.items))) }
    ensures keeps { T.relations texts.new ≡ T.relations texts.old }
    ensures failed { IsErrOf result TextFault.Failed → Rises (T.faults texts.old) (T.faults texts.new) }
    ensures counts { T.faults texts.old ≤ T.faults texts.new }
{
    let mut seen = BTreeSet::new(alloc);
    let mut kept = Vec::new(alloc);
    for value in listed {
        kept = with_value(alloc, kept, &mut seen, rules, value, texts)?;
    }
    Ok(kept)
}

/// The text, where the value is one. It takes no memory.
#[tactic(auto, using(crate::proofs::TextsSeen::text_seen))]
pub fn as_text(value: &Value) -> Option<&str>
    ensures { option_map (λ t. t.now) result ≡ as_text_of (kept_view value.now) }
{
    value.as_str()
}

#[tactic(auto, using(crate::proofs::Leaves::value_none, crate::proofs::Leaves::value_text))]
fn with_value<'d, T: Texts>(
    alloc: Global,
    kept: Vec<(VariantHead<'d>, Vec<(FieldHead<'d>, Option<Tree<'d>>)>)>,
    seen: &mut BTreeSet<String>,
    rules: Option<&'d StringValidation>,
    value: &'d Value,
    texts: &mut T,
) -> Result<Vec<(VariantHead<'d>, Vec<(FieldHead<'d>, Option<Tree<'d>>)>)>, TextFault>
    ensures answer { IfOk result (λ ws. (vs : List ValueOf) →
        variants_then external_tag (cases_of ws.items) (unit_variants (kept_after (λ s. if_given (texts_agree (T.relations texts.old) s) (option_map (λ x. texts_view x.now) rules.entry)) (contains_text seen.new) (texts_in vs)))
        ≡ variants_then external_tag (cases_of kept.entry.items) (unit_variants (kept_after (λ s. if_given (texts_agree (T.relations texts.old) s) (option_map (λ x. texts_view x.now) rules.entry)) (contains_text seen.old) (texts_in (kept_view value.now ∷ vs))))) }
    ensures keeps { T.relations texts.new ≡ T.relations texts.old }
    ensures failed { IsErrOf result TextFault.Failed → Rises (T.faults texts.old) (T.faults texts.new) }
    ensures counts { T.faults texts.old ≤ T.faults texts.new }
{
    match as_text(value) {
        Some(text) => {
            let longer = with_text(alloc, kept, seen, rules, text, texts)?;
            Ok(longer)
        }
        None => Ok(kept),
    }
}

// The variants, and one of the text, where it was not seen before and meets the keywords.
#[tactic(auto, using(crate::proofs::Leaves::seen_before, crate::proofs::Leaves::seen_first, crate::proofs::Leaves::seen_same))]
fn with_text<'d, T: Texts>(
    alloc: Global,
    kept: Vec<(VariantHead<'d>, Vec<(FieldHead<'d>, Option<Tree<'d>>)>)>,
    seen: &mut BTreeSet<String>,
    rules: Option<&'d StringValidation>,
    text: &'d str,
    texts: &mut T,
) -> Result<Vec<(VariantHead<'d>, Vec<(FieldHead<'d>, Option<Tree<'d>>)>)>, TextFault>
    ensures answer { IfOk result (λ ws. (more : Variants) → variants_then external_tag (cases_of ws.items) more
        ≡ variants_then external_tag (cases_of kept.entry.items) (kept_one (λ s. if_given (texts_agree (T.relations texts.old) s) (option_map (λ x. texts_view x.now) rules.entry)) (contains_text seen.old) text.now more)) }
    ensures seen { OnOk result ((n : List ℕ) → contains_text seen.new n ≡ (bytes_eq n text.now || contains_text seen.old n)) }
    ensures keeps { T.relations texts.new ≡ T.relations texts.old }
    ensures failed { IsErrOf result TextFault.Failed → Rises (T.faults texts.old) (T.faults texts.new) }
    ensures counts { T.faults texts.old ≤ T.faults texts.new }
{
    if seen.contains(text) {
        return Ok(kept);
    }
    take(alloc, seen, text)?;
    let meets = meets_texts(rules, text, texts)?;
    let longer = with_unit_if(alloc, kept, meets, text)?;
    Ok(longer)
}

// Takes a name. On an error the names may have it or not.
fn take(alloc: Global, names: &mut BTreeSet<String>, name: &str) -> Result<(), TextFault>
    ensures answer { OnOk result ((n : List ℕ) → contains_text names.new n ≡ (bytes_eq n name.now || contains_text names.old n)) }
    ensures memory { IfErr result (λ e. e ≡ TextFault.Memory) }
{
    match free_names::take(names, alloc, name) {
        Ok(()) => Ok(()),
        Err(_) => Err(TextFault::Memory),
    }
}

fn with_unit_if<'d>(
    alloc: Global,
    kept: Vec<(VariantHead<'d>, Vec<(FieldHead<'d>, Option<Tree<'d>>)>)>,
    meets: bool,
    text: &'d str,
) -> Result<Vec<(VariantHead<'d>, Vec<(FieldHead<'d>, Option<Tree<'d>>)>)>, TextFault>
    ensures answer { IfOk result (λ ws. (more : Variants) → variants_then external_tag (cases_of ws.items) more
        ≡ variants_then external_tag (cases_of kept.entry.items) (if meets then variant_then text.now text.now unit_contents more else more)) }
    ensures memory { IfErr result (λ e. e ≡ TextFault.Memory) }
{
    if !meets {
        return Ok(kept);
    }
    match with_variant(kept, text, ContentKind::Unit, Vec::new(alloc)) {
        Ok(longer) => Ok(longer),
        Err(_) => Err(TextFault::Memory),
    }
}

#[tactic(auto, using(crate::proofs::Leaves::constant_kept))]
fn kept_constant<'d, T: Texts>(
    alloc: Global,
    text: &'d str,
    rules: Option<&'d StringValidation>,
    texts: &mut T,
) -> Result<Vec<(VariantHead<'d>, Vec<(FieldHead<'d>, Option<Tree<'d>>)>)>, TextFault>
    ensures answer { IfOk result (λ ws. variants_view external_tag (cases_of ws.items) ≡ unit_variants (kept_texts (T.relations texts.old) (option_map (λ x. texts_view x.now) rules.entry) (text_value text.now ∷ []))) }
    ensures keeps { T.relations texts.new ≡ T.relations texts.old }
    ensures failed { IsErrOf result TextFault.Failed → Rises (T.faults texts.old) (T.faults texts.new) }
    ensures counts { T.faults texts.old ≤ T.faults texts.new }
{
    let meets = meets_texts(rules, text, texts)?;
    let kept = with_unit_if(alloc, Vec::new(alloc), meets, text)?;
    Ok(kept)
}
