//! The rows of listed values, of constants and of booleans.
ghost use Rattle.std.specs.Prelude.{◌≡◌, false, [], ◌∷◌, Some, IfOk, map, option_map, if◌then◌else◌};
ghost use Rattle.std.specs.List.{list_any, list_all};
ghost use Rattle.json_value.specs.Value.{text as text_value};
ghost use Rattle.json_value.specs.View.{kept_view};
ghost use Rattle.schema_defs.specs.Texts.{Relations};
ghost use Rattle.convert_defs.specs.Standing.{alone};
ghost use Rattle.model_defs.specs.Layer.{is_null as null_value};
ghost use Rattle.convert_defs.specs.Scalars.{enumerated as enumerated_of, boolean_finding as boolean_finding_of, lists_both as lists_both_of, listed_alone as listed_alone_of, without_nulls as without_nulls_of, less_null as less_null_of, never_entry, wanted_of};
ghost use Rattle.entry_defs.specs.Entry.{unit_entry};
ghost use Rattle.convert_defs.specs.Table.{constant_finding as constant_finding_of, constant_list};
ghost use Rattle.row_findings.specs.Given.{given_values_view, plain_view, keywords_view};
ghost use Rattle.row_findings.specs.View.{leaf_view, finding_view};
ghost use Rattle.row_findings.specs.Kinds.{is_text_or_null, passes, of_one_kind};

use crate::texts::given_format;
use row_findings::{
    Cause, Finding, GivenValues, Keywords, Leaf, NoteKind, Row, RowRule, ValueKind, Way, all_of,
    any_of, is_left_out, is_null, lists_boolean, lists_value, made, no_keyword, noted, of_type,
    plainly, refused, with_note,
};
use schema_types::InstanceType;
use serde_json::Value;
use std::alloc::{AllocError, Global};

/// Listed texts, with null among them or not; any other value is refused.
pub fn enumerated<'d>(
    alloc: Global,
    keywords: &Keywords<'d>,
    values: GivenValues<'d>,
) -> Result<Finding<'d>, AllocError>
    ensures { IfOk result (λ f. (r : Relations) → finding_view r f ≡ enumerated_of r (plain_view keywords.now) (given_values_view values.entry)) }
{
    if !are_texts_or_null(values) {
        return Ok(refused(alloc, Cause::BadValue));
    }
    let nulls = with_note(
        Vec::new(alloc),
        any_of(values, ValueKind::Null),
        Way::Widened,
        NoteKind::Null,
    )?;
    let notes = with_note(
        nulls,
        given_format(keywords).is_some(),
        Way::Widened,
        NoteKind::String,
    )?;
    Ok(noted(
        alloc,
        notes,
        Row::Leaf(Leaf::Listed {
            title: keywords.title,
            values,
            texts: keywords.texts,
        }),
    ))
}

#[tactic(auto, using(row_findings::proofs::KindsSeen::text_or_null_seen))]
fn is_text_or_null_value(value: &Value) -> bool
    ensures { result ≡ is_text_or_null (kept_view value.now) }
{
    value.is_string() || value.is_null()
}

fn passes_as_text(less_nulls: bool, value: &Value) -> bool
    ensures { result ≡ passes less_nulls is_text_or_null (kept_view value.now) }
{
    is_left_out(less_nulls, value) || is_text_or_null_value(value)
}

fn are_texts_or_null(values: GivenValues<'_>) -> bool
    ensures { result ≡ list_all is_text_or_null (given_values_view values.entry) }
{
    all_texts_or_null(values.listed, values.less_nulls)
}

fn all_texts_or_null(listed: &Vec<Value>, less_nulls: bool) -> bool
    ensures { result ≡ list_all (passes less_nulls is_text_or_null) (map kept_view listed.now.items) }
{
    let mut left = listed.as_slice();
    while let Some((value, rest)) = left.split_first() {
        if !passes_as_text(less_nulls, value) {
            return false;
        }
        left = rest;
    }
    true
}

/// Booleans, whether they are listed or not.
pub fn boolean_finding<'d>(
    alloc: Global,
    values: Option<GivenValues<'d>>,
) -> Result<Finding<'d>, AllocError>
    ensures { IfOk result (λ f. (r : Relations) → finding_view r f ≡ boolean_finding_of (option_map given_values_view values.entry)) }
{
    match values {
        None => Ok(plainly(alloc, Row::Leaf(Leaf::Bool))),
        Some(values) => {
            let notes = with_note(
                Vec::new(alloc),
                !lists_both(values),
                Way::Widened,
                NoteKind::Boolean,
            )?;
            Ok(noted(alloc, notes, Row::Leaf(Leaf::Bool)))
        }
    }
}

fn lists_both(values: GivenValues<'_>) -> bool
    ensures { result ≡ lists_both_of (given_values_view values.entry) }
{
    lists_boolean(values, true) && lists_boolean(values, false)
}

/// Values that are listed without a type.
pub fn listed_alone<'d>(
    alloc: Global,
    keywords: &Keywords<'d>,
    values: GivenValues<'d>,
) -> Result<Finding<'d>, AllocError>
    ensures { IfOk result (λ f. (r : Relations) → finding_view r f ≡ listed_alone_of (plain_view keywords.now) (given_values_view values.entry)) }
{
    if any_of(values, ValueKind::Owner) {
        return Ok(refused(alloc, Cause::NestedEnum));
    }
    let has_null = any_of(values, ValueKind::Null);
    if all_of(values, ValueKind::Null) {
        return Ok(plainly(alloc, Row::Leaf(null_or_never(has_null, keywords))));
    }
    if has_null {
        return Ok(plainly(
            alloc,
            Row::Option(made(alloc, without_nulls(keywords, values))?),
        ));
    }
    let finding = listed_of_one_kind(alloc, keywords, values)?;
    Ok(finding)
}

fn null_or_never<'d>(has_null: bool, keywords: &Keywords<'d>) -> Leaf<'d>
    ensures { (r : Relations) → leaf_view r result ≡ (if has_null then unit_entry else never_entry (wanted_of (plain_view keywords.now))) }
{
    if has_null {
        Leaf::Unit
    } else {
        Leaf::Never {
            title: keywords.title,
        }
    }
}

fn without_nulls<'d>(keywords: &Keywords<'d>, values: GivenValues<'d>) -> Keywords<'d>
    ensures { keywords_view result ≡ alone (without_nulls_of (given_values_view values.entry) (plain_view keywords.now)) }
{
    let written = *keywords;
    Keywords {
        enum_values: Some(GivenValues {
            listed: values.listed,
            less_nulls: true,
        }),
        default: less_null(keywords.default),
        subschemas: None,
        lists: None,
        members: None,
        ..written
    }
}

/// A default other than null. It takes no memory.
pub fn less_null(default: Option<&Value>) -> Option<&Value>
    ensures { option_map (λ v. kept_view v.now) result ≡ less_null_of (option_map (λ v. kept_view v.now) default.entry) }
{
    match default {
        Some(value) => { if is_null(value) { None } else { Some(value) } }
        None => None,
    }
}

// Where no null and no owner is listed, and something is.
#[tactic(auto, using(row_findings::proofs::LessNulls::plain_texts))]
fn listed_of_one_kind<'d>(
    alloc: Global,
    keywords: &Keywords<'d>,
    values: GivenValues<'d>,
) -> Result<Finding<'d>, AllocError>
    requires { list_any null_value (given_values_view values) ≡ false }
    ensures { IfOk result (λ f. (r : Relations) → finding_view r f ≡ of_one_kind (plain_view keywords.now) (given_values_view values.entry)) }
{
    if all_of(values, ValueKind::Text) {
        return Ok(plainly(
            alloc,
            Row::Leaf(Leaf::Listed {
                title: keywords.title,
                values,
                texts: None,
            }),
        ));
    }
    if all_of(values, ValueKind::Boolean) {
        let finding = boolean_finding(alloc, Some(values))?;
        return Ok(finding);
    }
    if all_of(values, ValueKind::Number) {
        let whole = made(alloc, of_type(&no_keyword(), InstanceType::Integer))?;
        return Ok(plainly(alloc, Row::Ruled(whole, RowRule::Allow(values))));
    }
    Ok(refused(alloc, Cause::MixedEnum))
}

/// A constant text, as a list of one; nothing where `enum` lists others alone.
#[tactic(auto, using(crate::proofs::Constants::constant_kept, crate::proofs::Constants::constant_excluded))]
pub fn constant_finding<'d>(
    alloc: Global,
    keywords: &Keywords<'d>,
    constant: &'d Value,
    text: &'d str,
) -> Result<Finding<'d>, AllocError>
    requires { kept_view constant.now ≡ text_value text.now }
    ensures { IfOk result (λ f. (r : Relations) → finding_view r f ≡ constant_finding_of r (plain_view keywords.now) (Some text.now)) }
{
    let notes = with_note(
        Vec::new(alloc),
        given_format(keywords).is_some(),
        Way::Widened,
        NoteKind::String,
    )?;
    if !is_not_excluded(keywords, constant, text) {
        return Ok(noted(
            alloc,
            notes,
            Row::Leaf(Leaf::Never {
                title: keywords.title,
            }),
        ));
    }
    Ok(noted(
        alloc,
        notes,
        Row::Leaf(Leaf::Constant {
            title: keywords.title,
            text,
            texts: keywords.texts,
        }),
    ))
}

// Whether the text of the constant is listed, or no list stands.
fn is_not_excluded(keywords: &Keywords<'_>, constant: &Value, text: &str) -> bool
    requires { kept_view constant.now ≡ text_value text.now }
    ensures { constant_list text.now (plain_view keywords.now).enum_values ≡ (if result then text_value text.now ∷ [] else []) }
{
    match keywords.enum_values {
        Some(values) => lists_value(values, constant),
        None => true,
    }
}
