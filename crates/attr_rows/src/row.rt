//! What the attributes do, by their forms: what stands behind the path is read, and what is left of it answered; none where
//! reading of the attribute ends.
ghost use Rattle.std.specs.Prelude.{◌≡◌, ◌++◌, ◌∷◌, ◌||◌, [], Some, None, true, IfOk, OnOk, option_map, map, codes, cond, take};
ghost use Rattle.token_trees.specs.View.{trees, name_view};
ghost use Rattle.token_trees.specs.Token.{span_of_all, site};
ghost use Rattle.syntax_trees.specs.Metas.{sign_next};
ghost use Rattle.syntax_trees.specs.View.{ty, path_view, expr_path_view};
ghost use Rattle.syntax_parsers.specs.Whole.{type_of, path_of, expr_path_of};
ghost use Rattle.attr_parts.specs.Diagnostics.{kind_view, bad_type, unknown_rule, rename_fields_place, untagged_place};
ghost use Rattle.attr_parts.specs.Names.{attr_name};
ghost use Rattle.attr_defs.specs.Acts.{sets, offers, adds, is_flag, is_name, is_plain, is_ty, is_path, is_function};
ghost use Rattle.attr_defs.specs.Halves.{both_step, pair_step, many_told, only};
ghost use Rattle.attr_parts.specs.Rules.{rule_of};
ghost use Rattle.attr_defs.specs.Owners.{whole, written, read, told_at};
ghost use Rattle.attr_defs.specs.Rows.{set_maybe, from_to, seen, literal_name, is_enum, has_names, names_set, names_read, many_names, alias_added, rule_set, rules_set, text_set, text_step, remote_path, own_default_set, path_default_set, default_step, no_path, function_step, module_set, module_step};
ghost use Rattle.attr_defs.specs.Steps.{does};
ghost use Rattle.attr_defs.specs.Texts.{lexed, string_step, parsed, parsed_step};
ghost use Rattle.attr_acts.specs.Views.{acts_view, slot_view, text_view};
ghost use Rattle.attr_acts.specs.HalfViews.{given_view, both_view, pair_view};
ghost use Rattle.attr_rows.specs.OwnerView.{owner_view};
ghost use Rattle.attr_acts.specs.Does.{Does, followed};

use crate::owner::Owner;
use attr_acts::{
    Act, Both, Given, Pair, Slot, Text, Value, add, both_texts, function_step, is_sign_next, offer,
    only_text, path_step, set, string_step, tell, tell_more_texts, text_pair, type_step,
};
use attr_parts::{DiagKind, Name, RenameRule, SKIP_DESERIALIZING, SKIP_SERIALIZING};
use std::alloc::{AllocError, Global};
use syntax_trees::{ExprPath, Path, Ty};
use token_trees::{Span, Symbol, TokenTree, span_of_trees};

/// From the beginning of a meta's path to the last of the tokens that were read behind it.
pub fn span_to(path: &[TokenTree], tokens: &[TokenTree]) -> Span
    ensures { result ≡ from_to (trees path.now) (trees tokens.now) }
{
    let begin = span_of_trees(path);
    if tokens.is_empty() {
        return begin;
    }
    Span {
        file: begin.file,
        lo: begin.lo,
        hi: span_of_trees(tokens).hi,
    }
}

// What is read behind a path: a value, or a group.
fn seen(rest: &[TokenTree]) -> &[TokenTree]
    ensures { trees result.now ≡ seen (trees rest.now) }
{
    if is_sign_next('=', rest) {
        return rest;
    }
    first_of(rest)
}

// The first token, where there is one.
fn first_of(rest: &[TokenTree]) -> &[TokenTree]
    ensures { trees result.now ≡ take 1 (trees rest.now) }
{
    if rest.is_empty() {
        return rest;
    }
    let (first, _) = rest.split_at(1);
    first
}

// The text as a name.
fn literal_name(alloc: Global, text: Text<'_>) -> Result<Name, AllocError>
    ensures { IfOk result (λ n. attr_name n ≡ literal_name (text_view text.entry)) }
{
    Ok(Name {
        value: String::from_str(alloc, text.value)?,
        span: text.span,
    })
}

// A name that is there is set.
fn set_name(
    alloc: Global,
    acts: &mut Vec<Act>,
    slot: Slot,
    at: Span,
    string: Option<Text<'_>>,
) -> Result<(), AllocError>
    ensures { OnOk result (acts_view acts.new.items ≡ acts_view acts.old.items ++ set_maybe (slot_view slot) at (λ l. is_name (literal_name l)) (option_map text_view string.entry)) }
{
    match string {
        Some(text) => {
            let name = literal_name(alloc, text)?;
            set(acts, slot, at, Value::Name(name))
        }
        None => Ok(()),
    }
}

// Of each half a name.
fn set_names(
    alloc: Global,
    acts: &mut Vec<Act>,
    name: Symbol,
    at: Span,
    pair: &Pair<'_, Text<'_>>,
) -> Result<(), AllocError>
    ensures { OnOk result (acts_view acts.new.items ≡ acts_view acts.old.items ++ names_set name.0.now at (pair_view text_view pair.now)) }
{
    set_name(alloc, acts, Slot::written(name), at, pair.serialize)?;
    set_name(alloc, acts, Slot::read(name), at, pair.deserialize)
}

/// Two names, each of which is set.
#[tactic(auto, using(attr_acts::proofs::Does::does_then, attr_acts::proofs::Does::does_last, attr_acts::proofs::Does::does_acts))]
pub fn names<'a>(
    alloc: Global,
    acts: &mut Vec<Act>,
    name: Symbol,
    path: &'a [TokenTree],
    end: Span,
    rest: &'a [TokenTree],
) -> Result<Option<&'a [TokenTree]>, AllocError>
    ensures { IfOk result (λ o. Does (acts_view acts.old.items) (acts_view acts.new.items) (option_map (λ t. trees t.now) o) (followed (pair_step name.0.now (string_step name.0.now) (trees path.now) end (trees rest.now)) (λ t. does (names_set name.0.now (span_of_all (trees path.now)) t) t.left))) }
{
    let Some(pair) = text_pair(alloc, acts, name, path, end, rest)? else {
        return Ok(None);
    };
    set_names(alloc, acts, name, span_of_trees(path), &pair)?;
    Ok(Some(pair.left))
}

// A name that is read: it is the name where there was none before.
fn read_name(
    alloc: Global,
    acts: &mut Vec<Act>,
    name: Symbol,
    text: Text<'_>,
) -> Result<(), AllocError>
    ensures { OnOk result (acts_view acts.new.items ≡ acts_view acts.old.items ++ offers (read name.0.now) (is_name (literal_name (text_view text.entry))) ∷ adds (literal_name (text_view text.entry)) ∷ []) }
{
    let first = literal_name(alloc, text)?;
    offer(acts, Slot::read(name), Value::Name(first))?;
    let other = literal_name(alloc, text)?;
    add(acts, other)
}

// Names that are read: the first of all is the name, each is read.
fn read_names(
    alloc: Global,
    acts: &mut Vec<Act>,
    name: Symbol,
    texts: &[Given<Text<'_>>],
) -> Result<(), AllocError>
    ensures { OnOk result (acts_view acts.new.items ≡ acts_view acts.old.items ++ names_read name.0.now (map (given_view text_view) texts.now)) }
{
    for given in texts {
        read_name(alloc, acts, name, given.value)?;
    }
    Ok(())
}

// One name that is written, and many that are read.
fn set_many_names(
    alloc: Global,
    acts: &mut Vec<Act>,
    name: Symbol,
    at: Span,
    both: &Both<'_, Text<'_>>,
) -> Result<(), AllocError>
    ensures { OnOk result (acts_view acts.new.items ≡ acts_view acts.old.items ++ (many_told name.0.now (both_view text_view both.now).values.serialize ++ set_maybe (written name.0.now) at (λ l. is_name (literal_name l)) (only (both_view text_view both.now).values.serialize) ++ names_read name.0.now (both_view text_view both.now).values.deserialize)) }
{
    tell_more_texts(alloc, acts, name, &both.values.serialize)?;
    set_name(
        alloc,
        acts,
        Slot::written(name),
        at,
        only_text(&both.values.serialize),
    )?;
    read_names(alloc, acts, name, &both.values.deserialize)
}

/// Two names; of the second there may be many, all of which are read.
#[tactic(auto, using(attr_acts::proofs::Does::does_then, attr_acts::proofs::Does::does_last, attr_acts::proofs::Does::does_acts))]
pub fn many_names<'a>(
    alloc: Global,
    acts: &mut Vec<Act>,
    name: Symbol,
    path: &'a [TokenTree],
    end: Span,
    rest: &'a [TokenTree],
) -> Result<Option<&'a [TokenTree]>, AllocError>
    ensures { IfOk result (λ o. Does (acts_view acts.old.items) (acts_view acts.new.items) (option_map (λ t. trees t.now) o) (followed (both_step name.0.now (string_step name.0.now) (trees path.now) end (trees rest.now)) (many_names name.0.now (trees path.now)))) }
{
    let Some(both) = both_texts(alloc, acts, name, path, end, rest)? else {
        return Ok(None);
    };
    set_many_names(alloc, acts, name, span_of_trees(path), &both)?;
    Ok(Some(both.left))
}

// A name that is there is added.
fn add_name(alloc: Global, acts: &mut Vec<Act>, string: Option<Text<'_>>) -> Result<(), AllocError>
    ensures { OnOk result (acts_view acts.new.items ≡ acts_view acts.old.items ++ alias_added (option_map text_view string.entry)) }
{
    match string {
        Some(text) => add(acts, literal_name(alloc, text)?),
        None => Ok(()),
    }
}

/// One more name that is read.
#[tactic(auto, using(attr_acts::proofs::Does::does_then, attr_acts::proofs::Does::does_last, attr_acts::proofs::Does::does_acts))]
pub fn alias<'a>(
    alloc: Global,
    acts: &mut Vec<Act>,
    name: Symbol,
    end: Span,
    rest: &'a [TokenTree],
) -> Result<Option<&'a [TokenTree]>, AllocError>
    ensures { IfOk result (λ o. Does (acts_view acts.old.items) (acts_view acts.new.items) (option_map (λ t. trees t.now) o) (followed (string_step name.0.now name.0.now end (trees rest.now)) (λ l. does (alias_added l) []))) }
{
    let Some(string) = string_step(alloc, acts, name, name, end, rest)? else {
        return Ok(None);
    };
    add_name(alloc, acts, string)?;
    Ok(Some(&[]))
}

// A text that names no rule is told, unless it was told before.
fn tell_no_rule(
    alloc: Global,
    acts: &mut Vec<Act>,
    quiet: bool,
    text: Text<'_>,
) -> Result<(), AllocError>
    ensures { OnOk result (acts_view acts.new.items ≡ acts_view acts.old.items ++ cond quiet [] (told_at (unknown_rule text.entry.value.now) text.entry.span)) }
{
    if quiet {
        return Ok(());
    }
    let kind = DiagKind::UnknownRule(String::from_str(alloc, text.value)?);
    tell(acts, kind, text.span)
}

// The rule that the text names.
fn rule_by(text: Text<'_>) -> Option<RenameRule>
    ensures { result ≡ rule_of text.entry.value.now }
{
    match RenameRule::from_str(text.value) {
        Ok(rule) => Some(rule),
        Err(_) => None,
    }
}

// A rule that a text names is set.
fn set_rule_by(
    alloc: Global,
    acts: &mut Vec<Act>,
    slot: Slot,
    at: Span,
    quiet: bool,
    text: Text<'_>,
) -> Result<(), AllocError>
    ensures { OnOk result (acts_view acts.new.items ≡ acts_view acts.old.items ++ rule_set (slot_view slot) at quiet (Some (text_view text.entry))) }
{
    match rule_by(text) {
        Some(rule) => set(acts, slot, at, Value::Rule(rule)),
        None => tell_no_rule(alloc, acts, quiet, text),
    }
}

// A rule that is there is set.
fn set_rule(
    alloc: Global,
    acts: &mut Vec<Act>,
    slot: Slot,
    at: Span,
    quiet: bool,
    string: Option<Text<'_>>,
) -> Result<(), AllocError>
    ensures { OnOk result (acts_view acts.new.items ≡ acts_view acts.old.items ++ rule_set (slot_view slot) at quiet (option_map text_view string.entry)) }
{
    match string {
        Some(text) => set_rule_by(alloc, acts, slot, at, quiet, text),
        None => Ok(()),
    }
}

// Of each half a rule; a text for both that names none is told once.
fn set_rules(
    alloc: Global,
    acts: &mut Vec<Act>,
    name: Symbol,
    at: Span,
    once: bool,
    pair: &Pair<'_, Text<'_>>,
) -> Result<(), AllocError>
    ensures { OnOk result (acts_view acts.new.items ≡ acts_view acts.old.items ++ rules_set name.0.now at once (pair_view text_view pair.now)) }
{
    set_rule(alloc, acts, Slot::written(name), at, false, pair.serialize)?;
    set_rule(alloc, acts, Slot::read(name), at, once, pair.deserialize)
}

/// Two rules for names.
#[tactic(auto, using(attr_acts::proofs::Does::does_then, attr_acts::proofs::Does::does_last, attr_acts::proofs::Does::does_acts))]
pub fn rules<'a>(
    alloc: Global,
    acts: &mut Vec<Act>,
    name: Symbol,
    path: &'a [TokenTree],
    end: Span,
    rest: &'a [TokenTree],
) -> Result<Option<&'a [TokenTree]>, AllocError>
    ensures { IfOk result (λ o. Does (acts_view acts.old.items) (acts_view acts.new.items) (option_map (λ t. trees t.now) o) (followed (pair_step name.0.now (string_step name.0.now) (trees path.now) end (trees rest.now)) (λ t. does (rules_set name.0.now (span_of_all (trees path.now)) (sign_next 61 (trees rest.now)) t) t.left))) }
{
    let Some(pair) = text_pair(alloc, acts, name, path, end, rest)? else {
        return Ok(None);
    };
    let once = is_sign_next('=', rest);
    set_rules(alloc, acts, name, span_of_trees(path), once, &pair)?;
    Ok(Some(pair.left))
}

// Rules for the names of fields are set on an enum.
fn set_fields_rules(
    alloc: Global,
    acts: &mut Vec<Act>,
    owner: Owner<'_>,
    name: Symbol,
    path: &[TokenTree],
    rest: &[TokenTree],
    pair: &Pair<'_, Text<'_>>,
) -> Result<(), AllocError>
    ensures { OnOk result (acts_view acts.new.items ≡ acts_view acts.old.items ++ cond (is_enum (owner_view owner.entry)) (rules_set name.0.now (span_of_all (trees path.now)) (sign_next 61 (trees rest.now)) (pair_view text_view pair.now)) (told_at rename_fields_place (from_to (trees path.now) (seen (trees rest.now))))) }
{
    if owner.is_enum() {
        let once = is_sign_next('=', rest);
        return set_rules(alloc, acts, name, span_of_trees(path), once, pair);
    }
    tell(acts, DiagKind::RenameFieldsPlace, span_to(path, seen(rest)))
}

/// Two rules for the names of fields, on an enum.
#[tactic(auto, using(attr_acts::proofs::Does::does_then, attr_acts::proofs::Does::does_last, attr_acts::proofs::Does::does_acts))]
pub fn fields_rules<'a>(
    alloc: Global,
    acts: &mut Vec<Act>,
    owner: Owner<'_>,
    name: Symbol,
    path: &'a [TokenTree],
    end: Span,
    rest: &'a [TokenTree],
) -> Result<Option<&'a [TokenTree]>, AllocError>
    ensures { IfOk result (λ o. Does (acts_view acts.old.items) (acts_view acts.new.items) (option_map (λ t. trees t.now) o) (followed (pair_step name.0.now (string_step name.0.now) (trees path.now) end (trees rest.now)) (λ t. does (cond (is_enum (owner_view owner.entry)) (rules_set name.0.now (span_of_all (trees path.now)) (sign_next 61 (trees rest.now)) t) (told_at rename_fields_place (from_to (trees path.now) (seen (trees rest.now))))) t.left))) }
{
    let Some(pair) = text_pair(alloc, acts, name, path, end, rest)? else {
        return Ok(None);
    };
    set_fields_rules(alloc, acts, owner, name, path, rest, &pair)?;
    Ok(Some(pair.left))
}

/// Nothing; it is set.
#[tactic(auto, using(attr_acts::proofs::Does::does_acts))]
pub fn flag<'a>(
    acts: &mut Vec<Act>,
    name: Symbol,
    path: &'a [TokenTree],
    rest: &'a [TokenTree],
) -> Result<Option<&'a [TokenTree]>, AllocError>
    ensures { IfOk result (λ o. Does (acts_view acts.old.items) (acts_view acts.new.items) (option_map (λ t. trees t.now) o) (does (sets (whole name.0.now) (span_of_all (trees path.now)) is_flag ∷ []) (trees rest.now))) }
{
    set(acts, Slot::whole(name), span_of_trees(path), Value::Flag)?;
    Ok(Some(rest))
}

// It is set on an enum.
fn set_enum_flag(
    acts: &mut Vec<Act>,
    owner: Owner<'_>,
    name: Symbol,
    at: Span,
) -> Result<(), AllocError>
    ensures { OnOk result (acts_view acts.new.items ≡ acts_view acts.old.items ++ cond (is_enum (owner_view owner.entry)) (sets (whole name.0.now) at is_flag ∷ []) (told_at untagged_place at)) }
{
    if owner.is_enum() {
        return set(acts, Slot::whole(name), at, Value::Flag);
    }
    tell(acts, DiagKind::UntaggedPlace, at)
}

/// Nothing; it is set on an enum.
#[tactic(auto, using(attr_acts::proofs::Does::does_acts))]
pub fn enum_flag<'a>(
    acts: &mut Vec<Act>,
    owner: Owner<'_>,
    name: Symbol,
    path: &'a [TokenTree],
    rest: &'a [TokenTree],
) -> Result<Option<&'a [TokenTree]>, AllocError>
    ensures { IfOk result (λ o. Does (acts_view acts.old.items) (acts_view acts.new.items) (option_map (λ t. trees t.now) o) (does (cond (is_enum (owner_view owner.entry)) (sets (whole name.0.now) (span_of_all (trees path.now)) is_flag ∷ []) (told_at untagged_place (span_of_all (trees path.now)))) (trees rest.now))) }
{
    set_enum_flag(acts, owner, name, span_of_trees(path))?;
    Ok(Some(rest))
}

// What the name stands for is set.
fn set_flag(acts: &mut Vec<Act>, name: Symbol, at: Span) -> Result<(), AllocError>
    ensures { OnOk result (acts_view acts.new.items ≡ acts_view acts.old.items ++ sets (whole name.0.now) at is_flag ∷ []) }
{
    set(acts, Slot::whole(name), at, Value::Flag)
}

// Both halves of skipping are set.
fn set_skips(acts: &mut Vec<Act>, at: Span) -> Result<(), AllocError>
    ensures { OnOk result (acts_view acts.new.items ≡ acts_view acts.old.items ++ sets (whole (codes "skip_serializing")) at is_flag ∷ sets (whole (codes "skip_deserializing")) at is_flag ∷ []) }
{
    set_flag(acts, SKIP_SERIALIZING, at)?;
    set_flag(acts, SKIP_DESERIALIZING, at)?;
    Ok(())
}

/// Nothing; both halves of skipping are set.
#[tactic(auto, using(attr_acts::proofs::Does::does_acts))]
pub fn skip<'a>(
    acts: &mut Vec<Act>,
    path: &'a [TokenTree],
    rest: &'a [TokenTree],
) -> Result<Option<&'a [TokenTree]>, AllocError>
    ensures { IfOk result (λ o. Does (acts_view acts.old.items) (acts_view acts.new.items) (option_map (λ t. trees t.now) o) (does (sets (whole (codes "skip_serializing")) (span_of_all (trees path.now)) is_flag ∷ sets (whole (codes "skip_deserializing")) (span_of_all (trees path.now)) is_flag ∷ []) (trees rest.now))) }
{
    set_skips(acts, span_of_trees(path))?;
    Ok(Some(rest))
}

// A text that may stand there alone is set.
fn set_text(
    alloc: Global,
    acts: &mut Vec<Act>,
    fits: bool,
    fault: DiagKind,
    name: Symbol,
    path: &[TokenTree],
    rest: &[TokenTree],
    string: Option<Text<'_>>,
) -> Result<(), AllocError>
    ensures { OnOk result (acts_view acts.new.items ≡ acts_view acts.old.items ++ text_set fits (kind_view fault) name.0.now (trees path.now) (trees rest.now) (option_map text_view string.entry)) }
{
    match string {
        Some(text) => set_text_by(alloc, acts, fits, fault, name, path, rest, text),
        None => Ok(()),
    }
}

// The text is set where it may stand there; else the fault is told.
fn set_text_by(
    alloc: Global,
    acts: &mut Vec<Act>,
    fits: bool,
    fault: DiagKind,
    name: Symbol,
    path: &[TokenTree],
    rest: &[TokenTree],
    text: Text<'_>,
) -> Result<(), AllocError>
    ensures { OnOk result (acts_view acts.new.items ≡ acts_view acts.old.items ++ cond fits (sets (whole name.0.now) (span_of_all (trees path.now)) (is_plain text.entry.value.now) ∷ []) (told_at (kind_view fault) (from_to (trees path.now) (trees rest.now)))) }
{
    if fits {
        let value = String::from_str(alloc, text.value)?;
        return set(
            acts,
            Slot::whole(name),
            span_of_trees(path),
            Value::Plain(value),
        );
    }
    tell(acts, fault, span_to(path, rest))
}

/// A text, where it fits the owner; else the fault is told.
#[tactic(auto, using(attr_acts::proofs::Does::does_then, attr_acts::proofs::Does::does_last, attr_acts::proofs::Does::does_acts))]
pub fn text_row<'a>(
    alloc: Global,
    acts: &mut Vec<Act>,
    fits: bool,
    fault: DiagKind,
    name: Symbol,
    path: &'a [TokenTree],
    end: Span,
    rest: &'a [TokenTree],
) -> Result<Option<&'a [TokenTree]>, AllocError>
    ensures { IfOk result (λ o. Does (acts_view acts.old.items) (acts_view acts.new.items) (option_map (λ t. trees t.now) o) (text_step fits (kind_view fault) name.0.now (trees path.now) end (trees rest.now))) }
{
    let Some(string) = string_step(alloc, acts, name, name, end, rest)? else {
        return Ok(None);
    };
    set_text(alloc, acts, fits, fault, name, path, rest, string)?;
    Ok(Some(&[]))
}

// A type that is there is set.
fn set_ty(acts: &mut Vec<Act>, slot: Slot, at: Span, tree: Option<Ty>) -> Result<(), AllocError>
    ensures { OnOk result (acts_view acts.new.items ≡ acts_view acts.old.items ++ set_maybe (slot_view slot) at is_ty (option_map ty tree)) }
{
    match tree {
        Some(tree) => set(acts, slot, at, Value::Ty(tree)),
        None => Ok(()),
    }
}

/// A type.
#[tactic(auto, using(attr_acts::proofs::Does::does_then, attr_acts::proofs::Does::does_last, attr_acts::proofs::Does::does_acts))]
pub fn type_row<'a>(
    alloc: Global,
    acts: &mut Vec<Act>,
    name: Symbol,
    path: &'a [TokenTree],
    end: Span,
    rest: &'a [TokenTree],
) -> Result<Option<&'a [TokenTree]>, AllocError>
    ensures { IfOk result (λ o. Does (acts_view acts.old.items) (acts_view acts.new.items) (option_map (λ t. trees t.now) o) (followed (parsed_step lexed type_of (λ l. bad_type name.0.now l.text) name.0.now end (trees rest.now)) (λ t. does (set_maybe (whole name.0.now) (span_of_all (trees path.now)) is_ty t) []))) }
{
    let Some(tree) = type_step(alloc, acts, name, end, rest)? else {
        return Ok(None);
    };
    set_ty(acts, Slot::whole(name), span_of_trees(path), tree)?;
    Ok(Some(&[]))
}

// A path that is there is set.
fn set_path(acts: &mut Vec<Act>, slot: Slot, at: Span, tree: Option<Path>) -> Result<(), AllocError>
    ensures { OnOk result (acts_view acts.new.items ≡ acts_view acts.old.items ++ set_maybe (slot_view slot) at is_path (option_map path_view tree)) }
{
    match tree {
        Some(tree) => set(acts, slot, at, Value::Path(tree)),
        None => Ok(()),
    }
}

/// A path.
#[tactic(auto, using(attr_acts::proofs::Does::does_then, attr_acts::proofs::Does::does_last, attr_acts::proofs::Does::does_acts))]
pub fn path_row<'a>(
    alloc: Global,
    acts: &mut Vec<Act>,
    name: Symbol,
    path: &'a [TokenTree],
    end: Span,
    rest: &'a [TokenTree],
) -> Result<Option<&'a [TokenTree]>, AllocError>
    ensures { IfOk result (λ o. Does (acts_view acts.old.items) (acts_view acts.new.items) (option_map (λ t. trees t.now) o) (followed (parsed_step lexed path_of no_path name.0.now end (trees rest.now)) (λ t. does (set_maybe (whole name.0.now) (span_of_all (trees path.now)) is_path t) []))) }
{
    let Some(tree) = path_step(alloc, acts, name, end, rest)? else {
        return Ok(None);
    };
    set_path(acts, Slot::whole(name), span_of_trees(path), tree)?;
    Ok(Some(&[]))
}

// A function that is there is set.
fn set_function(
    acts: &mut Vec<Act>,
    slot: Slot,
    at: Span,
    tree: Option<ExprPath>,
) -> Result<(), AllocError>
    ensures { OnOk result (acts_view acts.new.items ≡ acts_view acts.old.items ++ set_maybe (slot_view slot) at is_function (option_map expr_path_view tree)) }
{
    match tree {
        Some(tree) => set(acts, slot, at, Value::Function(tree)),
        None => Ok(()),
    }
}

/// The path of a function.
#[tactic(auto, using(attr_acts::proofs::Does::does_then, attr_acts::proofs::Does::does_last, attr_acts::proofs::Does::does_acts))]
pub fn function<'a>(
    alloc: Global,
    acts: &mut Vec<Act>,
    name: Symbol,
    path: &'a [TokenTree],
    end: Span,
    rest: &'a [TokenTree],
) -> Result<Option<&'a [TokenTree]>, AllocError>
    ensures { IfOk result (λ o. Does (acts_view acts.old.items) (acts_view acts.new.items) (option_map (λ t. trees t.now) o) (followed (function_step lexed name.0.now end (trees rest.now)) (λ t. does (set_maybe (whole name.0.now) (span_of_all (trees path.now)) is_function t) []))) }
{
    let Some(tree) = function_step(alloc, acts, name, end, rest)? else {
        return Ok(None);
    };
    set_function(acts, Slot::whole(name), span_of_trees(path), tree)?;
    Ok(Some(&[]))
}
