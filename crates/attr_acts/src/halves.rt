//! Values for both halves: `= value` for the two, or a list of `serialize = value` and `deserialize = value` in any order.
ghost use Rattle.std.specs.Prelude.{◌≡◌, ◌++◌, ◌∷◌, [], Some, None, IfOk, OnOk, option_map, map};
ghost use Rattle.token_trees.specs.View.{trees};
ghost use Rattle.token_trees.specs.Token.{span_of_all};
ghost use Rattle.syntax_trees.specs.Metas.{parens_next, place};
ghost use Rattle.attr_parts.specs.Diagnostics.{kind_view, halves, duplicate};
ghost use Rattle.attr_defs.specs.Acts.{tells};
ghost use Rattle.attr_defs.specs.Metas.{metas_in, part};
ghost use Rattle.attr_defs.specs.Steps.{gives};
ghost use Rattle.attr_defs.specs.Halves.{given, half_of, halves_in, listed, for_both, both_step, many_told, only, pair_of, pair_step};
ghost use Rattle.attr_defs.specs.Texts.{string_step};
ghost use Rattle.attr_acts.specs.Parts.{part_view};
ghost use Rattle.attr_acts.specs.Views.{acts_view, text_view};
ghost use Rattle.attr_acts.specs.HalfViews.{given_view, halves_view, both_view, pair_view};
ghost use Rattle.attr_acts.specs.Does.{Does, Joins, Adds, followed};

use crate::act::{Act, tell, tell_syntax};
use crate::part::{Part, after_one, is_sign_next, parts_in, place_next};
use crate::string::{Text, string_step};
use crate::text::is_path;
use attr_parts::{DESERIALIZE, DiagKind, SERIALIZE};
use std::alloc::{AllocError, Global};
use syntax_trees::{MetaCursor, SyntaxError, SyntaxKind};
use token_trees::{Span, Symbol, TokenTree, span_of_trees};

/// A value, and the place of the path that it stands behind.
#[derive(Drop)]
pub struct Given<T> {
    pub at: Span,
    pub value: T,
}

/// The values of each half, in order.
#[derive(Drop)]
pub struct Halves<T> {
    pub serialize: Vec<Given<T>>,
    pub deserialize: Vec<Given<T>>,
}

/// The values of both halves, and what stands behind them.
#[derive(Drop)]
pub struct Both<'a, T> {
    pub values: Halves<T>,
    pub left: &'a [TokenTree],
}

/// A value at most of each half, and what stands behind them.
#[derive(Drop)]
pub struct Pair<'a, T> {
    pub serialize: Option<T>,
    pub deserialize: Option<T>,
    pub left: &'a [TokenTree],
}

/// The metas of the group in parentheses that stands next.
pub fn group_parts<'a>(
    alloc: Global,
    end: Span,
    rest: &'a [TokenTree],
) -> Result<Option<Vec<Part<'a>>>, AllocError>
    ensures { IfOk result (λ o. option_map (λ v. map part_view v.items) o ≡ option_map (metas_in (place end (trees rest.now))) (parens_next (trees rest.now))) }
{
    let mut metas = MetaCursor {
        left: rest,
        at: end,
    };
    match metas.nested() {
        Ok(inner) => Ok(Some(parts_in(alloc, inner.left, inner.at)?)),
        Err(_) => Ok(None),
    }
}

/// What stands in the list of an attribute is told, where it is neither half.
pub fn tell_no_half(
    alloc: Global,
    acts: &mut Vec<Act>,
    name: Symbol,
    path: &[TokenTree],
) -> Result<(), AllocError>
    ensures { OnOk result (acts_view acts.new.items ≡ acts_view acts.old.items ++ tells (record { kind = halves name.0.now; span = span_of_all (trees path.now) }) ∷ []) }
{
    let kind = DiagKind::Halves(String::from_str(alloc, name.text())?);
    tell(acts, kind, span_of_trees(path))
}

/// A second value of an attribute is told.
pub fn tell_second(
    alloc: Global,
    acts: &mut Vec<Act>,
    name: Symbol,
    at: Span,
) -> Result<(), AllocError>
    ensures { OnOk result (acts_view acts.new.items ≡ acts_view acts.old.items ++ tells (record { kind = duplicate name.0.now; span = at }) ∷ []) }
{
    let kind = DiagKind::Duplicate(String::from_str(alloc, name.text())?);
    tell(acts, kind, at)
}

// A text that is there, after those before it.
fn add_text<'a>(
    texts: &mut Vec<Given<Text<'a>>>,
    at: Span,
    string: Option<Text<'a>>,
) -> Result<(), AllocError>
    ensures { OnOk result (map (given_view text_view) texts.new.items ≡ map (given_view text_view) texts.old.items ++ given at (option_map text_view string.entry)) }
{
    match string {
        Some(text) => {
            texts.push(Given { at, value: text })?;
            Ok(())
        }
        None => Ok(()),
    }
}

// A text of a half, added to those before it. False where reading of the attribute ends.
fn text_given<'a>(
    alloc: Global,
    acts: &mut Vec<Act>,
    given: &mut Vec<Given<Text<'a>>>,
    name: Symbol,
    item: Symbol,
    path: &'a [TokenTree],
    end: Span,
    rest: &'a [TokenTree],
) -> Result<bool, AllocError>
    ensures { IfOk result (λ b. Adds (acts_view acts.old.items) (acts_view acts.new.items) (map (given_view text_view) given.old.items) (map (given_view text_view) given.new.items) (span_of_all (trees path.now)) b (string_step name.0.now item.0.now end (trees rest.now))) }
{
    let Some(string) = string_step(alloc, acts, name, item, end, rest)? else {
        return Ok(false);
    };
    add_text(given, span_of_trees(path), string)?;
    Ok(true)
}

// A meta of the list, whose path was read.
fn text_half<'a>(
    alloc: Global,
    acts: &mut Vec<Act>,
    texts: &mut Halves<Text<'a>>,
    name: Symbol,
    path: &'a [TokenTree],
    end: Span,
    rest: &'a [TokenTree],
) -> Result<bool, AllocError>
    ensures { IfOk result (λ b. Joins (acts_view acts.old.items) (acts_view acts.new.items) (halves_view text_view texts.old) (halves_view text_view texts.new) b (half_of name.0.now (string_step name.0.now) (part (trees path.now) (trees rest.now) end))) }
{
    if is_path(path, SERIALIZE) {
        let goes_on = text_given(
            alloc,
            acts,
            &mut texts.serialize,
            name,
            SERIALIZE,
            path,
            end,
            rest,
        )?;
        return Ok(goes_on);
    }
    if is_path(path, DESERIALIZE) {
        let goes_on = text_given(
            alloc,
            acts,
            &mut texts.deserialize,
            name,
            DESERIALIZE,
            path,
            end,
            rest,
        )?;
        return Ok(goes_on);
    }
    tell_no_half(alloc, acts, name, path)?;
    Ok(false)
}

// A meta of the list. False where reading of the attribute ends.
fn text_part<'a>(
    alloc: Global,
    acts: &mut Vec<Act>,
    texts: &mut Halves<Text<'a>>,
    name: Symbol,
    part: &Part<'a>,
) -> Result<bool, AllocError>
    ensures { IfOk result (λ b. Joins (acts_view acts.old.items) (acts_view acts.new.items) (halves_view text_view texts.old) (halves_view text_view texts.new) b (half_of name.0.now (string_step name.0.now) (part_view part.now))) }
{
    match part {
        Part::Meta { path, rest, end } => {
            let goes_on = text_half(alloc, acts, texts, name, path, *end, rest)?;
            Ok(goes_on)
        }
        Part::Unread(error) => {
            tell_syntax(acts, *error)?;
            Ok(false)
        }
    }
}

// The texts of a list. None where reading of the attribute ends.
fn texts_in<'a>(
    alloc: Global,
    acts: &mut Vec<Act>,
    name: Symbol,
    parts: &[Part<'a>],
) -> Result<Option<Halves<Text<'a>>>, AllocError>
    ensures { IfOk result (λ o. Does (acts_view acts.old.items) (acts_view acts.new.items) (option_map (halves_view text_view) o) (halves_in name.0.now (string_step name.0.now) (map part_view parts.now))) }
{
    let mut texts = Halves {
        serialize: Vec::new(alloc),
        deserialize: Vec::new(alloc),
    };
    for part in parts {
        if !text_part(alloc, acts, &mut texts, name, part)? {
            return Ok(None);
        }
    }
    Ok(Some(texts))
}

// A text that is there, as the only one of a half.
fn one_text<'a>(
    alloc: Global,
    at: Span,
    string: Option<Text<'a>>,
) -> Result<Vec<Given<Text<'a>>>, AllocError>
    ensures { IfOk result (λ v. map (given_view text_view) v.items ≡ given at (option_map text_view string.entry)) }
{
    let mut texts = Vec::new(alloc);
    add_text(&mut texts, at, string)?;
    Ok(texts)
}

/// Texts of both halves, all that are there. None where reading of the attribute ends.
pub fn both_texts<'a>(
    alloc: Global,
    acts: &mut Vec<Act>,
    name: Symbol,
    path: &'a [TokenTree],
    end: Span,
    rest: &'a [TokenTree],
) -> Result<Option<Both<'a, Text<'a>>>, AllocError>
    ensures { IfOk result (λ o. Does (acts_view acts.old.items) (acts_view acts.new.items) (option_map (both_view text_view) o) (both_step name.0.now (string_step name.0.now) (trees path.now) end (trees rest.now))) }
{
    if is_sign_next('=', rest) {
        let both = text_for_both(alloc, acts, name, path, end, rest)?;
        return Ok(both);
    }
    let both = listed_texts(alloc, acts, name, end, rest)?;
    Ok(both)
}

// One text for both halves.
fn text_for_both<'a>(
    alloc: Global,
    acts: &mut Vec<Act>,
    name: Symbol,
    path: &'a [TokenTree],
    end: Span,
    rest: &'a [TokenTree],
) -> Result<Option<Both<'a, Text<'a>>>, AllocError>
    ensures { IfOk result (λ o. Does (acts_view acts.old.items) (acts_view acts.new.items) (option_map (both_view text_view) o) (followed (string_step name.0.now name.0.now end (trees rest.now)) (λ t. gives (for_both (span_of_all (trees path.now)) t)))) }
{
    let Some(string) = string_step(alloc, acts, name, name, end, rest)? else {
        return Ok(None);
    };
    let at = span_of_trees(path);
    let values = Halves {
        serialize: one_text(alloc, at, string)?,
        deserialize: one_text(alloc, at, string)?,
    };
    Ok(Some(Both { values, left: &[] }))
}

// The texts of a list in parentheses.
fn listed_texts<'a>(
    alloc: Global,
    acts: &mut Vec<Act>,
    name: Symbol,
    end: Span,
    rest: &'a [TokenTree],
) -> Result<Option<Both<'a, Text<'a>>>, AllocError>
    ensures { IfOk result (λ o. Does (acts_view acts.old.items) (acts_view acts.new.items) (option_map (both_view text_view) o) (listed name.0.now (string_step name.0.now) end (trees rest.now) (parens_next (trees rest.now)))) }
{
    match group_parts(alloc, end, rest)? {
        Some(parts) => {
            let Some(values) = texts_in(alloc, acts, name, &parts)? else {
                return Ok(None);
            };
            Ok(Some(Both {
                values,
                left: after_one(rest),
            }))
        }
        None => {
            tell_syntax(
                acts,
                SyntaxError {
                    kind: SyntaxKind::ExpectedEqOrParen,
                    span: place_next(end, rest),
                },
            )?;
            Ok(None)
        }
    }
}

/// A second text of a half is told.
pub fn tell_more_texts(
    alloc: Global,
    acts: &mut Vec<Act>,
    name: Symbol,
    texts: &[Given<Text<'_>>],
) -> Result<(), AllocError>
    ensures { OnOk result (acts_view acts.new.items ≡ acts_view acts.old.items ++ many_told name.0.now (map (given_view text_view) texts.now)) }
{
    match texts {
        [_, second, ..] => {
            tell_second(alloc, acts, name, second.at)?;
            Ok(())
        }
        _ => Ok(()),
    }
}

/// The text of a half that has one alone.
pub fn only_text<'a>(texts: &[Given<Text<'a>>]) -> Option<Text<'a>>
    ensures { option_map text_view result ≡ only (map (given_view text_view) texts.now) }
{
    match texts {
        [one] => Some(one.value),
        _ => None,
    }
}

// Of each half its text, where it has one alone.
fn text_pair_of<'a>(
    alloc: Global,
    acts: &mut Vec<Act>,
    name: Symbol,
    both: Both<'a, Text<'a>>,
) -> Result<Pair<'a, Text<'a>>, AllocError>
    ensures { IfOk result (λ p. Does (acts_view acts.old.items) (acts_view acts.new.items) (Some (pair_view text_view p)) (pair_of name.0.now (both_view text_view both.entry))) }
{
    tell_more_texts(alloc, acts, name, &both.values.serialize)?;
    tell_more_texts(alloc, acts, name, &both.values.deserialize)?;
    Ok(Pair {
        serialize: only_text(&both.values.serialize),
        deserialize: only_text(&both.values.deserialize),
        left: both.left,
    })
}

/// A text of each half at most; a second one is told. None where reading of the attribute ends.
#[tactic(auto, using(crate::proofs::Does::does_then, crate::proofs::Does::does_last))]
pub fn text_pair<'a>(
    alloc: Global,
    acts: &mut Vec<Act>,
    name: Symbol,
    path: &'a [TokenTree],
    end: Span,
    rest: &'a [TokenTree],
) -> Result<Option<Pair<'a, Text<'a>>>, AllocError>
    ensures { IfOk result (λ o. Does (acts_view acts.old.items) (acts_view acts.new.items) (option_map (pair_view text_view) o) (pair_step name.0.now (string_step name.0.now) (trees path.now) end (trees rest.now))) }
{
    let Some(both) = both_texts(alloc, acts, name, path, end, rest)? else {
        return Ok(None);
    };
    let pair = text_pair_of(alloc, acts, name, both)?;
    Ok(Some(pair))
}
