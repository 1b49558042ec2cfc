//! Predicates for both halves.
ghost use Rattle.std.specs.Prelude.{◌≡◌, ◌++◌, Some, IfOk, OnOk, option_map, map};
ghost use Rattle.token_trees.specs.View.{trees};
ghost use Rattle.token_trees.specs.Token.{span_of_all};
ghost use Rattle.syntax_trees.specs.Item.{predicate_view};
ghost use Rattle.syntax_trees.specs.Metas.{parens_next};
ghost use Rattle.attr_defs.specs.Acts.{are_predicates};
ghost use Rattle.attr_defs.specs.Metas.{part};
ghost use Rattle.attr_defs.specs.Halves.{given, half_of, halves_in, listed, for_both, both_step, many_told, only, pair_of, pair_step};
ghost use Rattle.attr_defs.specs.Rows.{set_maybe, bounds_set};
ghost use Rattle.attr_defs.specs.Steps.{gives, does};
ghost use Rattle.attr_defs.specs.Texts.{lexed, predicates_step};
ghost use Rattle.attr_acts.specs.Parts.{part_view};
ghost use Rattle.attr_acts.specs.Views.{acts_view, slot_view, predicates_view};
ghost use Rattle.attr_acts.specs.HalfViews.{given_view, halves_view, both_view, pair_view};
ghost use Rattle.attr_acts.specs.Does.{Does, Joins, Adds, followed};

use attr_acts::{
    Act, Both, Given, Halves, Pair, Part, Slot, Value, after_one, group_parts, is_path,
    is_sign_next, place_next, predicates_step, set, tell_no_half, tell_second, tell_syntax,
};
use attr_parts::{DESERIALIZE, SERIALIZE};
use std::alloc::{AllocError, Global};
use syntax_trees::{SyntaxError, SyntaxKind, WherePredicate};
use token_trees::{Span, Symbol, TokenTree, span_of_trees};

// Predicates of a half, added to those before it. False where reading of the attribute ends.
fn predicates_given<'a>(
    alloc: Global,
    acts: &mut Vec<Act>,
    given: &mut Vec<Given<Vec<WherePredicate>>>,
    name: Symbol,
    item: Symbol,
    path: &'a [TokenTree],
    end: Span,
    rest: &'a [TokenTree],
) -> Result<bool, AllocError>
    ensures { IfOk result (λ b. Adds (acts_view acts.old.items) (acts_view acts.new.items) (map (given_view predicates_view) given.old.items) (map (given_view predicates_view) given.new.items) (span_of_all (trees path.now)) b (predicates_step lexed name.0.now item.0.now end (trees rest.now))) }
{
    let Some(value) = predicates_step(alloc, acts, name, item, end, rest)? else {
        return Ok(false);
    };
    let at = span_of_trees(path);
    given.push(Given { at, value })?;
    Ok(true)
}

// A meta of the list, whose path was read.
fn predicates_half<'a>(
    alloc: Global,
    acts: &mut Vec<Act>,
    predicates: &mut Halves<Vec<WherePredicate>>,
    name: Symbol,
    path: &'a [TokenTree],
    end: Span,
    rest: &'a [TokenTree],
) -> Result<bool, AllocError>
    ensures { IfOk result (λ b. Joins (acts_view acts.old.items) (acts_view acts.new.items) (halves_view predicates_view predicates.old) (halves_view predicates_view predicates.new) b (half_of name.0.now (predicates_step lexed name.0.now) (part (trees path.now) (trees rest.now) end))) }
{
    if is_path(path, SERIALIZE) {
        let goes_on = predicates_given(
            alloc,
            acts,
            &mut predicates.serialize,
            name,
            SERIALIZE,
            path,
            end,
            rest,
        )?;
        return Ok(goes_on);
    }
    if is_path(path, DESERIALIZE) {
        let goes_on = predicates_given(
            alloc,
            acts,
            &mut predicates.deserialize,
            name,
            DESERIALIZE,
            path,
            end,
            rest,
        )?;
        return Ok(goes_on);
    }
    tell_no_half(alloc, acts, name, path)?;
    Ok(false)
}

// A meta of the list. False where reading of the attribute ends.
fn predicates_part<'a>(
    alloc: Global,
    acts: &mut Vec<Act>,
    predicates: &mut Halves<Vec<WherePredicate>>,
    name: Symbol,
    part: &Part<'a>,
) -> Result<bool, AllocError>
    ensures { IfOk result (λ b. Joins (acts_view acts.old.items) (acts_view acts.new.items) (halves_view predicates_view predicates.old) (halves_view predicates_view predicates.new) b (half_of name.0.now (predicates_step lexed name.0.now) (part_view part.now))) }
{
    match part {
        Part::Meta { path, rest, end } => predicates_half(
            alloc, acts, predicates, name, path, *end, rest,
        ),
        Part::Unread(error) => {
            tell_syntax(acts, *error)?;
            Ok(false)
        }
    }
}

// The predicates of a list. None where reading of the attribute ends.
fn predicates_in_list<'a>(
    alloc: Global,
    acts: &mut Vec<Act>,
    name: Symbol,
    parts: &[Part<'a>],
) -> Result<Option<Halves<Vec<WherePredicate>>>, AllocError>
    ensures { IfOk result (λ o. Does (acts_view acts.old.items) (acts_view acts.new.items) (option_map (halves_view predicates_view) o) (halves_in name.0.now (predicates_step lexed name.0.now) (map part_view parts.now))) }
{
    let mut predicates = Halves {
        serialize: Vec::new(alloc),
        deserialize: Vec::new(alloc),
    };
    for part in parts {
        if !predicates_part(alloc, acts, &mut predicates, name, part)? {
            return Ok(None);
        }
    }
    Ok(Some(predicates))
}

// A copy of predicates.
fn copy_predicates(
    alloc: Global,
    from: &[WherePredicate],
) -> Result<Vec<WherePredicate>, AllocError>
    ensures { IfOk result (λ v. predicates_view v ≡ map predicate_view from.now) }
{
    let mut copies = Vec::new(alloc);
    for predicate in from {
        copies.push(predicate.try_clone(alloc)?)?;
    }
    Ok(copies)
}

// Predicates as the only ones of a half.
fn one_given(
    alloc: Global,
    at: Span,
    value: Vec<WherePredicate>,
) -> Result<Vec<Given<Vec<WherePredicate>>>, AllocError>
    ensures { IfOk result (λ v. map (given_view predicates_view) v.items ≡ given at (Some (predicates_view value))) }
{
    let mut values = Vec::new(alloc);
    values.push(Given { at, value })?;
    Ok(values)
}

// Predicates of both halves, all that are there. None where reading of the attribute ends.
fn both_predicates<'a>(
    alloc: Global,
    acts: &mut Vec<Act>,
    name: Symbol,
    path: &'a [TokenTree],
    end: Span,
    rest: &'a [TokenTree],
) -> Result<Option<Both<'a, Vec<WherePredicate>>>, AllocError>
    ensures { IfOk result (λ o. Does (acts_view acts.old.items) (acts_view acts.new.items) (option_map (both_view predicates_view) o) (both_step name.0.now (predicates_step lexed name.0.now) (trees path.now) end (trees rest.now))) }
{
    if is_sign_next('=', rest) {
        return predicates_for_both(alloc, acts, name, path, end, rest);
    }
    listed_predicates(alloc, acts, name, end, rest)
}

// The same predicates for both halves.
fn predicates_for_both<'a>(
    alloc: Global,
    acts: &mut Vec<Act>,
    name: Symbol,
    path: &'a [TokenTree],
    end: Span,
    rest: &'a [TokenTree],
) -> Result<Option<Both<'a, Vec<WherePredicate>>>, AllocError>
    ensures { IfOk result (λ o. Does (acts_view acts.old.items) (acts_view acts.new.items) (option_map (both_view predicates_view) o) (followed (predicates_step lexed name.0.now name.0.now end (trees rest.now)) (λ t. gives (for_both (span_of_all (trees path.now)) t)))) }
{
    let Some(predicates) = predicates_step(alloc, acts, name, name, end, rest)? else {
        return Ok(None);
    };
    let at = span_of_trees(path);
    let copy = copy_predicates(alloc, &predicates)?;
    let values = Halves {
        serialize: one_given(alloc, at, copy)?,
        deserialize: one_given(alloc, at, predicates)?,
    };
    Ok(Some(Both { values, left: &[] }))
}

// The predicates of a list in parentheses.
fn listed_predicates<'a>(
    alloc: Global,
    acts: &mut Vec<Act>,
    name: Symbol,
    end: Span,
    rest: &'a [TokenTree],
) -> Result<Option<Both<'a, Vec<WherePredicate>>>, AllocError>
    ensures { IfOk result (λ o. Does (acts_view acts.old.items) (acts_view acts.new.items) (option_map (both_view predicates_view) o) (listed name.0.now (predicates_step lexed name.0.now) end (trees rest.now) (parens_next (trees rest.now)))) }
{
    match group_parts(alloc, end, rest)? {
        Some(parts) => {
            let Some(values) = predicates_in_list(alloc, acts, name, &parts)? else {
                return Ok(None);
            };
            Ok(Some(Both {
                values,
                left: after_one(rest),
            }))
        }
        None => {
            tell_syntax(
                acts,
                SyntaxError {
                    kind: SyntaxKind::ExpectedEqOrParen,
                    span: place_next(end, rest),
                },
            )?;
            Ok(None)
        }
    }
}

// A second value of a half is told.
fn tell_more_predicates(
    alloc: Global,
    acts: &mut Vec<Act>,
    name: Symbol,
    predicates: &[Given<Vec<WherePredicate>>],
) -> Result<(), AllocError>
    ensures { OnOk result (acts_view acts.new.items ≡ acts_view acts.old.items ++ many_told name.0.now (map (given_view predicates_view) predicates.now)) }
{
    match predicates {
        [_, second, ..] => tell_second(alloc, acts, name, second.at),
        _ => Ok(()),
    }
}

// The predicates of a half that has them once.
fn only_predicates(values: Vec<Given<Vec<WherePredicate>>>) -> Option<Vec<WherePredicate>>
    ensures { option_map predicates_view result ≡ only (map (given_view predicates_view) values.items) }
{
    let mut values = values;
    if values.len() != 1 {
        return None;
    }
    match values.pop() {
        Some(given) => Some(given.value),
        None => None,
    }
}

// Of each half its predicates, where it has them once.
fn predicates_pair_of<'a>(
    alloc: Global,
    acts: &mut Vec<Act>,
    name: Symbol,
    both: Both<'a, Vec<WherePredicate>>,
) -> Result<Pair<'a, Vec<WherePredicate>>, AllocError>
    ensures { IfOk result (λ p. Does (acts_view acts.old.items) (acts_view acts.new.items) (Some (pair_view predicates_view p)) (pair_of name.0.now (both_view predicates_view both.entry))) }
{
    let Both { values, left } = both;
    let Halves {
        serialize,
        deserialize,
    } = values;
    tell_more_predicates(alloc, acts, name, &serialize)?;
    tell_more_predicates(alloc, acts, name, &deserialize)?;
    Ok(Pair {
        serialize: only_predicates(serialize),
        deserialize: only_predicates(deserialize),
        left,
    })
}

// Predicates of each half once at most; a second value is told. None where reading of the attribute ends.
#[tactic(auto, using(attr_acts::proofs::Does::does_then, attr_acts::proofs::Does::does_last))]
fn predicates_pair<'a>(
    alloc: Global,
    acts: &mut Vec<Act>,
    name: Symbol,
    path: &'a [TokenTree],
    end: Span,
    rest: &'a [TokenTree],
) -> Result<Option<Pair<'a, Vec<WherePredicate>>>, AllocError>
    ensures { IfOk result (λ o. Does (acts_view acts.old.items) (acts_view acts.new.items) (option_map (pair_view predicates_view) o) (pair_step name.0.now (predicates_step lexed name.0.now) (trees path.now) end (trees rest.now))) }
{
    let Some(both) = both_predicates(alloc, acts, name, path, end, rest)? else {
        return Ok(None);
    };
    let pair = predicates_pair_of(alloc, acts, name, both)?;
    Ok(Some(pair))
}

// Predicates that are there are set.
fn set_predicates(
    acts: &mut Vec<Act>,
    slot: Slot,
    at: Span,
    predicates: Option<Vec<WherePredicate>>,
) -> Result<(), AllocError>
    ensures { OnOk result (acts_view acts.new.items ≡ acts_view acts.old.items ++ set_maybe (slot_view slot) at are_predicates (option_map predicates_view predicates)) }
{
    match predicates {
        Some(predicates) => set(acts, slot, at, Value::Predicates(predicates)),
        None => Ok(()),
    }
}

/// Predicates for both halves.
#[tactic(auto, using(attr_acts::proofs::Does::does_then, attr_acts::proofs::Does::does_last, attr_acts::proofs::Does::does_acts))]
pub fn bounds<'a>(
    alloc: Global,
    acts: &mut Vec<Act>,
    name: Symbol,
    path: &'a [TokenTree],
    end: Span,
    rest: &'a [TokenTree],
) -> Result<Option<&'a [TokenTree]>, AllocError>
    ensures { IfOk result (λ o. Does (acts_view acts.old.items) (acts_view acts.new.items) (option_map (λ t. trees t.now) o) (followed (pair_step name.0.now (predicates_step lexed name.0.now) (trees path.now) end (trees rest.now)) (λ t. does (bounds_set name.0.now (span_of_all (trees path.now)) t) t.left))) }
{
    let Some(pair) = predicates_pair(alloc, acts, name, path, end, rest)? else {
        return Ok(None);
    };
    let Pair {
        serialize,
        deserialize,
        left,
    } = pair;
    let at = span_of_trees(path);
    set_predicates(acts, Slot::written(name), at, serialize)?;
    set_predicates(acts, Slot::read(name), at, deserialize)?;
    Ok(Some(left))
}
