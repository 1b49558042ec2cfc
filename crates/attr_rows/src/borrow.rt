//! Lifetimes that are borrowed.
ghost use Rattle.std.specs.Prelude.{◌≡◌, ◌≢◌, ◌++◌, ◌∷◌, ◌&&◌, [], Some, None, Ok, not, cond, IfOk, OnOk, option_map, map, string_bytes, codes};
ghost use Rattle.std.specs.BTreeSet.{insert_key};
ghost use Rattle.std.specs.Str.{chars};
ghost use Rattle.token_trees.specs.Token.{span_of, span_of_all};
ghost use Rattle.token_trees.specs.View.{tree, trees, stream};
ghost use Rattle.syntax_trees.specs.Item.{fields_view, field_view, variant_view};
ghost use Rattle.syntax_trees.specs.Metas.{is_sign, is_joint_sign, is_word};
ghost use Rattle.syntax_trees.specs.View.{lifetime_view, ty as ty_view};
ghost use Rattle.syntax_parsers.specs.Lifetimes.{lifetimes_of, name_of};
ghost use Rattle.attr_parts.specs.Diagnostics.{bad_lifetimes, repeated_lifetime, no_lifetimes, lacks_lifetime};
ghost use Rattle.attr_parts.specs.Lifetimes.{lifetimes, lifetime_cmp, lifetimes_of as lifetimes_in_type};
ghost use Rattle.attr_parts.specs.Names.{attr_name};
ghost use Rattle.attr_parts.specs.Places.{place_of, field_spans};
ghost use Rattle.attr_defs.specs.Acts.{tells, sets, are_lifetimes};
ghost use Rattle.attr_defs.specs.Borrows.{lifetimes_before, lifetime_text, has_lifetime, told_where, repeats_told, set_of, lifetimes_by, lifetimes_read, lifetimes_in, lifetimes_step, is_newtype, borrow_value, lacks_told, borrow_held, field_borrow, variant_borrow, borrow_set, borrow_step};
ghost use Rattle.attr_defs.specs.Owners.{whole, told_at};
ghost use Rattle.attr_defs.specs.Steps.{does};
ghost use Rattle.attr_defs.specs.Texts.{lexed};
ghost use Rattle.attr_acts.specs.Does.{Does, followed};
ghost use Rattle.attr_rows.specs.OwnerView.{owner_view};
ghost use Rattle.attr_acts.specs.Views.{acts_view, text_view, value_view};

use crate::owner::Owner;
use attr_acts::{Act, Slot, Text, Value, is_sign_next, set, string_step, tell, why};
use attr_parts::{BORROW, DiagKind, Name, collect_lifetimes, place_of_field, place_of_variant};
use rust_tokens::{LexError, lex};
use std::alloc::{AllocError, Global};
use std::collections::BTreeSet;
use syntax_parsers::read_lifetimes;
use syntax_trees::{Field, Fields, Lifetime, Ty, Variant};
use token_trees::{Spacing, Span, Symbol, TokenStream, TokenTree, span_of_trees};

// Whether there is one field, without a name.
fn is_newtype(fields: &Fields) -> bool
    ensures { result ≡ is_newtype (fields_view fields.now) }
{
    match fields {
        Fields::Named(_) => false,
        Fields::Unnamed(fields) => fields.len() == 1,
        Fields::Unit => false,
    }
}

// The tokens of the text, where it has any.
#[tactic(auto, using(attr_defs::proofs::Lexed::lexed_some, attr_defs::proofs::Lexed::lexed_none))]
fn tokens_of(alloc: Global, text: Text<'_>) -> Result<Option<TokenStream>, AllocError>
    ensures { IfOk result (λ o. option_map stream o ≡ lexed (chars text.entry.value.now) text.entry.span) }
{
    match lex(alloc, text.value, text.span) {
        Ok(tokens) => Ok(Some(tokens)),
        Err(LexError::Memory) => Err(AllocError),
        Err(LexError::Bad { .. }) => Ok(None),
    }
}

// The lifetime that a quote and a name are.
fn lifetime_at(
    alloc: Global,
    quote: &TokenTree,
    name: &TokenTree,
) -> Result<Option<Lifetime>, AllocError>
    ensures { IfOk result (λ o. option_map lifetime_view o ≡ cond (is_joint_sign 39 (tree quote.now) && is_word (tree name.now)) (Some (record { name = name_of (tree name.now); span = span_of (tree quote.now) })) None) }
{
    match (quote, name) {
        (TokenTree::Punct(punct), TokenTree::Ident(ident))
            if '\'' == punct.ch && punct.spacing == Spacing::Joint => {
            Ok(Some(Lifetime {
                ident: ident.try_clone(alloc)?,
                span: punct.span,
            }))
        }
        _ => Ok(None),
    }
}

// Whether the token is a `+`.
fn is_plus(token: &TokenTree) -> bool
    ensures { result ≡ is_sign 43 (tree token.now) }
{
    match token {
        TokenTree::Punct(punct) => '+' == punct.ch,
        _ => false,
    }
}

// The lifetimes that are read before the first place where one, or a `+`, is missing.
fn lifetimes_before(alloc: Global, tokens: &[TokenTree]) -> Result<Vec<Lifetime>, AllocError>
    ensures { IfOk result (λ v. map lifetime_view v.items ≡ lifetimes_before (trees tokens.now)) }
{
    let mut found = Vec::new(alloc);
    let mut left = tokens;
    'list: while let Some((quote, rest)) = left.split_first() {
        let Some((name, behind)) = rest.split_first() else {
            return Ok(found);
        };
        let Some(lifetime) = lifetime_at(alloc, quote, name)? else {
            return Ok(found);
        };
        found.push(lifetime)?;
        let Some((plus, more)) = behind.split_first() else {
            return Ok(found);
        };
        if !is_plus(plus) {
            return Ok(found);
        }
        left = more;
    }
    Ok(found)
}

// A lifetime more; one that the set has by name stays. Whether it was not there.
#[tactic(auto, using(attr_parts::proofs::Added::inserted, crate::proofs::LifetimeSets::is_there))]
fn insert(set: &mut BTreeSet<Lifetime>, lifetime: Lifetime) -> Result<bool, AllocError>
    ensures set { OnOk result (lifetimes set.new ≡ insert_key lifetime_cmp (lifetimes set.old) (lifetime_view lifetime)) }
    ensures anew { IfOk result (λ b. b ≡ not (has_lifetime (lifetimes set.old) (lifetime_view lifetime))) }
{
    let anew = set.insert(lifetime)?;
    Ok(anew)
}

// Whether the set has the lifetime by name.
#[tactic(auto, using(crate::proofs::LifetimeSets::is_there))]
fn has(set: &BTreeSet<Lifetime>, lifetime: &Lifetime) -> bool
    ensures { result ≡ has_lifetime (lifetimes set.now) (lifetime_view lifetime.now) }
{
    set.contains(lifetime)
}

// A lifetime as it is written, with its quote.
fn text_of(alloc: Global, lifetime: &Lifetime) -> Result<String, AllocError>
    ensures { IfOk result (λ s. string_bytes s ≡ lifetime_text (lifetime_view lifetime.now)) }
{
    let mut text = String::from_str(alloc, "'")?;
    text.push_str(&lifetime.ident.text)?;
    Ok(text)
}

// A lifetime that stands among those before it is told.
fn tell_repeat(
    alloc: Global,
    acts: &mut Vec<Act>,
    at: Span,
    before: &mut BTreeSet<Lifetime>,
    lifetime: &Lifetime,
) -> Result<(), AllocError>
    ensures acts { OnOk result (acts_view acts.new.items ≡ acts_view acts.old.items ++ told_where (has_lifetime (lifetimes before.old) (lifetime_view lifetime.now)) (repeated_lifetime (lifetime_text (lifetime_view lifetime.now))) at) }
    ensures before { OnOk result (lifetimes before.new ≡ insert_key lifetime_cmp (lifetimes before.old) (lifetime_view lifetime.now)) }
{
    let copy = lifetime.try_clone(alloc)?;
    if insert(before, copy)? {
        return Ok(());
    }
    let kind = DiagKind::RepeatedLifetime(text_of(alloc, lifetime)?);
    tell(acts, kind, at)
}

// Each that stands among those before it is told.
fn tell_repeats(
    alloc: Global,
    acts: &mut Vec<Act>,
    at: Span,
    all: &[Lifetime],
) -> Result<(), AllocError>
    ensures { OnOk result (acts_view acts.new.items ≡ acts_view acts.old.items ++ repeats_told at [] (map lifetime_view all.now)) }
{
    let mut before = BTreeSet::new(alloc);
    for lifetime in all {
        tell_repeat(alloc, acts, at, &mut before, lifetime)?;
    }
    Ok(())
}

// The lifetimes as a set.
fn set_of(alloc: Global, all: &[Lifetime]) -> Result<BTreeSet<Lifetime>, AllocError>
    ensures { IfOk result (λ s. lifetimes s ≡ set_of (map lifetime_view all.now)) }
{
    let mut set = BTreeSet::new(alloc);
    for lifetime in all {
        let _ = insert(&mut set, lifetime.try_clone(alloc)?)?;
    }
    Ok(set)
}

/// A copy of a set.
pub fn copy_lifetimes(
    alloc: Global,
    from: &BTreeSet<Lifetime>,
) -> Result<BTreeSet<Lifetime>, AllocError>
    ensures { IfOk result (λ s. lifetimes s ≡ lifetimes from.now) }
{
    let mut copy = BTreeSet::new(alloc);
    for lifetime in from.iter() {
        let _ = insert(&mut copy, lifetime.try_clone(alloc)?)?;
    }
    Ok(copy)
}

// The lifetimes of a list that was read, one at least.
#[tactic(auto, using(attr_acts::proofs::Does::does_note, attr_acts::proofs::Does::does_nothing))]
fn listed(
    alloc: Global,
    acts: &mut Vec<Act>,
    text: Text<'_>,
    all: &[Lifetime],
) -> Result<BTreeSet<Lifetime>, AllocError>
    ensures { IfOk result (λ s. Does (acts_view acts.old.items) (acts_view acts.new.items) (Some (lifetimes s)) (lifetimes_by (text_view text.entry) (Ok (map lifetime_view all.now)))) }
{
    if all.is_empty() {
        tell(acts, DiagKind::NoLifetimeGiven, text.span)?;
        return Ok(BTreeSet::new(alloc));
    }
    let set = set_of(alloc, all)?;
    Ok(set)
}

// A text that is no list of lifetimes is told.
fn tell_no_list(alloc: Global, acts: &mut Vec<Act>, text: Text<'_>) -> Result<(), AllocError>
    ensures { OnOk result (acts_view acts.new.items ≡ acts_view acts.old.items ++ tells (record { kind = bad_lifetimes text.entry.value.now; span = text.entry.span }) ∷ []) }
{
    let kind = DiagKind::BadLifetimes(String::from_str(alloc, text.value)?);
    tell(acts, kind, text.span)
}

// The lifetimes that the tokens spell.
#[tactic(auto, using(attr_acts::proofs::Does::does_note))]
fn spelled(
    alloc: Global,
    acts: &mut Vec<Act>,
    text: Text<'_>,
    tokens: &TokenStream,
) -> Result<BTreeSet<Lifetime>, AllocError>
    ensures { IfOk result (λ s. Does (acts_view acts.old.items) (acts_view acts.new.items) (Some (lifetimes s)) (lifetimes_by (text_view text.entry) (lifetimes_of (stream tokens.now)))) }
{
    match read_lifetimes(alloc, tokens.trees()) {
        Ok(all) => listed(alloc, acts, text, &all),
        Err(fault) => {
            let _ = why(fault)?;
            tell_no_list(alloc, acts, text)?;
            Ok(BTreeSet::new(alloc))
        }
    }
}

// The lifetimes of tokens; each that is repeated is told first.
#[tactic(auto, using(attr_acts::proofs::Does::does_then, attr_acts::proofs::Does::does_acts))]
fn lifetimes_of_tokens(
    alloc: Global,
    acts: &mut Vec<Act>,
    text: Text<'_>,
    tokens: &TokenStream,
) -> Result<BTreeSet<Lifetime>, AllocError>
    ensures { IfOk result (λ s. Does (acts_view acts.old.items) (acts_view acts.new.items) (Some (lifetimes s)) (lifetimes_read (text_view text.entry) (Some (stream tokens.now)))) }
{
    let before = lifetimes_before(alloc, tokens.trees())?;
    tell_repeats(alloc, acts, text.span, &before)?;
    let set = spelled(alloc, acts, text, tokens)?;
    Ok(set)
}

// The lifetimes of a text.
#[tactic(auto, using(attr_acts::proofs::Does::does_note))]
fn lifetimes_of_text(
    alloc: Global,
    acts: &mut Vec<Act>,
    text: Text<'_>,
) -> Result<BTreeSet<Lifetime>, AllocError>
    ensures { IfOk result (λ s. Does (acts_view acts.old.items) (acts_view acts.new.items) (Some (lifetimes s)) (lifetimes_in lexed (Some (text_view text.entry)))) }
{
    match tokens_of(alloc, text)? {
        Some(tokens) => lifetimes_of_tokens(alloc, acts, text, &tokens),
        None => {
            tell_no_list(alloc, acts, text)?;
            Ok(BTreeSet::new(alloc))
        }
    }
}

// The lifetimes of a string that is there.
#[tactic(auto, using(attr_acts::proofs::Does::does_nothing))]
fn lifetimes_of_string(
    alloc: Global,
    acts: &mut Vec<Act>,
    string: Option<Text<'_>>,
) -> Result<BTreeSet<Lifetime>, AllocError>
    ensures { IfOk result (λ s. Does (acts_view acts.old.items) (acts_view acts.new.items) (Some (lifetimes s)) (lifetimes_in lexed (option_map text_view string.entry))) }
{
    match string {
        Some(text) => lifetimes_of_text(alloc, acts, text),
        None => Ok(BTreeSet::new(alloc)),
    }
}

// A string whose text is lifetimes; any other value is told, and stands for none of them.
#[tactic(auto, using(attr_acts::proofs::Does::does_then, attr_acts::proofs::Does::does_last))]
fn lifetimes_step(
    alloc: Global,
    acts: &mut Vec<Act>,
    name: Symbol,
    end: Span,
    rest: &[TokenTree],
) -> Result<Option<BTreeSet<Lifetime>>, AllocError>
    ensures { IfOk result (λ o. Does (acts_view acts.old.items) (acts_view acts.new.items) (option_map lifetimes o) (lifetimes_step lexed name.0.now end (trees rest.now))) }
{
    let Some(string) = string_step(alloc, acts, name, name, end, rest)? else {
        return Ok(None);
    };
    let set = lifetimes_of_string(alloc, acts, string)?;
    Ok(Some(set))
}

/// The lifetimes of a type as a set.
pub fn lifetimes_of_type(alloc: Global, ty: &Ty) -> Result<BTreeSet<Lifetime>, AllocError>
    ensures { IfOk result (λ s. lifetimes s ≡ set_of (lifetimes_in_type (ty_view ty.now))) }
{
    let mut set = BTreeSet::new(alloc);
    collect_lifetimes(alloc, ty, &mut set)?;
    Ok(set)
}

// A lifetime that the field lacks is told at the field.
fn tell_lacking(
    alloc: Global,
    acts: &mut Vec<Act>,
    field: &Field,
    name: &Name,
    held: &BTreeSet<Lifetime>,
    lifetime: &Lifetime,
) -> Result<(), AllocError>
    ensures { OnOk result (acts_view acts.new.items ≡ acts_view acts.old.items ++ told_where (not (has_lifetime (lifetimes held.now) (lifetime_view lifetime.now))) (lacks_lifetime (attr_name name.now).text (lifetime_text (lifetime_view lifetime.now))) (place_of (field_spans (field_view field.now)))) }
{
    if has(held, lifetime) {
        return Ok(());
    }
    let owner = String::from_str(alloc, &name.value)?;
    let kind = DiagKind::LacksLifetime(owner, text_of(alloc, lifetime)?);
    tell(acts, kind, place_of_field(field))
}

// Each that the field lacks is told.
fn tell_all_lacking(
    alloc: Global,
    acts: &mut Vec<Act>,
    field: &Field,
    name: &Name,
    held: &BTreeSet<Lifetime>,
    given: &BTreeSet<Lifetime>,
) -> Result<(), AllocError>
    ensures { OnOk result (acts_view acts.new.items ≡ acts_view acts.old.items ++ lacks_told (field_view field.now) (attr_name name.now) (lifetimes held.now) (lifetimes given.now)) }
{
    for lifetime in given.iter() {
        tell_lacking(alloc, acts, field, name, held, lifetime)?;
    }
    Ok(())
}

// Those lifetimes are borrowed.
fn set_borrowed(acts: &mut Vec<Act>, at: Span, set_to: BTreeSet<Lifetime>) -> Result<(), AllocError>
    ensures { OnOk result (acts_view acts.new.items ≡ acts_view acts.old.items ++ sets (whole (codes "borrow")) at (are_lifetimes (lifetimes set_to)) ∷ []) }
{
    set(acts, Slot::whole(BORROW), at, Value::Lifetimes(set_to))
}

// What a field whose type has those lifetimes borrows: all, or those that are given.
#[tactic(auto, using(crate::proofs::LifetimeSets::held_all, crate::proofs::LifetimeSets::held_given))]
fn borrow_some(
    alloc: Global,
    acts: &mut Vec<Act>,
    field: &Field,
    name: &Name,
    at: Span,
    held: BTreeSet<Lifetime>,
    given: Option<BTreeSet<Lifetime>>,
) -> Result<(), AllocError>
    requires held { lifetimes held ≡ set_of (lifetimes_in_type (field_view field.now).ty) }
    requires some { lifetimes_in_type (field_view field.now).ty ≢ [] }
    ensures { OnOk result (acts_view acts.new.items ≡ acts_view acts.old.items ++ field_borrow (field_view field.now) (attr_name name.now) at (option_map lifetimes given)) }
{
    match given {
        None => set(acts, Slot::whole(BORROW), at, Value::Lifetimes(held)),
        Some(given) => {
            tell_all_lacking(alloc, acts, field, name, &held, &given)?;
            set_borrowed(acts, at, given)?;
            Ok(())
        }
    }
}

// A field without lifetimes is told.
fn tell_none_held(
    alloc: Global,
    acts: &mut Vec<Act>,
    field: &Field,
    name: &Name,
) -> Result<(), AllocError>
    ensures { OnOk result (acts_view acts.new.items ≡ acts_view acts.old.items ++ told_at (no_lifetimes (attr_name name.now).text) (place_of (field_spans (field_view field.now)))) }
{
    let kind = DiagKind::NoLifetimes(String::from_str(alloc, &name.value)?);
    tell(acts, kind, place_of_field(field))
}

/// What a field borrows, by a meta whose path stands there: all the lifetimes of its type, or those that are given.
#[tactic(auto, using(crate::proofs::LifetimeSets::held_none, crate::proofs::LifetimeSets::is_some))]
pub fn borrow_field(
    alloc: Global,
    acts: &mut Vec<Act>,
    field: &Field,
    name: &Name,
    at: Span,
    given: Option<BTreeSet<Lifetime>>,
) -> Result<(), AllocError>
    ensures { OnOk result (acts_view acts.new.items ≡ acts_view acts.old.items ++ field_borrow (field_view field.now) (attr_name name.now) at (option_map lifetimes given)) }
{
    let held = lifetimes_of_type(alloc, &field.ty)?;
    if held.is_empty() {
        tell_none_held(alloc, acts, field, name)?;
        return Ok(());
    }
    borrow_some(alloc, acts, field, name, at, held, given)
}

// What a variant hands on.
fn handed_value(given: Option<BTreeSet<Lifetime>>) -> Value
    ensures { value_view result ≡ borrow_value (option_map lifetimes given) }
{
    match given {
        None => Value::Flag,
        Some(given) => Value::Lifetimes(given),
    }
}

// What a variant borrows, which it hands on to its one field.
fn borrow_variant(
    acts: &mut Vec<Act>,
    variant: &Variant,
    at: Span,
    given: Option<BTreeSet<Lifetime>>,
) -> Result<(), AllocError>
    ensures { OnOk result (acts_view acts.new.items ≡ acts_view acts.old.items ++ variant_borrow (variant_view variant.now) at (option_map lifetimes given)) }
{
    if is_newtype_variant(variant) {
        return set(acts, Slot::whole(BORROW), at, handed_value(given));
    }
    tell(acts, DiagKind::BorrowPlace, place_of_variant(variant))
}

// Whether the variant has one field, without a name.
fn is_newtype_variant(variant: &Variant) -> bool
    ensures { result ≡ is_newtype (variant_view variant.now).fields }
{
    is_newtype(&variant.fields)
}

// What the owner borrows.
fn borrow_set(
    alloc: Global,
    acts: &mut Vec<Act>,
    owner: Owner<'_>,
    at: Span,
    given: Option<BTreeSet<Lifetime>>,
) -> Result<(), AllocError>
    ensures { OnOk result (acts_view acts.new.items ≡ acts_view acts.old.items ++ borrow_set (owner_view owner.entry) at (option_map lifetimes given)) }
{
    match owner {
        Owner::Container(_) => Ok(()),
        Owner::Variant(variant) => borrow_variant(acts, variant, at, given),
        Owner::Field(field, name) => borrow_field(alloc, acts, field, name, at, given),
    }
}

// Lifetimes that are given.
#[tactic(auto, using(attr_acts::proofs::Does::does_then, attr_acts::proofs::Does::does_last, attr_acts::proofs::Does::does_acts))]
fn borrow_given<'a>(
    alloc: Global,
    acts: &mut Vec<Act>,
    owner: Owner<'_>,
    name: Symbol,
    path: &'a [TokenTree],
    end: Span,
    rest: &'a [TokenTree],
) -> Result<Option<&'a [TokenTree]>, AllocError>
    ensures { IfOk result (λ o. Does (acts_view acts.old.items) (acts_view acts.new.items) (option_map (λ t. trees t.now) o) (followed (lifetimes_step lexed name.0.now end (trees rest.now)) (λ ls. does (borrow_set (owner_view owner.entry) (span_of_all (trees path.now)) (Some ls)) []))) }
{
    let Some(given) = lifetimes_step(alloc, acts, name, end, rest)? else {
        return Ok(None);
    };
    borrow_set(alloc, acts, owner, span_of_trees(path), Some(given))?;
    Ok(Some(&[]))
}

// All lifetimes.
#[tactic(auto, using(attr_acts::proofs::Does::does_acts))]
fn borrow_all<'a>(
    alloc: Global,
    acts: &mut Vec<Act>,
    owner: Owner<'_>,
    path: &'a [TokenTree],
    rest: &'a [TokenTree],
) -> Result<Option<&'a [TokenTree]>, AllocError>
    ensures { IfOk result (λ o. Does (acts_view acts.old.items) (acts_view acts.new.items) (option_map (λ t. trees t.now) o) (does (borrow_set (owner_view owner.entry) (span_of_all (trees path.now)) None) (trees rest.now))) }
{
    borrow_set(alloc, acts, owner, span_of_trees(path), None)?;
    Ok(Some(rest))
}

/// Nothing or lifetimes.
pub fn borrow<'a>(
    alloc: Global,
    acts: &mut Vec<Act>,
    owner: Owner<'_>,
    name: Symbol,
    path: &'a [TokenTree],
    end: Span,
    rest: &'a [TokenTree],
) -> Result<Option<&'a [TokenTree]>, AllocError>
    ensures { IfOk result (λ o. Does (acts_view acts.old.items) (acts_view acts.new.items) (option_map (λ t. trees t.now) o) (borrow_step lexed (owner_view owner.entry) name.0.now (trees path.now) end (trees rest.now))) }
{
    if is_sign_next('=', rest) {
        return borrow_given(alloc, acts, owner, name, path, end, rest);
    }
    borrow_all(alloc, acts, owner, path, rest)
}
