//! What is asked at a pair of places: the first row that fits.
ghost use Rattle.std.specs.Prelude.{◌≡◌, Bool, IfOk, option_map};
ghost use Rattle.conversion_table.specs.Conversions.{rule_view};
ghost use Rattle.value_models.specs.TypeView.{type_view};
ghost use Rattle.value_models.specs.VariantView.{variants_view};
ghost use Rattle.evolve_defs.specs.Spots.{from_turn, new_turn, old_turn, option_turn, rows_turn, ruled_turn, spots_turn, untagged_turn};
ghost use Rattle.evolve_rows.specs.FormView.{form_view, home_view, is_any_form};
ghost use Rattle.evolve_rows.specs.PlaceView.{place_view, table_view};
ghost use Rattle.evolve_rows.specs.TurnView.{pair_view, turn_view};

use crate::form::Form;
use crate::kinds::place_kinds;
use crate::lists::one;
use crate::look::look;
use crate::place::{Place, Tables};
use crate::plain::plain_row;
use crate::question::is_scalar;
use crate::rules::given_rule_implies;
use crate::turn::{Broken, Pair, Turn};
use crate::variants::{each_variant, short};
use conversion_table::Rule;
use std::alloc::AllocError;
use value_models::{ValueType, Variant};

// A new option: what the old one holds, nothing for a unit, and else what the old place has.
fn option_row<'a>(
    tables: &Tables<'a>,
    pair: Pair<'a>,
    old: Form<'a>,
    inner: &'a ValueType,
) -> Result<Turn<'a>, AllocError>
    ensures { IfOk result (λ t. turn_view t ≡ option_turn (table_view tables.now.old) (table_view tables.now.new) (place_view pair.entry.old) (place_view pair.entry.new) (form_view old.entry) (type_view inner.now)) }
{
    match old {
        Form::Optional(held) => {
            let turn = one(tables.alloc, Place::Of(held), Place::Of(inner))?;
            Ok(turn)
        }
        Form::Unit => Ok(Turn::Goes(Vec::new(tables.alloc))),
        _ => {
            let turn = one(tables.alloc, pair.old, Place::Of(inner))?;
            Ok(turn)
        }
    }
}

// A new rule asks for an old one that implies it, at a scalar.
fn ruled_row<'a>(
    tables: &Tables<'a>,
    pair: Pair<'a>,
    old: Form<'a>,
    rule: Option<&'a Rule>,
    inner: &'a ValueType,
) -> Result<Turn<'a>, AllocError>
    ensures { IfOk result (λ t. turn_view t ≡ ruled_turn (table_view tables.now.old) (table_view tables.now.new) (place_view pair.entry.old) (place_view pair.entry.new) (form_view old.entry) (option_map (λ r. rule_view r.now) rule.entry) (type_view inner.now)) }
{
    let _pair = pair;
    match old {
        Form::Ruled(old_rule, held) => {
            if !given_rule_implies(old_rule, rule) || !is_scalar(&tables.old, held) {
                return Ok(Turn::Stops(Broken::Rule));
            }
            let turn = one(tables.alloc, Place::Of(held), Place::Of(inner))?;
            Ok(turn)
        }
        _ => Ok(Turn::Stops(Broken::Rule)),
    }
}

fn from_row<'a>(
    tables: &Tables<'a>,
    pair: Pair<'a>,
    old: Form<'a>,
    new: Form<'a>,
) -> Result<Turn<'a>, AllocError>
    ensures { IfOk result (λ t. turn_view t ≡ from_turn (table_view tables.now.old) (table_view tables.now.new) (place_view pair.entry.old) (place_view pair.entry.new) (home_view old.entry) (home_view new.entry) (form_view old.entry) (form_view new.entry)) }
{
    match old {
        Form::Ruled(_, inner) => {
            let turn = one(tables.alloc, Place::Of(inner), pair.new)?;
            Ok(turn)
        }
        _ => {
            let turn = plain_row(tables, old, new)?;
            Ok(turn)
        }
    }
}

// The first new variant that may read values of a kind that the old place reads.
fn untagged_row<'a>(
    tables: &Tables<'a>,
    pair: Pair<'a>,
    home: &'a str,
    variants: &'a [Variant],
) -> Result<Turn<'a>, AllocError>
    ensures { (closed : Bool) → IfOk result (λ t. turn_view t ≡ untagged_turn (table_view tables.now.old) (table_view tables.now.new) (place_view pair.entry.old) (place_view pair.entry.new) home.now closed 0 (variants_view variants.now)) }
{
    let kinds = place_kinds(&tables.old, pair.old);
    for place in 0..variants.len() {
        if kinds.meets(tables.new.models.content_kinds(&variants[place])) {
            let number = short(place)?;
            let turn = one(tables.alloc, pair.old, Place::Variant(home, number))?;
            return Ok(turn);
        }
    }
    Ok(Turn::Stops(Broken::Kind))
}

fn new_row<'a>(
    tables: &Tables<'a>,
    pair: Pair<'a>,
    old: Form<'a>,
    new: Form<'a>,
) -> Result<Turn<'a>, AllocError>
    ensures { IfOk result (λ t. turn_view t ≡ new_turn (table_view tables.now.old) (table_view tables.now.new) (place_view pair.entry.old) (place_view pair.entry.new) (home_view old.entry) (home_view new.entry) (form_view old.entry) (form_view new.entry)) }
{
    match new {
        Form::Optional(inner) => {
            let turn = option_row(tables, pair, old, inner)?;
            Ok(turn)
        }
        Form::Untagged {
            home,
            closed: _,
            variants,
        } => {
            let turn = untagged_row(tables, pair, home, variants.variants())?;
            Ok(turn)
        }
        Form::Ruled(rule, inner) => {
            let turn = ruled_row(tables, pair, old, rule, inner)?;
            Ok(turn)
        }
        _ => {
            let turn = from_row(tables, pair, old, new)?;
            Ok(turn)
        }
    }
}

fn old_row<'a>(
    tables: &Tables<'a>,
    pair: Pair<'a>,
    old: Form<'a>,
    new: Form<'a>,
) -> Result<Turn<'a>, AllocError>
    ensures { IfOk result (λ t. turn_view t ≡ old_turn (table_view tables.now.old) (table_view tables.now.new) (place_view pair.entry.old) (place_view pair.entry.new) (home_view old.entry) (home_view new.entry) (form_view old.entry) (form_view new.entry)) }
{
    match old {
        Form::Untagged {
            home,
            closed: _,
            variants,
        } => {
            let turn = each_variant(tables.alloc, home, variants.variants(), pair.new)?;
            Ok(turn)
        }
        _ => {
            let turn = new_row(tables, pair, old, new)?;
            Ok(turn)
        }
    }
}

fn is_any(form: Form<'_>) -> bool
    ensures { result ≡ is_any_form (form_view form.entry) }
{
    match form {
        Form::Any => true,
        _ => false,
    }
}

#[tactic(auto, using(crate::proofs::AnyValue::any_holds))]
fn rows<'a>(
    tables: &Tables<'a>,
    pair: Pair<'a>,
    old: Form<'a>,
    new: Form<'a>,
) -> Result<Turn<'a>, AllocError>
    ensures { IfOk result (λ t. turn_view t ≡ rows_turn (table_view tables.now.old) (table_view tables.now.new) (place_view pair.entry.old) (place_view pair.entry.new) (home_view old.entry) (home_view new.entry) (form_view old.entry) (form_view new.entry)) }
{
    if is_any(new) {
        return Ok(Turn::Goes(Vec::new(tables.alloc)));
    }
    let turn = old_row(tables, pair, old, new)?;
    Ok(turn)
}

/// What is asked at the pair: the rule that it breaks, or the pairs that it leads to. It fails where memory runs out.
pub fn turn_at<'a>(tables: &Tables<'a>, pair: Pair<'a>) -> Result<Turn<'a>, AllocError>
    ensures { IfOk result (λ t. turn_view t ≡ spots_turn (table_view tables.now.old) (table_view tables.now.new) (pair_view pair.entry)) }
{
    let old = look(&tables.old, pair.old);
    let new = look(&tables.new, pair.new);
    let turn = rows(tables, pair, old, new)?;
    Ok(turn)
}
