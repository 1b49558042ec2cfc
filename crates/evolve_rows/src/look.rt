//! What is seen at a place, through boxes and newtypes without a rule.
ghost use Rattle.std.specs.Prelude.{◌≡◌, Bool, Some, map, option_map, slice_get};
ghost use Rattle.conversion_table.specs.Conversions.{constraint_view, rule_view};
ghost use Rattle.model_defs.specs.Model.{newtype_style, rule_of as rule_of_in};
ghost use Rattle.model_defs.specs.Reads.{allowed};
ghost use Rattle.value_models.specs.TypeView.{type_view};
ghost use Rattle.value_models.specs.ContainerView.{body_view, container_view, tag_view, variants_in};
ghost use Rattle.value_models.specs.VariantView.{fields_in, variant_view};
ghost use Rattle.evolve_defs.specs.Forms.{type_form, item_form, container_form, contents, contents_form, form_of};
ghost use Rattle.evolve_defs.specs.Spots.{type_home, item_home, container_home, container_node, contents_home, home_of, node_at, variant_node};
ghost use Rattle.evolve_defs.specs.Steps.{beside};
ghost use Rattle.evolve_rows.specs.Asking.{enum_form, plain_form, plain_home};
ghost use Rattle.evolve_rows.specs.FormView.{form_view, home_view};
ghost use Rattle.evolve_rows.specs.PlaceView.{table_view, place_view};

use crate::asked::{Asked, asked_by, newtype_of, type_alone};
use crate::form::{Form, Places};
use crate::place::{Place, Table};
use conversion_table::{Constraint, Rule};
use value_models::{Body, Container, Fields, Style, Tag, ValueType, Variant, Variants};

fn rule_of<'a>(constraints: &'a [Constraint], name: &str) -> Option<&'a Rule>
    ensures { option_map (λ r. rule_view r.now) result ≡ rule_of_in name.now (map constraint_view constraints.now) }
{
    for constraint in constraints {
        if name == constraint.item.as_str() {
            return Some(&constraint.rule);
        }
    }
    None
}

fn enum_seen<'a>(home: &'a str, closed: bool, tag: &'a Tag, variants: &'a Variants) -> Form<'a>
    ensures form { form_view result ≡ enum_form closed (tag_view tag.now) (variants_in variants.now) }
    ensures home { home_view result ≡ home.now }
{
    match tag {
        Tag::External => Form::External {
            home,
            closed,
            variants,
        },
        Tag::Internal(tag) => Form::Internal {
            home,
            closed,
            tag,
            variants,
        },
        Tag::Adjacent(tag, content) => Form::Adjacent {
            home,
            closed,
            tag,
            content,
            variants,
        },
        Tag::Untagged => Form::Untagged {
            home,
            closed,
            variants,
        },
    }
}

// A struct of named fields, or an enum.
fn plain<'a>(name: &'a str, container: &'a Container) -> Form<'a>
    ensures form { form_view result ≡ plain_form (container_view container.now).closed (container_view container.now).body }
    ensures home { home_view result ≡ plain_home name.now (container_view container.now).body }
{
    match &container.body {
        Body::Struct(Style::Struct, fields) => Form::Struct {
            closed: container.closed,
            fields: fields.fields(),
        },
        Body::Struct(_, _) => Form::Nothing,
        Body::Enum(tag, variants) => enum_seen(name, container.closed, tag, variants),
    }
}

// What is seen at a type, where so many items may be entered.
#[cycle(look)]
fn look_type<'a>(table: &Table<'a>, left: usize, ty: &'a ValueType) -> Form<'a>
    ensures form { form_view result ≡ type_form (item_form (table_view table.now) left) (type_view ty.now) }
    ensures home { home_view result ≡ type_home (item_home (table_view table.now).models left) (type_view ty.now) }
{
    match asked_by(ty) {
        Asked::Item(name) => look_item(table, left, name),
        Asked::Known(form) => form,
    }
}

#[cycle(look)]
fn look_item<'a>(table: &Table<'a>, left: usize, name: &'a str) -> Form<'a>
    ensures form { form_view result ≡ item_form (table_view table.now) left name.now }
    ensures home { home_view result ≡ item_home (table_view table.now).models left name.now }
{
    if left == 0 {
        return Form::Nothing;
    }
    match table.models.containers.named(name) {
        Some(container) => look_container(table, left - 1, name, container),
        None => Form::Nothing,
    }
}

#[cycle(look)]
fn look_container<'a>(
    table: &Table<'a>,
    left: usize,
    name: &'a str,
    container: &'a Container,
) -> Form<'a>
    ensures form { form_view result ≡ container_form (item_form (table_view table.now) left) (table_view table.now).conversions (Some (container_view container.now)) }
    ensures home { home_view result ≡ container_home (item_home (table_view table.now).models left) name.now (Some (container_view container.now)) }
{
    match newtype_of(&container.body) {
        Some(inner) => {
            if container.try_from {
                return Form::Ruled(
                    rule_of(&table.conversions.constraints, &container.name),
                    inner,
                );
            }
            look_type(table, left, inner)
        }
        None => plain(name, container),
    }
}

// Where all items may be entered.
fn look_fresh<'a>(table: &Table<'a>, ty: &'a ValueType) -> Form<'a>
    ensures form { form_view result ≡ type_form (item_form (table_view table.now) (allowed (table_view table.now).models)) (type_view ty.now) }
    ensures home { home_view result ≡ type_home (item_home (table_view table.now).models (allowed (table_view table.now).models)) (type_view ty.now) }
{
    look_type(table, table.models.containers.count() + 1, ty)
}

// One unnamed field is its type.
#[tactic(auto, using(crate::proofs::Looked::form_alone, crate::proofs::Looked::home_alone, crate::proofs::Looked::form_not_alone, crate::proofs::Looked::home_not_alone))]
fn look_newtype<'a>(table: &Table<'a>, fields: &'a Fields) -> Form<'a>
    ensures form { (closed : Bool) → form_view result ≡ contents_form (item_form (table_view table.now) (allowed (table_view table.now).models)) closed newtype_style (fields_in fields.now) }
    ensures home { home_view result ≡ contents_home (item_home (table_view table.now).models (allowed (table_view table.now).models)) newtype_style (fields_in fields.now) }
{
    match type_alone(fields) {
        Some(inner) => look_fresh(table, inner),
        None => Form::Nothing,
    }
}

// What is seen at the contents of a variant.
fn look_contents<'a>(table: &Table<'a>, closed: bool, variant: &'a Variant) -> Form<'a>
    ensures form { form_view result ≡ form_of (table_view table.now) (contents closed (variant_view variant.now)) }
    ensures home { home_view result ≡ home_of (table_view table.now) (contents closed (variant_view variant.now)) }
{
    match variant.style {
        Style::Struct => Form::Struct {
            closed,
            fields: variant.fields.fields(),
        },
        Style::Tuple => Form::Tuple(Places::Fields(variant.fields.fields())),
        Style::Newtype => look_newtype(table, &variant.fields),
        Style::Unit => Form::Unit,
    }
}

// Beside a tag stand the fields of a struct: a unit has none.
fn look_beside<'a>(table: &Table<'a>, closed: bool, variant: &'a Variant) -> Form<'a>
    ensures form { form_view result ≡ form_of (table_view table.now) (contents closed (beside (variant_view variant.now))) }
    ensures home { home_view result ≡ home_of (table_view table.now) (contents closed (beside (variant_view variant.now))) }
{
    let _table = table;
    match variant.style {
        Style::Struct => Form::Struct {
            closed,
            fields: variant.fields.fields(),
        },
        Style::Unit => Form::Struct {
            closed,
            fields: variant.fields.fields().split_at(0).0,
        },
        Style::Tuple | Style::Newtype => Form::Nothing,
    }
}

fn look_tagged<'a>(table: &Table<'a>, closed: bool, tag: &Tag, variant: &'a Variant) -> Form<'a>
    ensures form { form_view result ≡ form_of (table_view table.now) (variant_node closed (tag_view tag.now) (Some (variant_view variant.now))) }
    ensures home { home_view result ≡ home_of (table_view table.now) (variant_node closed (tag_view tag.now) (Some (variant_view variant.now))) }
{
    match tag {
        Tag::External | Tag::Adjacent(_, _) | Tag::Untagged => look_contents(
            table, closed, variant,
        ),
        Tag::Internal(_) => look_beside(table, closed, variant),
    }
}

/// The variant at a number.
pub(crate) fn variant_at(variants: &Variants, number: u32) -> Option<&Variant>
    ensures { option_map (λ w. variant_view w.now) result ≡ slice_get (variants_in variants.now) number }
{
    variants.variants().get(number as usize)
}

fn look_variant<'a>(table: &Table<'a>, container: &'a Container, number: u32) -> Form<'a>
    ensures form { form_view result ≡ form_of (table_view table.now) (container_node (Some (container_view container.now)) number) }
    ensures home { home_view result ≡ home_of (table_view table.now) (container_node (Some (container_view container.now)) number) }
{
    match &container.body {
        Body::Struct(_, _) => Form::Nothing,
        Body::Enum(tag, variants) => match variant_at(variants, number) {
            Some(variant) => look_tagged(table, container.closed, tag, variant),
            None => Form::Nothing,
        },
    }
}

/// What is seen at the place.
pub(crate) fn look<'a>(table: &Table<'a>, place: Place<'a>) -> Form<'a>
    ensures form { form_view result ≡ form_of (table_view table.now) (node_at (table_view table.now) (place_view place.entry)) }
    ensures home { home_view result ≡ home_of (table_view table.now) (node_at (table_view table.now) (place_view place.entry)) }
{
    match place {
        Place::Of(ty) => look_fresh(table, ty),
        Place::Variant(name, number) => match table.models.containers.named(name) {
            Some(container) => look_variant(table, container, number),
            None => Form::Nothing,
        },
        Place::Nowhere => Form::Nothing,
    }
}
