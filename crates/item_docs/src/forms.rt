//! What stands below a type.
ghost use Rattle.std.specs.Prelude.{◌≡◌, List, map, option_map};
ghost use Rattle.syntax_trees.specs.Item.{body_view, field_view, fields_view, item_view, ItemD};
ghost use Rattle.model_defs.specs.Types.{item_type};
ghost use Rattle.type_spellings.specs.Types.{array_of, number_of};
ghost use Rattle.value_types.specs.RowView.{held};
ghost use Rattle.value_types.specs.ShapeView.{type_in};
ghost use Rattle.item_docs.specs.Forms.{bare, behind, behind_item, body_form, fields_below, form, form_of, held_alone, held_by, held_by_fields, held_in, item_at, item_form, item_in};
ghost use Rattle.item_docs.specs.FormView.{form_view};

use crate::table::Items;
use syntax_trees::{Data, DeriveInput, Field, Fields, Ty};
use value_types::{Holder, Shape, is_number, shape_of};

/// What stands below a type: the items of a list, the places of a tuple, the members of a map, or the fields of a struct.
#[derive(Clone, Copy)]
pub(crate) enum Form<'a> {
    Each(&'a Ty),
    Places(&'a [Ty]),
    Members(&'a Ty),
    Fields(&'a [Field]),
    Other,
}

// The type, options and boxes aside.
#[cycle(bare)]
#[tactic(auto, using(crate::proofs::Bare::plain_is_bare, crate::proofs::Bare::tuple_is_bare, crate::proofs::Bare::array_is_bare))]
fn bare(ty: &Ty) -> &Ty
    ensures { type_in result.now ≡ bare (type_in ty.now) }
{
    match shape_of(ty) {
        Shape::Plain(_) => ty,
        Shape::Item(_) => ty,
        Shape::Held(holder, inner) => bare_holder(ty, holder, inner),
        Shape::Map(_, _) => ty,
        Shape::Tuple(_) => ty,
        Shape::Array(_, _) => ty,
        Shape::Outside => ty,
    }
}

#[cycle(bare)]
fn bare_holder<'a>(ty: &'a Ty, holder: Holder, inner: &'a Ty) -> &'a Ty
    requires { held holder (type_in inner.now) ≡ type_in ty.now }
    ensures { type_in result.now ≡ bare (type_in ty.now) }
{
    match holder {
        Holder::Optional => bare(inner),
        Holder::Boxed => bare(inner),
        Holder::List => ty,
        Holder::Set => ty,
    }
}

// The item that the type is.
#[tactic(auto, using(crate::proofs::Bare::plain_is_no_item, crate::proofs::Bare::held_is_no_item, crate::proofs::Bare::tuple_is_no_item, crate::proofs::Bare::array_is_no_item))]
pub(crate) fn item_in(ty: &Ty) -> Option<&str>
    ensures { option_map (λ n. n.now) result ≡ item_in (type_in ty.now) }
{
    match shape_of(ty) {
        Shape::Plain(_) => None,
        Shape::Item(name) => Some(name),
        Shape::Held(_, _) => None,
        Shape::Map(_, _) => None,
        Shape::Tuple(_) => None,
        Shape::Array(_, _) => None,
        Shape::Outside => None,
    }
}

/// The item that the type is, options and boxes aside.
pub(crate) fn bare_item(ty: &Ty) -> Option<&str>
    ensures { option_map (λ n. n.now) result ≡ item_in (bare (type_in ty.now)) }
{
    item_in(bare(ty))
}

fn held_alone(fields: &[Field]) -> Option<&Ty>
    ensures { option_map (λ t. type_in t.now) result ≡ held_alone (map field_view fields.now) }
{
    match fields {
        [] => None,
        [field] => Some(&field.ty),
        _ => None,
    }
}

fn held_by_fields(fields: &Fields) -> Option<&Ty>
    ensures { option_map (λ t. type_in t.now) result ≡ held_by_fields (fields_view fields.now) }
{
    match fields {
        Fields::Named(_) => None,
        Fields::Unnamed(fields) => held_alone(fields),
        Fields::Unit => None,
    }
}

// What the item holds, where it is a newtype.
fn held_by(body: &Data) -> Option<&Ty>
    ensures { option_map (λ t. type_in t.now) result ≡ held_by (body_view body.now) }
{
    match body {
        Data::Struct(fields, _) => held_by_fields(fields),
        Data::Enum(_, _) => None,
        Data::Union(_, _) => None,
    }
}

fn held_in(item: Option<&DeriveInput>) -> Option<&Ty>
    ensures { option_map (λ t. type_in t.now) result ≡ held_in (option_map (λ i. item_view i.now) item.entry) }
{
    match item {
        Some(item) => held_by(&item.body),
        None => None,
    }
}

fn fields_below(fields: &Fields) -> Form<'_>
    ensures { form_view result ≡ fields_below (fields_view fields.now) }
{
    match fields {
        Fields::Named(fields) => Form::Fields(fields),
        Fields::Unnamed(_) => Form::Other,
        Fields::Unit => Form::Other,
    }
}

fn body_form(body: &Data) -> Form<'_>
    ensures { form_view result ≡ body_form (body_view body.now) }
{
    match body {
        Data::Struct(fields, _) => fields_below(fields),
        Data::Enum(_, _) => Form::Other,
        Data::Union(_, _) => Form::Other,
    }
}

fn item_form(item: Option<&DeriveInput>) -> Form<'_>
    ensures { form_view result ≡ item_form (option_map (λ i. item_view i.now) item.entry) }
{
    match item {
        Some(item) => body_form(&item.body),
        None => Form::Other,
    }
}

fn held_form(holder: Holder, inner: &Ty) -> Form<'_>
    ensures { (is : List ItemD) → form_view result ≡ form_of is (held holder (type_in inner.now)) }
{
    match holder {
        Holder::Optional => Form::Other,
        Holder::Boxed => Form::Other,
        Holder::List => Form::Each(inner),
        Holder::Set => Form::Each(inner),
    }
}

#[tactic(auto, using(crate::proofs::Bare::array_of_each, crate::proofs::Bare::array_of_none))]
fn array_form<'a>(each: &'a Ty, digits: &str) -> Form<'a>
    ensures { (is : List ItemD) → form_view result ≡ form_of is (array_of (type_in each.now) (number_of digits.now)) }
{
    if is_number(digits.as_bytes()) {
        return Form::Each(each);
    }
    Form::Other
}

impl<'a> Items<'a> {
    // What a bare type is behind a newtype.
    fn behind_item(&self, ty: &'a Ty, item: Option<&str>) -> &'a Ty
        ensures { type_in result.now ≡ behind_item (map item_view self.now.items.now) (type_in ty.now) (option_map (λ n. n.now) item.entry) }
    {
        match item {
            Some(name) => self.behind_named(ty, name),
            None => ty,
        }
    }

    fn behind_named(&self, ty: &'a Ty, name: &str) -> &'a Ty
        ensures { type_in result.now ≡ behind_item (map item_view self.now.items.now) (type_in ty.now) (Some name.now) }
    {
        match held_in(self.item(name)) {
            Some(inner) => inner,
            None => ty,
        }
    }

    fn behind(&self, ty: &'a Ty) -> &'a Ty
        ensures { type_in result.now ≡ behind (map item_view self.now.items.now) (type_in ty.now) }
    {
        let ty = bare(ty);
        self.behind_item(ty, item_in(ty))
    }

    // What stands below a bare type.
    #[tactic(auto, using(crate::proofs::Bare::plain_form, crate::proofs::Bare::tuple_form))]
    fn form_of(&self, ty: &'a Ty) -> Form<'a>
        ensures { form_view result ≡ form_of (map item_view self.now.items.now) (type_in ty.now) }
    {
        match shape_of(ty) {
            Shape::Plain(_) => Form::Other,
            Shape::Item(name) => item_form(self.item(name)),
            Shape::Held(holder, inner) => held_form(holder, inner),
            Shape::Map(_, value) => Form::Members(value),
            Shape::Tuple(places) => Form::Places(places),
            Shape::Array(each, digits) => array_form(each, digits),
            Shape::Outside => Form::Other,
        }
    }

    /// What stands below a type, behind no more than three newtypes.
    pub(crate) fn form(&self, ty: &'a Ty) -> Form<'a>
        ensures { form_view result ≡ form (map item_view self.now.items.now) (type_in ty.now) }
    {
        self.form_behind(self.behind(self.behind(ty)))
    }

    // What stands below a type, behind no more than one newtype.
    fn form_behind(&self, ty: &'a Ty) -> Form<'a>
        ensures { form_view result ≡ form_of (map item_view self.now.items.now) (bare (behind (map item_view self.now.items.now) (type_in ty.now))) }
    {
        self.form_of(bare(self.behind(ty)))
    }

    #[tactic(auto, using(crate::proofs::Bare::behind_one, crate::proofs::Bare::behind_none))]
    /// What stands below an item, behind no more than three newtypes.
    pub(crate) fn form_of_item(&self, item: &str) -> Form<'a>
        ensures { form_view result ≡ form (map item_view self.now.items.now) (item_type item.now) }
    {
        let found = self.item(item);
        match held_in(found) {
            Some(inner) => self.form_behind(self.behind(inner)),
            None => item_form(found),
        }
    }
}
