//! What is asked of a container itself.
ghost use Rattle.std.specs.Prelude.{◌≡◌, ◌&&◌, ◌||◌, not, is_some, map};
ghost use Rattle.std.specs.List.{list_any};
ghost use Rattle.syntax_trees.specs.Item.{item_view};
ghost use Rattle.attr_parts.specs.Values.{tag_view};
ghost use Rattle.container_defs.specs.Forms.{names_of, is_generic, is_remote, has_from, has_into, has_container_default, is_external, is_tagged_struct, is_an_identifier, odd_rests, rests, is_empty, has_odd_flatten, lacks_row, has_one_form, stands_beside, has_no_row, is_transparent_with_names};
ghost use Rattle.container_defs.specs.Checks.{is_struct, is_one};
ghost use Rattle.derive_ast.specs.Views.{field_view, variant_view, data_view, container_view};
ghost use Rattle.item_forms.specs.ContainerTests.{container_test};

use crate::beside::{Count, count_rests, has_rest};
use attr_parts::TagType;
use container_defs::Style;
use derive_ast::{Container, Data, Field, Variant};
use item_names::ItemNames;

/// What is asked of a container itself.
#[derive(Clone, Copy)]
pub enum ContainerTest {
    /// It has parameters.
    Generic,
    /// It has bounds of its own.
    Bound,
    Remote,
    From,
    Into,
    /// It has a default.
    Default,
    /// It is a struct with a tag.
    TaggedStruct,
    /// It is a field's or a variant's identifier.
    Identifier,
    /// It has a rest that isn't the one of an open struct with named fields.
    OddFlatten,
    /// It is transparent, and its fields have names.
    TransparentWithNames,
    /// Its name isn't that of one item alone.
    NamedTwice,
    /// No row says how it is read.
    NoRow,
}

fn is_generic(container: &Container<'_>) -> bool
    ensures { result ≡ is_generic (container_view container.now) }
{
    match container.generics.params.as_slice() {
        [] => false,
        _ => true,
    }
}

#[tactic(auto, using(item_models::proofs::Lists::some_seen))]
fn is_bound(container: &Container<'_>) -> bool
    ensures { result ≡ (is_some (container_view container.now).attrs.ser_bound || is_some (container_view container.now).attrs.de_bound) }
{
    container.attrs.ser_bound().is_some() || container.attrs.de_bound().is_some()
}

#[tactic(auto, using(item_models::proofs::Lists::some_seen))]
fn is_remote(container: &Container<'_>) -> bool
    ensures { result ≡ is_remote (container_view container.now) }
{
    container.attrs.remote().is_some()
}

#[tactic(auto, using(item_models::proofs::Lists::some_seen))]
fn has_from(container: &Container<'_>) -> bool
    ensures { result ≡ has_from (container_view container.now) }
{
    container.attrs.type_from().is_some()
}

#[tactic(auto, using(item_models::proofs::Lists::some_seen))]
fn has_into(container: &Container<'_>) -> bool
    ensures { result ≡ has_into (container_view container.now) }
{
    container.attrs.type_into().is_some()
}

fn has_default(container: &Container<'_>) -> bool
    ensures { result ≡ has_container_default (container_view container.now) }
{
    !container.attrs.default().is_none()
}

fn is_external(tag: &TagType) -> bool
    ensures { result ≡ is_external (tag_view tag.now) }
{
    match tag {
        TagType::External => true,
        TagType::Internal { .. } => false,
        TagType::Adjacent { .. } => false,
        TagType::None => false,
    }
}

fn is_tagged_struct(container: &Container<'_>) -> bool
    ensures { result ≡ is_tagged_struct (container_view container.now) }
{
    match &container.body {
        Data::Enum(_) => false,
        Data::Struct(_, _) => !is_external(container.attrs.tag()),
    }
}

fn is_identifier(container: &Container<'_>) -> bool
    ensures { result ≡ is_an_identifier (container_view container.now) }
{
    container.attrs.identifier().is_some()
}

fn is_struct(style: Style) -> bool
    ensures { result ≡ is_struct style }
{
    match style {
        Style::Struct => true,
        Style::Tuple => false,
        Style::Newtype => false,
        Style::Unit => false,
    }
}

fn any_rest(variants: &[Variant<'_>]) -> bool
    ensures { result ≡ list_any (λ v. not (is_empty (rests v.fields))) (map variant_view variants.now) }
{
    for variant in variants {
        if has_rest(&variant.fields) {
            return true;
        }
    }
    false
}

fn odd_rests(closed: bool, style: Style, fields: &[Field<'_>]) -> bool
    ensures { result ≡ (not (is_empty (rests (map field_view fields.now))) && not (is_struct style && not closed && is_one (rests (map field_view fields.now)))) }
{
    match count_rests(fields) {
        Count::None => false,
        Count::One => !(is_struct(style) && !closed),
        Count::Several => true,
    }
}

fn has_odd_flatten(container: &Container<'_>) -> bool
    ensures { result ≡ has_odd_flatten (container_view container.now) }
{
    match &container.body {
        Data::Enum(variants) => any_rest(variants),
        Data::Struct(style, fields) => {
            odd_rests(container.attrs.deny_unknown_fields(), *style, fields)
        }
    }
}

fn is_transparent_with_names(container: &Container<'_>) -> bool
    ensures { result ≡ is_transparent_with_names (container_view container.now) }
{
    match &container.body {
        Data::Enum(_) => false,
        Data::Struct(style, _) => container.attrs.transparent() && is_struct(*style),
    }
}

fn lacks_row(style: Style) -> bool
    ensures { result ≡ lacks_row style }
{
    match style {
        Style::Struct => false,
        Style::Tuple => true,
        Style::Newtype => false,
        Style::Unit => true,
    }
}

fn has_one_form(style: Style) -> bool
    ensures { result ≡ has_one_form style }
{
    match style {
        Style::Struct => true,
        Style::Tuple => false,
        Style::Newtype => false,
        Style::Unit => true,
    }
}

fn stands_beside(tag: &TagType, style: Style) -> bool
    ensures { result ≡ stands_beside (tag_view tag.now) style }
{
    match tag {
        TagType::External => true,
        TagType::Internal { .. } => has_one_form(style),
        TagType::Adjacent { .. } => true,
        TagType::None => true,
    }
}

fn any_elsewhere(tag: &TagType, variants: &[Variant<'_>]) -> bool
    ensures { result ≡ list_any (λ v. not (stands_beside (tag_view tag.now) v.style)) (map variant_view variants.now) }
{
    for variant in variants {
        if !stands_beside(tag, variant.style) {
            return true;
        }
    }
    false
}

fn has_no_row(container: &Container<'_>) -> bool
    ensures { result ≡ has_no_row (container_view container.now) }
{
    match &container.body {
        Data::Enum(variants) => any_elsewhere(container.attrs.tag(), variants),
        Data::Struct(style, _) => lacks_row(*style),
    }
}

/// What the container answers.
pub fn asked_of(names: &ItemNames<'_>, test: ContainerTest, container: &Container<'_>) -> bool
    ensures { result ≡ container_test (names_of (map item_view names.now.items.now)) test (container_view container.now) }
{
    match test {
        ContainerTest::Generic => is_generic(container),
        ContainerTest::Bound => is_bound(container),
        ContainerTest::Remote => is_remote(container),
        ContainerTest::From => has_from(container),
        ContainerTest::Into => has_into(container),
        ContainerTest::Default => has_default(container),
        ContainerTest::TaggedStruct => is_tagged_struct(container),
        ContainerTest::Identifier => is_identifier(container),
        ContainerTest::OddFlatten => has_odd_flatten(container),
        ContainerTest::TransparentWithNames => is_transparent_with_names(container),
        ContainerTest::NamedTwice => !names.is_single(&container.ident.text),
        ContainerTest::NoRow => has_no_row(container),
    }
}
