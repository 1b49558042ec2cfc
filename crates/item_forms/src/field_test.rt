//! What is asked of a field.
ghost use Rattle.std.specs.Prelude.{◌≡◌, ◌&&◌, ◌||◌, not, is_some, map};
ghost use Rattle.syntax_trees.specs.Item.{item_view};
ghost use Rattle.attr_parts.specs.Values.{lacks_default};
ghost use Rattle.container_defs.specs.Reader.{has_name, reads_some, reads_whole};
ghost use Rattle.container_defs.specs.Forms.{names_of, holds, fails, is_own, empties, field_type, is_known_reader, is_known_condition, has_odd_emptiness, has_extras, has_odd_some, has_odd_whole, is_odd_rest};
ghost use Rattle.derive_ast.specs.Views.{field_view};
ghost use Rattle.item_forms.specs.FieldTests.{field_test};

use crate::condition::{empties, is_known_condition, is_known_reader};
use crate::type_form::{is_option, is_text_map};
use attr_parts::Default;
use derive_ast::Field;
use item_models::{has_name, reads_some, reads_whole};
use item_names::ItemNames;

/// What is asked of each field.
#[derive(Clone, Copy)]
pub enum FieldTest {
    /// It has bounds of its own.
    Bound,
    Getter,
    /// It isn't written, or isn't read.
    Skip,
    SerializeWith,
    /// It is read by a function that the reader doesn't know.
    OtherReader,
    /// It isn't written under a condition that the reader doesn't know.
    OtherCondition,
    /// It is a rest with a helper, or that is no map of texts to values.
    OddRest,
    /// It has no name, and a default, a condition or a helper.
    NamelessExtras,
    /// Its type is neither built in nor an item.
    UnknownType,
    /// It is read as what its option holds, and is no option.
    OddSome,
    /// It may not be missing, and has a default.
    OddWhole,
    /// A default or a condition where the other is missing, or a condition that isn't that of the type.
    OddEmptiness,
}

#[tactic(auto, using(item_models::proofs::Lists::some_seen))]
fn is_bound(field: &Field<'_>) -> bool
    ensures { result ≡ (is_some (field_view field.now).attrs.ser_bound || is_some (field_view field.now).attrs.de_bound) }
{
    field.attrs.ser_bound().is_some() || field.attrs.de_bound().is_some()
}

#[tactic(auto, using(item_models::proofs::Lists::some_seen))]
fn has_getter(field: &Field<'_>) -> bool
    ensures { result ≡ is_some (field_view field.now).attrs.getter }
{
    field.attrs.getter().is_some()
}

#[tactic(auto, using(item_models::proofs::Lists::some_seen))]
fn is_written_with(field: &Field<'_>) -> bool
    ensures { result ≡ is_some (field_view field.now).attrs.serialize_with }
{
    field.attrs.serialize_with().is_some()
}

#[tactic(auto, using(item_models::proofs::Lists::some_seen))]
fn is_read_with(field: &Field<'_>) -> bool
    ensures { result ≡ is_some (field_view field.now).attrs.deserialize_with }
{
    field.attrs.deserialize_with().is_some()
}

#[tactic(auto, using(item_models::proofs::Lists::some_seen))]
fn has_condition(field: &Field<'_>) -> bool
    ensures { result ≡ is_some (field_view field.now).attrs.skip_serializing_if }
{
    field.attrs.skip_serializing_if().is_some()
}

#[tactic(auto, using(crate::proofs::Seen::some_failing, crate::proofs::Seen::none_failing))]
fn is_read_otherwise(field: &Field<'_>) -> bool
    ensures { result ≡ fails is_known_reader (field_view field.now).attrs.deserialize_with }
{
    match field.attrs.deserialize_with() {
        Some(path) => !is_known_reader(path),
        None => false,
    }
}

#[tactic(auto, using(crate::proofs::Seen::some_failing, crate::proofs::Seen::none_failing))]
fn has_other_condition(field: &Field<'_>) -> bool
    ensures { result ≡ fails is_known_condition (field_view field.now).attrs.skip_serializing_if }
{
    match field.attrs.skip_serializing_if() {
        Some(path) => !is_known_condition(path),
        None => false,
    }
}

#[tactic(auto, using(crate::proofs::Seen::some_holding, crate::proofs::Seen::none_holding))]
fn reads_inner(field: &Field<'_>) -> bool
    ensures { result ≡ holds reads_some (field_view field.now).attrs.deserialize_with }
{
    match field.attrs.deserialize_with() {
        Some(path) => reads_some(path),
        None => false,
    }
}

#[tactic(auto, using(crate::proofs::Seen::some_holding, crate::proofs::Seen::none_holding))]
fn reads_present(field: &Field<'_>) -> bool
    ensures { result ≡ holds reads_whole (field_view field.now).attrs.deserialize_with }
{
    match field.attrs.deserialize_with() {
        Some(path) => reads_whole(path),
        None => false,
    }
}

#[tactic(auto, using(crate::proofs::Seen::some_holding, crate::proofs::Seen::none_holding))]
fn has_its_condition(field: &Field<'_>) -> bool
    ensures { result ≡ holds (empties (field_type (field_view field.now))) (field_view field.now).attrs.skip_serializing_if }
{
    match field.attrs.skip_serializing_if() {
        Some(path) => empties(field.ty, path),
        None => false,
    }
}

fn has_own_default(field: &Field<'_>) -> bool
    ensures { result ≡ is_own (field_view field.now).attrs.default }
{
    match field.attrs.default() {
        Default::None => false,
        Default::Default => true,
        Default::Path(_) => false,
    }
}

fn lacks_default(field: &Field<'_>) -> bool
    ensures { result ≡ lacks_default (field_view field.now).attrs.default }
{
    field.attrs.default().is_none()
}

fn has_extras(field: &Field<'_>) -> bool
    ensures { result ≡ has_extras (field_view field.now) }
{
    !lacks_default(field) || has_condition(field) || is_read_with(field)
}

fn is_odd_rest(field: &Field<'_>) -> bool
    ensures { result ≡ is_odd_rest (field_view field.now) }
{
    field.attrs.flatten() && (is_read_with(field) || !is_text_map(field.ty))
}

fn has_odd_some(field: &Field<'_>) -> bool
    ensures { result ≡ has_odd_some (field_view field.now) }
{
    reads_inner(field) && !is_option(field.ty)
}

fn has_odd_whole(field: &Field<'_>) -> bool
    ensures { result ≡ has_odd_whole (field_view field.now) }
{
    reads_present(field) && !lacks_default(field)
}

fn has_odd_emptiness(field: &Field<'_>) -> bool
    ensures { result ≡ has_odd_emptiness (field_view field.now) }
{
    (has_own_default(field) || has_condition(field))
        && !(has_own_default(field) && has_its_condition(field))
}

fn has_nameless_extras(field: &Field<'_>) -> bool
    ensures { result ≡ (not (has_name (field_view field.now).member) && has_extras (field_view field.now)) }
{
    !has_name(&field.member) && has_extras(field)
}

/// What the field answers.
pub(crate) fn asked(names: &ItemNames<'_>, test: FieldTest, field: &Field<'_>) -> bool
    ensures { result ≡ field_test (names_of (map item_view names.now.items.now)) test (field_view field.now) }
{
    match test {
        FieldTest::Bound => is_bound(field),
        FieldTest::Getter => has_getter(field),
        FieldTest::Skip => field.attrs.skip_serializing() || field.attrs.skip_deserializing(),
        FieldTest::SerializeWith => is_written_with(field),
        FieldTest::OtherReader => is_read_otherwise(field),
        FieldTest::OtherCondition => has_other_condition(field),
        FieldTest::OddRest => is_odd_rest(field),
        FieldTest::NamelessExtras => has_nameless_extras(field),
        FieldTest::UnknownType => !names.knows(field.ty),
        FieldTest::OddSome => has_odd_some(field),
        FieldTest::OddWhole => has_odd_whole(field),
        FieldTest::OddEmptiness => has_odd_emptiness(field),
    }
}
