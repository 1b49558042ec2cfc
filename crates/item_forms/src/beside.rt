//! Fields beside one another: names that come twice, and rests.
ghost use Rattle.std.specs.Prelude.{◌≡◌, not, bytes_eq, map, IfOk};
ghost use Rattle.std.specs.List.{list_any};
ghost use Rattle.std.specs.BTreeSet.{keys};
ghost use Rattle.attr_parts.specs.Names.{attr_name};
ghost use Rattle.container_defs.specs.Forms.{field_lists, written_name, repeats_name, rests, is_unread, has_unread, is_empty};
ghost use Rattle.derive_ast.specs.Views.{field_view, variant_view, data_view};
ghost use Rattle.item_forms.specs.Counts.{count_of, one_more};
ghost use Rattle.item_forms.specs.ListTests.{list_test};

use attr_parts::Name;
use derive_ast::{Data, Field, Variant};
use std::alloc::{AllocError, Global};
use std::collections::BTreeSet;

/// How many there are.
#[derive(Clone, Copy)]
pub(crate) enum Count {
    None,
    One,
    Several,
}

/// What is asked of fields beside one another.
#[derive(Clone, Copy)]
pub enum ListTest {
    /// A written name comes twice.
    RepeatsName,
    /// Beside a rest, a field isn't read by the name by which it is written.
    Unread,
}

fn name_of<'a>(field: &'a Field<'_>) -> &'a str
    ensures { result.now ≡ written_name (field_view field.now) }
{
    field.attrs.name().serialize.value.as_str()
}

// The names of the fields before are kept in order, so that each name is looked up among them.
#[tactic(auto, using(crate::proofs::Named::none_seen, crate::proofs::Named::new_seen, crate::proofs::Named::seen_before, crate::proofs::Named::all_seen))]
fn repeats_name(alloc: Global, fields: &[Field<'_>]) -> Result<bool, AllocError>
    ensures { IfOk result (λ r. r ≡ repeats_name (map field_view fields.now)) }
{
    let mut seen = BTreeSet::new(alloc);
    for field in fields {
        if !seen.insert(name_of(field))? {
            return Ok(true);
        }
    }
    Ok(false)
}

fn one_more(count: Count) -> Count
    ensures { result ≡ one_more count }
{
    match count {
        Count::None => Count::One,
        Count::One => Count::Several,
        Count::Several => Count::Several,
    }
}

/// How many of the fields are rests.
#[tactic(auto, using(crate::proofs::Rests::plain_turn, crate::proofs::Rests::rest_turn, crate::proofs::Rests::count_end, crate::proofs::Rests::counted))]
pub(crate) fn count_rests(fields: &[Field<'_>]) -> Count
    ensures { result ≡ count_of (rests (map field_view fields.now)) }
{
    let mut count = Count::None;
    for field in fields {
        if field.attrs.flatten() {
            count = one_more(count);
        }
    }
    count
}

/// Whether one of the fields is a rest.
#[tactic(auto, using(crate::proofs::Rests::none_counted, crate::proofs::Rests::one_counted, crate::proofs::Rests::several_counted))]
pub(crate) fn has_rest(fields: &[Field<'_>]) -> bool
    ensures { result ≡ not (is_empty (rests (map field_view fields.now))) }
{
    match count_rests(fields) {
        Count::None => false,
        Count::One => true,
        Count::Several => true,
    }
}

fn is_read_by(names: &BTreeSet<Name>, name: &str) -> bool
    ensures { result ≡ list_any (bytes_eq name.now) (map (λ n. n.text) (map attr_name (keys names.now))) }
{
    for other in names.iter() {
        if name == other.value.as_str() {
            return true;
        }
    }
    false
}

fn is_unread(field: &Field<'_>) -> bool
    ensures { result ≡ is_unread (field_view field.now) }
{
    !field.attrs.flatten() && !is_read_by(field.attrs.aliases(), name_of(field))
}

fn any_unread(fields: &[Field<'_>]) -> bool
    ensures { result ≡ list_any is_unread (map field_view fields.now) }
{
    for field in fields {
        if is_unread(field) {
            return true;
        }
    }
    false
}

// Whether there is a rest, and a field that isn't read by the name by which it is written.
fn has_unread(fields: &[Field<'_>]) -> bool
    ensures { result ≡ has_unread (map field_view fields.now) }
{
    has_rest(fields) && any_unread(fields)
}

// What the fields answer.
fn asked(alloc: Global, test: ListTest, fields: &[Field<'_>]) -> Result<bool, AllocError>
    ensures { IfOk result (λ r. r ≡ list_test test (map field_view fields.now)) }
{
    match test {
        ListTest::RepeatsName => {
            let repeats = repeats_name(alloc, fields)?;
            Ok(repeats)
        }
        ListTest::Unread => Ok(has_unread(fields)),
    }
}

fn any_in(alloc: Global, test: ListTest, variants: &[Variant<'_>]) -> Result<bool, AllocError>
    ensures { IfOk result (λ r. r ≡ list_any (list_test test) (map (λ v. v.fields) (map variant_view variants.now))) }
{
    for variant in variants {
        if asked(alloc, test, &variant.fields)? {
            return Ok(true);
        }
    }
    Ok(false)
}

/// Whether the fields of the struct, or those of a variant, answer yes. It fails where memory runs out: names are looked up in order.
pub fn any_fields(alloc: Global, test: ListTest, body: &Data<'_>) -> Result<bool, AllocError>
    ensures { IfOk result (λ r. r ≡ list_any (list_test test) (field_lists (data_view body.now))) }
{
    match body {
        Data::Enum(variants) => {
            let found = any_in(alloc, test, variants)?;
            Ok(found)
        }
        Data::Struct(_, fields) => {
            let found = asked(alloc, test, fields)?;
            Ok(found)
        }
    }
}
