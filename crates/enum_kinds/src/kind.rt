//! The kinds of values that a schema leaves open.
ghost use Rattle.std.specs.Prelude.{◌≡◌, Some, option_map, string_bytes};
ghost use Rattle.schema_defs.specs.Children.{reference_of as reference_in};
ghost use Rattle.schema_defs.specs.Schema.{schemas as schemas_of};
ghost use Rattle.schema_defs.specs.Walks.{IsGuarded};
ghost use Rattle.schema_types.specs.DocumentView.{document_view};
ghost use Rattle.schema_types.specs.View.{schema_view, schemas_view, subschemas_view, maybe_list_view, same_of};
ghost use Rattle.enum_defs.specs.Kinds.{kinds as kinds_in, kinds_beyond, kinds_of_same, kinds_of_all as kinds_of_all_in, kinds_of_some as kinds_of_some_in, kinds_meet, kinds_union, null_free as null_free_in};
ghost use Rattle.enum_kinds.specs.Here.{kinds_here as kinds_here_in};

use crate::alone::reference_of;
use crate::asked::Asked;
use crate::set::{every_kind, join, meet, no_kind, own_kinds};
use enum_defs::KindSet;
use schema_types::{Document, Schema, Subschemas};

/// The kinds of values that a schema leaves open by `type`, `enum`, `const`, `$ref`, `allOf`, `anyOf` and `oneOf`, and
/// by those of the schemas that these lead to; `false` leaves none open. A definition is asked once as long as there is
/// memory to keep what it leaves open.
pub fn kinds(document: &Document, schema: &Schema) -> KindSet
    requires { IsGuarded (document_view document.now) }
    ensures { result ≡ kinds_in (document_view document.now) (schema_view schema.now) }
{
    let mut asked = Asked::new(document);
    kinds_of(document, &mut asked, schema)
}

/// Whether a schema doesn't leave null open.
pub fn null_free(document: &Document, schema: &Schema) -> bool
    requires { IsGuarded (document_view document.now) }
    ensures { result ≡ null_free_in (document_view document.now) (schema_view schema.now) }
{
    !kinds(document, schema).null
}

#[cycle(kinds)]
pub(crate) fn kinds_of(document: &Document, asked: &mut Asked<'_>, schema: &Schema) -> KindSet
    requires guarded { IsGuarded (document_view document.now) }
    requires asked { asked.now.document.now ≡ document.now }
    ensures answer { result ≡ kinds_in (document_view document.now) (schema_view schema.now) }
    ensures asked { asked.new.document.now ≡ document.now }
{
    let here = kinds_here(document, asked, schema);
    let Some(reference) = reference_of(schema) else {
        return here;
    };
    meet(here, kinds_behind(document, asked, schema, reference))
}

// What the reference of a schema leaves open.
#[cycle(kinds)]
fn kinds_behind(
    document: &Document,
    asked: &mut Asked<'_>,
    schema: &Schema,
    reference: &String,
) -> KindSet
    requires guarded { IsGuarded (document_view document.now) }
    requires asked { asked.now.document.now ≡ document.now }
    requires refers { reference_in (schema_view schema.now) ≡ Some (string_bytes reference.now) }
    ensures answer { result ≡ kinds_beyond (document_view document.now) (string_bytes reference.now) }
    ensures asked { asked.new.document.now ≡ document.now }
{
    if let Some(kinds) = asked.get(reference) {
        return kinds;
    }
    let Some(target) = document.target(reference.as_str()) else {
        return no_kind();
    };
    let kinds = kinds_along(document, asked, target);
    asked.keep(reference, kinds);
    kinds
}

// References are followed by a loop, so that a chain of them takes no stack.
#[cycle(kinds)]
fn kinds_along(document: &Document, asked: &mut Asked<'_>, schema: &Schema) -> KindSet
    requires guarded { IsGuarded (document_view document.now) }
    requires asked { asked.now.document.now ≡ document.now }
    ensures answer { result ≡ kinds_in (document_view document.now) (schema_view schema.now) }
    ensures asked { asked.new.document.now ≡ document.now }
{
    let mut kinds = every_kind();
    let mut at = schema;
    'references: loop {
        let here = kinds_here(document, asked, at);
        let so_far = meet(kinds, here);
        let Some(reference) = reference_of(at) else {
            return so_far;
        };
        if let Some(rest) = asked.get(reference) {
            return meet(so_far, rest);
        }
        let Some(target) = document.target(reference.as_str()) else {
            return no_kind();
        };
        kinds = so_far;
        at = target;
    }
}

// What a schema leaves open without its reference.
#[cycle(kinds)]
fn kinds_here(document: &Document, asked: &mut Asked<'_>, schema: &Schema) -> KindSet
    requires guarded { IsGuarded (document_view document.now) }
    requires asked { asked.now.document.now ≡ document.now }
    ensures answer { result ≡ kinds_here_in (kinds_beyond (document_view document.now)) (schema_view schema.now) }
    ensures asked { asked.new.document.now ≡ document.now }
{
    let own = own_kinds(schema);
    match schema {
        Schema::Bool(_) => own,
        Schema::Object(object) => meet(
            own,
            kinds_of_subschemas(document, asked, &object.subschemas),
        ),
    }
}

#[cycle(kinds)]
fn kinds_of_subschemas(
    document: &Document,
    asked: &mut Asked<'_>,
    subschemas: &Option<Subschemas>,
) -> KindSet
    requires guarded { IsGuarded (document_view document.now) }
    requires asked { asked.now.document.now ≡ document.now }
    ensures answer { result ≡ kinds_of_same (kinds_beyond (document_view document.now)) (same_of (option_map subschemas_view subschemas.now)) }
    ensures asked { asked.new.document.now ≡ document.now }
{
    match subschemas {
        None => every_kind(),
        Some(lists) => {
            let all = kinds_of_all(document, asked, &lists.all_of);
            let any = kinds_of_some(document, asked, &lists.any_of);
            let one = kinds_of_some(document, asked, &lists.one_of);
            meet(all, meet(any, one))
        }
    }
}

// What all members of `allOf` leave open.
#[cycle(kinds)]
fn kinds_of_all(
    document: &Document,
    asked: &mut Asked<'_>,
    schemas: &Option<Vec<Schema>>,
) -> KindSet
    requires guarded { IsGuarded (document_view document.now) }
    requires asked { asked.now.document.now ≡ document.now }
    ensures answer { result ≡ kinds_of_all_in (kinds_beyond (document_view document.now)) (maybe_list_view (option_map (λ v. v.items) schemas.now)) }
    ensures asked { asked.new.document.now ≡ document.now }
{
    match schemas {
        None => every_kind(),
        Some(list) => meet_of(document, asked, list),
    }
}

// What one of the members of `anyOf` or `oneOf` leaves open.
#[cycle(kinds)]
fn kinds_of_some(
    document: &Document,
    asked: &mut Asked<'_>,
    schemas: &Option<Vec<Schema>>,
) -> KindSet
    requires guarded { IsGuarded (document_view document.now) }
    requires asked { asked.now.document.now ≡ document.now }
    ensures answer { result ≡ kinds_of_some_in (kinds_beyond (document_view document.now)) (maybe_list_view (option_map (λ v. v.items) schemas.now)) }
    ensures asked { asked.new.document.now ≡ document.now }
{
    match schemas {
        None => every_kind(),
        Some(list) => union_of(document, asked, list),
    }
}

#[cycle(kinds)]
fn meet_of(document: &Document, asked: &mut Asked<'_>, list: &Vec<Schema>) -> KindSet
    requires guarded { IsGuarded (document_view document.now) }
    requires asked { asked.now.document.now ≡ document.now }
    ensures answer { result ≡ kinds_meet (kinds_beyond (document_view document.now)) (schemas_of (schemas_view list.now.items)) }
    ensures asked { asked.new.document.now ≡ document.now }
{
    let mut kinds = every_kind();
    let mut left = list.as_slice();
    'members: while let Some((schema, rest)) = left.split_first() {
        kinds = meet(kinds, kinds_of(document, asked, schema));
        left = rest;
    }
    kinds
}

#[cycle(kinds)]
fn union_of(document: &Document, asked: &mut Asked<'_>, list: &Vec<Schema>) -> KindSet
    requires guarded { IsGuarded (document_view document.now) }
    requires asked { asked.now.document.now ≡ document.now }
    ensures answer { result ≡ kinds_union (kinds_beyond (document_view document.now)) (schemas_of (schemas_view list.now.items)) }
    ensures asked { asked.new.document.now ≡ document.now }
{
    let mut kinds = no_kind();
    let mut left = list.as_slice();
    'members: while let Some((schema, rest)) = left.split_first() {
        kinds = join(kinds, kinds_of(document, asked, schema));
        left = rest;
    }
    kinds
}
