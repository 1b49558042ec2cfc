//! The fields of a container's body, one after the other.
ghost use Rattle.std.specs.Prelude.{◌≡◌, ◌∷◌, [], drop, map, MatchOption};
ghost use Rattle.container_defs.specs.Container.{all_fields as fields_told};
ghost use Rattle.derive_ast.specs.InOrder.{fields_of, fields_left, rows_from};
ghost use Rattle.derive_ast.specs.Left.{left};
ghost use Rattle.derive_ast.specs.Views.{field_view, data_view};

use crate::container::{Data, Field, Variant};

/// The fields of a body that are left, from a variant, and from a field of it, on.
#[derive(Drop)]
pub struct AllFields<'a> {
    body: &'a Data<'a>,
    variant: usize,
    field: usize,
}

// A field, and the place behind it.
#[derive(Clone, Copy)]
struct Step<'a> {
    found: &'a Field<'a>,
    variant: usize,
    field: usize,
}

// The first field of the variants from there on.
fn first_of_rows<'a>(variants: &'a [Variant<'a>], variant: usize, field: usize) -> Option<Step<'a>>
    ensures { MatchOption result (rows_from field (drop variant variants.now) ≡ []) (λ s. rows_from field (drop variant variants.now) ≡ s.found.now ∷ rows_from s.field (drop s.variant variants.now)) }
{
    let mut start = field;
    for at in variant..variants.len() {
        if start < variants[at].fields.len() {
            return Some(Step {
                found: &variants[at].fields[start],
                variant: at,
                field: start + 1,
            });
        }
        start = 0;
    }
    None
}

// The first field of a list from there on.
#[tactic(auto, using(crate::proofs::Rows::list_found, crate::proofs::Rows::none_behind))]
fn first_of_list<'a>(fields: &'a [Field<'a>], field: usize) -> Option<Step<'a>>
    ensures { MatchOption result (drop field fields.now ≡ []) (λ s. drop field fields.now ≡ s.found.now ∷ drop s.field fields.now) }
{
    if field < fields.len() {
        return Some(Step {
            found: &fields[field],
            variant: 0,
            field: field + 1,
        });
    }
    None
}

// The first field of the body from there on.
fn first_of_body<'a>(body: &'a Data<'a>, variant: usize, field: usize) -> Option<Step<'a>>
    ensures { MatchOption result (fields_left body.now variant field ≡ []) (λ s. fields_left body.now variant field ≡ s.found.now ∷ fields_left body.now s.variant s.field) }
{
    match body {
        Data::Enum(variants) => first_of_rows(variants, variant, field),
        Data::Struct(_, fields) => first_of_list(fields, field),
    }
}

impl<'a> AllFields<'a> {
    /// The first field that is left, or nothing once none is. It takes no memory.
    pub fn next(&mut self) -> Option<&'a Field<'a>>
        ensures { MatchOption result ((left self.old ≡ []) × (left self.new ≡ [])) (λ f. left self.old ≡ f.now ∷ left self.new) }
    {
        match first_of_body(self.body, self.variant, self.field) {
            Some(step) => {
                self.variant = step.variant;
                self.field = step.field;
                Some(step.found)
            }
            None => None,
        }
    }
}

impl<'a> Data<'a> {
    /// The fields in order, those of an enum variant by variant. It takes no memory.
    pub fn all_fields(&self) -> AllFields<'_>
        ensures fields { left result ≡ fields_of self.now }
        ensures told { map field_view (left result) ≡ fields_told (data_view self.now) }
    {
        AllFields {
            body: self,
            variant: 0,
            field: 0,
        }
    }
}
