//! Fields, places and variants, one after another.
ghost use Rattle.std.specs.Prelude.{◌≡◌, ◌≤◌, false, Some, IfOk, codes, length, map, take};
ghost use Rattle.entry_defs.specs.Entry.{Entries, Fields, Variants, entry_then, field_then, no_fields, rest_field, variant_then};
ghost use Rattle.model_defs.specs.Model.{TagModel};
ghost use Rattle.convert_defs.specs.Convert.{alike_fields, alike_entries};
ghost use Rattle.row_findings.specs.View.{state_view};
ghost use Rattle.tree_types.specs.View.{label_view, places_view, places_then, fields_view, rest_fields, variants_then, contents_view, tree_view, parts_of, cases_of};
ghost use Rattle.tree_parts.specs.Lists.{fields_again, places_again};

use crate::build::label;
use row_findings::FieldState;
use std::alloc::{AllocError, Global};
use tree_types::{ContentKind, FieldHead, Label, Tree, VariantHead};

pub(crate) fn head<'d>(name: &'d str, state: FieldState<'d>) -> FieldHead<'d>
    ensures name { label_view result.label ≡ name.now }
    ensures wanted { result.label.wanted.now ≡ name.now }
    ensures state { state_view result.state ≡ state_view state.entry }
{
    FieldHead {
        label: label(name),
        state,
    }
}

/// The fields, and one more.
#[tactic(auto, using(crate::proofs::Pushed::field_pushed))]
pub fn with_field<'d>(
    mut fields: Vec<(FieldHead<'d>, Option<Tree<'d>>)>,
    name: &'d str,
    state: FieldState<'d>,
    tree: Tree<'d>,
) -> Result<Vec<(FieldHead<'d>, Option<Tree<'d>>)>, AllocError>
    ensures { IfOk result (λ fs. (more : Fields) → fields_view (parts_of fs.items) more ≡ fields_view (parts_of fields.entry.items) (field_then name.now name.now (tree_view tree.entry) (state_view state.entry) more)) }
{
    fields.push((head(name, state), Some(tree)))?;
    Ok(fields)
}

/// The places, and one more.
#[tactic(auto, using(crate::proofs::Pushed::place_pushed))]
pub fn with_place<'d>(
    mut places: Vec<(FieldHead<'d>, Option<Tree<'d>>)>,
    tree: Tree<'d>,
) -> Result<Vec<(FieldHead<'d>, Option<Tree<'d>>)>, AllocError>
    ensures { IfOk result (λ ps. (more : Entries) → places_then (parts_of ps.items) more ≡ places_then (parts_of places.entry.items) (entry_then (tree_view tree.entry) more)) }
{
    places.push((head("", FieldState::Required), Some(tree)))?;
    Ok(places)
}

fn variant_head<'d>(name: &'d str, kind: ContentKind) -> VariantHead<'d>
    ensures name { label_view result.label ≡ name.now }
    ensures wanted { result.label.wanted.now ≡ name.now }
    ensures kind { result.kind ≡ kind }
{
    VariantHead {
        label: label(name),
        kind,
    }
}

/// The variants, and one more, by its wanted name, which is also its name in JSON.
#[tactic(auto, using(crate::proofs::Pushed::variant_pushed))]
pub fn with_variant<'d>(
    mut variants: Vec<(VariantHead<'d>, Vec<(FieldHead<'d>, Option<Tree<'d>>)>)>,
    name: &'d str,
    kind: ContentKind,
    parts: Vec<(FieldHead<'d>, Option<Tree<'d>>)>,
) -> Result<Vec<(VariantHead<'d>, Vec<(FieldHead<'d>, Option<Tree<'d>>)>)>, AllocError>
    ensures { IfOk result (λ ws. (tag : TagModel) (more : Variants) → variants_then tag (cases_of ws.items) more ≡ variants_then tag (cases_of variants.entry.items) (variant_then name.now name.now (contents_view kind (parts_of parts.entry.items)) more)) }
{
    variants.push((variant_head(name, kind), parts))?;
    Ok(variants)
}

// The places, and then so many with the entry of the next.
#[tactic(auto, using(crate::proofs::Pushed::places_turn))]
fn with_places_again<'d>(
    mut places: Vec<(FieldHead<'d>, Option<Tree<'d>>)>,
    count: u32,
) -> Result<Vec<(FieldHead<'d>, Option<Tree<'d>>)>, AllocError>
    ensures { IfOk result (λ ps. (more : Entries) → places_then (parts_of ps.items) more ≡ places_then (parts_of places.entry.items) (places_again count more)) }
{
    for place in 0..count {
        places.push((head("", FieldState::Required), None))?;
    }
    Ok(places)
}

/// The places, and then so many of one entry.
#[tactic(auto, using(crate::proofs::Pushed::alike_whole, crate::proofs::Pushed::alike_none))]
pub fn alike_places<'d>(
    places: Vec<(FieldHead<'d>, Option<Tree<'d>>)>,
    count: u32,
    tree: Tree<'d>,
) -> Result<Vec<(FieldHead<'d>, Option<Tree<'d>>)>, AllocError>
    ensures { IfOk result (λ ps. places_view (parts_of ps.items) ≡ places_then (parts_of places.entry.items) (alike_entries count (tree_view tree.entry))) }
{
    if count == 0 {
        return Ok(places);
    }
    let before = with_places_again(places, count - 1)?;
    let all = with_place(before, tree)?;
    Ok(all)
}

// The fields, and then required ones of the first of these names, with the entry of the next.
#[tactic(auto, using(crate::proofs::Pushed::fields_turn))]
fn with_fields_again<'d>(
    mut fields: Vec<(FieldHead<'d>, Option<Tree<'d>>)>,
    names: &Vec<&'d str>,
    count: usize,
) -> Result<Vec<(FieldHead<'d>, Option<Tree<'d>>)>, AllocError>
    requires { count ≤ length names.now.items }
    ensures { IfOk result (λ fs. (more : Fields) → fields_view (parts_of fs.items) more ≡ fields_view (parts_of fields.entry.items) (fields_again (map (λ n. n.now) (take count names.now.items)) more)) }
{
    for place in 0..count {
        fields.push((head(names[place], FieldState::Required), None))?;
    }
    Ok(fields)
}

/// The fields, and then required ones of these names, all of one entry, and a rest of it where it is kept. Of no names and no rest
/// there is nothing.
#[tactic(auto, using(crate::proofs::Pushed::rest_whole))]
pub fn outside<'d>(
    alloc: Global,
    fields: Vec<(FieldHead<'d>, Option<Tree<'d>>)>,
    names: &Vec<&'d str>,
    keeps_rest: bool,
    tree: Tree<'d>,
) -> Result<
    (
        Vec<(FieldHead<'d>, Option<Tree<'d>>)>,
        Option<(Label<'d>, Box<Tree<'d>>)>,
    ),
    AllocError,
>
    ensures { IfOk result (λ p. fields_view (parts_of p.0.items) (rest_fields p.1) ≡ fields_view (parts_of fields.entry.items) (alike_fields (map (λ n. n.now) names.now.items) keeps_rest (tree_view tree.entry))) }
{
    if keeps_rest {
        let all = with_fields_again(fields, names, names.len())?;
        let rest = rest_of(alloc, tree)?;
        return Ok((all, Some(rest)));
    }
    let all = without_rest(fields, names, tree)?;
    Ok((all, None))
}

fn rest_of<'d>(alloc: Global, tree: Tree<'d>) -> Result<(Label<'d>, Box<Tree<'d>>), AllocError>
    ensures { IfOk result (λ p. rest_fields (Some p) ≡ rest_field (codes "extra") (tree_view tree.entry)) }
{
    Ok((label("extra"), Box::new(alloc, tree)?))
}

// The same where no rest is kept.
#[tactic(auto, using(crate::proofs::Pushed::last_whole, crate::proofs::Pushed::last_none))]
fn without_rest<'d>(
    fields: Vec<(FieldHead<'d>, Option<Tree<'d>>)>,
    names: &Vec<&'d str>,
    tree: Tree<'d>,
) -> Result<Vec<(FieldHead<'d>, Option<Tree<'d>>)>, AllocError>
    ensures { IfOk result (λ fs. fields_view (parts_of fs.items) no_fields ≡ fields_view (parts_of fields.entry.items) (alike_fields (map (λ n. n.now) names.now.items) false (tree_view tree.entry))) }
{
    if names.is_empty() {
        return Ok(fields);
    }
    let last = names.len() - 1;
    let before = with_fields_again(fields, names, last)?;
    let all = with_field(before, names[last], FieldState::Required, tree)?;
    Ok(all)
}
