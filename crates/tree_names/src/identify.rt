//! Identifiers of fields and variants, each within its container.
ghost use Rattle.std.specs.Prelude.{◌≡◌, ℕ, List, [], ◌∷◌, ◌++◌, Bool, IfOk, OnOk, map, codes, string_bytes};
ghost use Rattle.entry_defs.specs.Entry.{struct_shape};
ghost use Rattle.naming_defs.specs.Names.{Names, name_by, is_value, values, bound, identified_fields as fields_identified};
ghost use Rattle.naming_defs.specs.Good.{is_good_name};
ghost use Rattle.good_names.specs.Given.{Stands, Does, DoesWithin, has_value};
ghost use Rattle.row_findings.specs.View.{tag_view};
ghost use Rattle.tree_types.specs.View.{rest_fields, label_view};
ghost use Rattle.tree_names.specs.Seen.{part_view, names_of, identifiers_of, fields_of, part_identified, parts_identified, part_bound, parts_bound, variant_view, name_in, variant_given, variant_identified, variants_identified};

use crate::labels::new_label;
use good_names::GivenNames;
use row_findings::TagRow;
use std::alloc::{AllocError, Global};
use tree_types::{FieldHead, Label, Tree, VariantHead};

/// Fields, and a rest.
#[derive(Drop)]
pub(crate) struct Members<'d> {
    pub(crate) fields: Vec<(FieldHead<'d>, Option<Tree<'d>>)>,
    pub(crate) rest: Option<(Label<'d>, Box<Tree<'d>>)>,
}

// The names that fields want.
#[tactic(auto, using(crate::proofs::Turns::fields_wanted_turn, crate::proofs::Turns::fields_wanted_end))]
fn wanted_of_fields<'d>(
    alloc: Global,
    fields: &Vec<(FieldHead<'d>, Option<Tree<'d>>)>,
) -> Result<GivenNames, AllocError>
    ensures { IfOk result (λ s. (prefix : List ℕ) → Stands s prefix [] (names_of (map part_view fields.now.items))) }
{
    let mut names = GivenNames::new(alloc);
    for part in fields {
        names.want(alloc, part.0.label.wanted)?;
    }
    Ok(names)
}

#[tactic(auto, using(crate::proofs::Walks::part_identified_does))]
fn identified_part<'d>(
    alloc: Global,
    names: &mut GivenNames,
    part: (FieldHead<'d>, Option<Tree<'d>>),
) -> Result<(FieldHead<'d>, Option<Tree<'d>>), AllocError>
    ensures { IfOk result (λ p. Does (codes "field") names.old names.new (part_view p) (part_identified (part_view part.entry))) }
{
    let (head, tree) = part;
    let wanted = head.label.wanted;
    let given = names.give(alloc, "field", wanted)?;
    let head = FieldHead {
        label: Label {
            wanted,
            given: Some(given),
        },
        state: head.state,
    };
    Ok((head, tree))
}

#[tactic(auto, using(crate::proofs::Turns::fields_identified_begin, crate::proofs::Turns::fields_identified_turn, crate::proofs::Turns::fields_identified_end))]
fn identified_parts<'d>(
    alloc: Global,
    names: &mut GivenNames,
    fields: Vec<(FieldHead<'d>, Option<Tree<'d>>)>,
) -> Result<Vec<(FieldHead<'d>, Option<Tree<'d>>)>, AllocError>
    ensures { IfOk result (λ v. Does (codes "field") names.old names.new (map part_view v.items) (parts_identified (map part_view fields.entry.items))) }
{
    let mut identified = Vec::with_capacity(alloc, fields.len())?;
    for part in fields {
        let part = identified_part(alloc, names, part)?;
        identified.push(part)?;
    }
    Ok(identified)
}

#[tactic(auto, using(crate::proofs::Walks::part_bound_does))]
fn bound_part<'d>(
    alloc: Global,
    items: &GivenNames,
    names: &mut GivenNames,
    part: (FieldHead<'d>, Option<Tree<'d>>),
) -> Result<(FieldHead<'d>, Option<Tree<'d>>), AllocError>
    ensures { IfOk result (λ p. DoesWithin (has_value items.now) (codes "field") names.old names.new (part_view p) (part_bound (part_view part.entry))) }
{
    let (head, tree) = part;
    let wanted = head.label.wanted;
    let given = names.give_within(alloc, items, wanted)?;
    let head = FieldHead {
        label: Label {
            wanted,
            given: Some(given),
        },
        state: head.state,
    };
    Ok((head, tree))
}

#[tactic(auto, using(crate::proofs::Turns::fields_bound_begin, crate::proofs::Turns::fields_bound_turn, crate::proofs::Turns::fields_bound_end))]
fn bound_parts<'d>(
    alloc: Global,
    items: &GivenNames,
    names: &mut GivenNames,
    fields: Vec<(FieldHead<'d>, Option<Tree<'d>>)>,
) -> Result<Vec<(FieldHead<'d>, Option<Tree<'d>>)>, AllocError>
    ensures { IfOk result (λ v. DoesWithin (has_value items.now) (codes "field") names.old names.new (map part_view v.items) (parts_bound (map part_view fields.entry.items))) }
{
    let mut identified = Vec::with_capacity(alloc, fields.len())?;
    for part in fields {
        let part = bound_part(alloc, items, names, part)?;
        identified.push(part)?;
    }
    Ok(identified)
}

/// The fields of a variant with their identifiers, none of which is the name of a value among the items.
#[tactic(auto, using(crate::proofs::Walks::contents_bound))]
pub(crate) fn bound_contents<'d>(
    alloc: Global,
    items: &GivenNames,
    fields: Vec<(FieldHead<'d>, Option<Tree<'d>>)>,
) -> Result<Vec<(FieldHead<'d>, Option<Tree<'d>>)>, AllocError>
    ensures { IfOk result (λ v. (beside t : Names) → Stands items.now (codes "Type") t beside → map part_view v.items ≡ (parts_bound (map part_view fields.entry.items) (names_of (map part_view fields.entry.items)) (values t)).1) }
{
    let mut names = wanted_of_fields(alloc, &fields)?;
    let fields = bound_parts(alloc, items, &mut names, fields)?;
    Ok(fields)
}

fn take_label<'d>(
    alloc: Global,
    names: &mut GivenNames,
    label: &Label<'d>,
) -> Result<(), AllocError>
    ensures { OnOk result ((prefix : List ℕ) (given beside : Names) → Stands names.old prefix given beside → Stands names.new prefix (label_view label.now ∷ given) beside) }
{
    match &label.given {
        Some(name) => {
            names.take(alloc, name)?;
            Ok(())
        }
        None => {
            names.take(alloc, label.wanted)?;
            Ok(())
        }
    }
}

/// Takes the identifiers of a variant's fields, so that no item has them.
pub(crate) fn take_bound<'d>(
    alloc: Global,
    names: &mut GivenNames,
    fields: &Vec<(FieldHead<'d>, Option<Tree<'d>>)>,
) -> Result<(), AllocError>
    ensures { OnOk result ((prefix : List ℕ) (given beside : Names) → Stands names.old prefix given beside → Stands names.new prefix (bound (identifiers_of (map part_view fields.now.items)) given) beside) }
{
    for part in fields {
        take_label(alloc, names, &part.0.label)?;
    }
    Ok(())
}

#[tactic(auto, using(crate::proofs::Parts::without_rest, crate::proofs::Parts::with_rest))]
fn has_no_rest<'d>(rest: &Option<(Label<'d>, Box<Tree<'d>>)>) -> bool
    ensures { (closed : Bool) → result ≡ is_value (struct_shape closed (rest_fields rest.now)) }
{
    match rest {
        None => true,
        Some(_) => false,
    }
}

/// Whether a struct has no fields at all, so that its name is kept off patterns.
#[tactic(auto, using(crate::proofs::Parts::with_field))]
pub(crate) fn has_no_fields<'d>(
    fields: &Vec<(FieldHead<'d>, Option<Tree<'d>>)>,
    rest: &Option<(Label<'d>, Box<Tree<'d>>)>,
) -> bool
    ensures { (closed : Bool) → result ≡ is_value (struct_shape closed (fields_of (map part_view fields.now.items) (rest_fields rest.now))) }
{
    match fields.first() {
        Some(_) => false,
        None => has_no_rest(rest),
    }
}

/// The fields of a struct and its rest, with their identifiers.
#[tactic(auto, using(crate::proofs::Walks::no_rest_identified, crate::proofs::Walks::rest_identified))]
pub(crate) fn identified_members<'d>(
    alloc: Global,
    fields: Vec<(FieldHead<'d>, Option<Tree<'d>>)>,
    rest: Option<(Label<'d>, Box<Tree<'d>>)>,
) -> Result<Members<'d>, AllocError>
    ensures { IfOk result (λ m. fields_of (map part_view m.fields.items) (rest_fields m.rest) ≡ fields_identified is_good_name (fields_of (map part_view fields.entry.items) (rest_fields rest.entry))) }
{
    let mut names = wanted_of_fields(alloc, &fields)?;
    let fields = identified_parts(alloc, &mut names, fields)?;
    match rest {
        None => Ok(Members { fields, rest: None }),
        Some((label, tree)) => {
            let label = new_label(alloc, &mut names, "field", &label)?;
            Ok(Members {
                fields,
                rest: Some((label, tree)),
            })
        }
    }
}

// ---- variants

fn want_label<'d>(
    alloc: Global,
    names: &mut GivenNames,
    label: &Label<'d>,
) -> Result<(), AllocError>
    ensures { OnOk result ((prefix : List ℕ) (given beside : Names) → Stands names.old prefix given beside → Stands names.new prefix given (beside ++ label_view label.now ∷ [])) }
{
    match &label.given {
        Some(name) => {
            names.want(alloc, name)?;
            Ok(())
        }
        None => {
            names.want(alloc, label.wanted)?;
            Ok(())
        }
    }
}

fn want_variant<'d>(
    alloc: Global,
    names: &mut GivenNames,
    tag: TagRow<'d>,
    head: &VariantHead<'d>,
) -> Result<(), AllocError>
    ensures { OnOk result ((prefix : List ℕ) (given beside : Names) → Stands names.old prefix given beside → Stands names.new prefix given (beside ++ name_by (tag_view tag.entry) (label_view head.now.label) head.now.label.wanted.now ∷ [])) }
{
    match tag {
        TagRow::Untagged => {
            want_label(alloc, names, &head.label)?;
            Ok(())
        }
        TagRow::External => {
            names.want(alloc, head.label.wanted)?;
            Ok(())
        }
        TagRow::Internal(_) => {
            names.want(alloc, head.label.wanted)?;
            Ok(())
        }
        TagRow::Adjacent(_, _) => {
            names.want(alloc, head.label.wanted)?;
            Ok(())
        }
    }
}

// The names that variants want.
#[tactic(auto, using(crate::proofs::Turns::variants_wanted_turn, crate::proofs::Turns::variants_wanted_end))]
fn wanted_of_variants<'d>(
    alloc: Global,
    tag: TagRow<'d>,
    variants: &Vec<(VariantHead<'d>, Vec<(FieldHead<'d>, Option<Tree<'d>>)>)>,
) -> Result<GivenNames, AllocError>
    ensures { IfOk result (λ s. (prefix : List ℕ) → Stands s prefix [] (map (name_in (tag_view tag.entry)) (map variant_view variants.now.items))) }
{
    let mut names = GivenNames::new(alloc);
    for variant in variants {
        want_variant(alloc, &mut names, tag, &variant.0)?;
    }
    Ok(names)
}

fn variant_name<'d>(
    alloc: Global,
    names: &mut GivenNames,
    tag: TagRow<'d>,
    wanted: &str,
) -> Result<String, AllocError>
    ensures { IfOk result (λ s. Does (codes "Variant") names.old names.new (string_bytes s) (variant_given (tag_view tag.entry) wanted.now)) }
{
    match tag {
        TagRow::Untagged => {
            let name = names.give_number(alloc, "Variant")?;
            Ok(name)
        }
        TagRow::External => {
            let name = names.give(alloc, "Variant", wanted)?;
            Ok(name)
        }
        TagRow::Internal(_) => {
            let name = names.give(alloc, "Variant", wanted)?;
            Ok(name)
        }
        TagRow::Adjacent(_, _) => {
            let name = names.give(alloc, "Variant", wanted)?;
            Ok(name)
        }
    }
}

#[tactic(auto, using(crate::proofs::Walks::variant_identified_does))]
fn identified_variant<'d>(
    alloc: Global,
    names: &mut GivenNames,
    tag: TagRow<'d>,
    variant: (VariantHead<'d>, Vec<(FieldHead<'d>, Option<Tree<'d>>)>),
) -> Result<(VariantHead<'d>, Vec<(FieldHead<'d>, Option<Tree<'d>>)>), AllocError>
    ensures { IfOk result (λ w. Does (codes "Variant") names.old names.new (variant_view w) (variant_identified (tag_view tag.entry) (variant_view variant.entry))) }
{
    let (head, parts) = variant;
    let wanted = head.label.wanted;
    let given = variant_name(alloc, names, tag, wanted)?;
    let head = VariantHead {
        label: Label {
            wanted,
            given: Some(given),
        },
        kind: head.kind,
    };
    Ok((head, parts))
}

#[tactic(auto, using(crate::proofs::Turns::variants_identified_begin, crate::proofs::Turns::variants_identified_turn, crate::proofs::Turns::variants_identified_end))]
fn identified_each<'d>(
    alloc: Global,
    names: &mut GivenNames,
    tag: TagRow<'d>,
    variants: Vec<(VariantHead<'d>, Vec<(FieldHead<'d>, Option<Tree<'d>>)>)>,
) -> Result<Vec<(VariantHead<'d>, Vec<(FieldHead<'d>, Option<Tree<'d>>)>)>, AllocError>
    ensures { IfOk result (λ v. Does (codes "Variant") names.old names.new (map variant_view v.items) (variants_identified (tag_view tag.entry) (map variant_view variants.entry.items))) }
{
    let mut identified = Vec::with_capacity(alloc, variants.len())?;
    for variant in variants {
        let variant = identified_variant(alloc, names, tag, variant)?;
        identified.push(variant)?;
    }
    Ok(identified)
}

/// Variants with their identifiers.
#[tactic(auto, using(crate::proofs::Walks::cases_identified))]
pub(crate) fn identified_variants<'d>(
    alloc: Global,
    tag: TagRow<'d>,
    variants: Vec<(VariantHead<'d>, Vec<(FieldHead<'d>, Option<Tree<'d>>)>)>,
) -> Result<Vec<(VariantHead<'d>, Vec<(FieldHead<'d>, Option<Tree<'d>>)>)>, AllocError>
    ensures { IfOk result (λ v. map variant_view v.items ≡ (variants_identified (tag_view tag.entry) (map variant_view variants.entry.items) (map (name_in (tag_view tag.entry)) (map variant_view variants.entry.items)) []).1) }
{
    let mut names = wanted_of_variants(alloc, tag, &variants)?;
    let variants = identified_each(alloc, &mut names, tag, variants)?;
    Ok(variants)
}
