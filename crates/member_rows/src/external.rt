//! The external shape: variants of texts, and of one property.
ghost use Rattle.std.specs.Prelude.{◌≡◌, ◌∷◌, [], ◌++◌, IfOk, map, option_map, flat_map, if◌then◌else◌};
ghost use Rattle.enum_defs.specs.Shapes.{object_shape as object_shape_of};
ghost use Rattle.enum_shapes.specs.View.{case_view};
ghost use Rattle.schema_types.specs.View.{schema_view, schemas_view};
ghost use Rattle.convert_defs.specs.Shapes.{schemas_of, external_members, case_body as case_body_of, case_row};
ghost use Rattle.convert_defs.specs.Table.{is_open_shape as is_open_shape_of, open_branches, has_text_keywords as has_text_keywords_of};
ghost use Rattle.row_findings.specs.View.{note_view, way_view, kind_view, body_view, variant_view};
ghost use Rattle.member_rows.specs.Members.{member_view, own_rows, ruled_branches};

use crate::members::Member;
use enum_shapes::{Case, external_shape, object_shape};
use row_findings::{Note, NoteKind, Part, PartKind, Source, Steps, VariantBody, VariantRow, Way};
use schema_types::Schema;
use std::alloc::{AllocError, Global};

fn case_body<'d>(member: &Member<'d>, case: &Case<'d>) -> VariantBody<'d>
    ensures { body_view result ≡ case_body_of (member_view member.now).0 (case_view case.now).name (case_view case.now).content }
{
    match case.content {
        Some(schema) => VariantBody::Part(Part {
            kind: PartKind::OfBranch,
            steps: Steps::Branch(member.keyword, member.index, case.name),
            source: Source::Written(schema),
        }),
        None => VariantBody::Unit,
    }
}

fn case_variant<'d>(member: &Member<'d>, case: &Case<'d>) -> VariantRow<'d>
    ensures { variant_view result ≡ case_row (member_view member.now).0 (case_view case.now) }
{
    VariantRow {
        name: Some(case.name),
        body: case_body(member, case),
    }
}

// The variants, and then those of the cases of a member.
fn with_cases<'d>(
    variants: Vec<VariantRow<'d>>,
    member: &Member<'d>,
    cases: &[Case<'d>],
) -> Result<Vec<VariantRow<'d>>, AllocError>
    ensures { IfOk result (λ v. map variant_view v.items ≡ map variant_view variants.entry.items ++ map (case_row (member_view member.now).0) (map case_view cases.now)) }
{
    let mut variants = variants;
    for case in cases {
        variants.push(case_variant(member, case))?;
    }
    Ok(variants)
}

// The variants, and then those of a member.
fn with_member<'d>(
    alloc: Global,
    variants: Vec<VariantRow<'d>>,
    member: &Member<'d>,
) -> Result<Vec<VariantRow<'d>>, AllocError>
    ensures { IfOk result (λ v. map variant_view v.items ≡ map variant_view variants.entry.items ++ own_rows (member_view member.now)) }
{
    match external_shape(alloc, std::slice::from_ref(member.schema))? {
        Some(cases) => {
            let more = with_cases(variants, member, cases.as_slice())?;
            Ok(more)
        }
        None => Ok(variants),
    }
}

// Each member's variants, in order; there are so many.
fn variants_of<'d>(
    alloc: Global,
    count: usize,
    members: &[Member<'d>],
) -> Result<Vec<VariantRow<'d>>, AllocError>
    ensures { IfOk result (λ v. map variant_view v.items ≡ flat_map own_rows (map member_view members.now)) }
{
    let mut variants = Vec::with_capacity(alloc, count)?;
    for member in members {
        variants = with_member(alloc, variants, member)?;
    }
    Ok(variants)
}

/// The variants of the external shape, where the members have it: a unit for each text, and a part for each object of
/// one property.
pub fn external_variants<'d>(
    alloc: Global,
    schemas: &'d [Schema],
    members: &[Member<'d>],
) -> Result<Option<Vec<VariantRow<'d>>>, AllocError>
    requires { schemas_of (map member_view members.now) ≡ schemas_view schemas.now }
    ensures { IfOk result (λ o. option_map (λ v. map variant_view v.items) o ≡ external_members (map member_view members.now)) }
{
    match external_shape(alloc, schemas)? {
        Some(cases) => {
            let variants = variants_of(alloc, cases.len(), members)?;
            Ok(Some(variants))
        }
        None => Ok(None),
    }
}

// ---- notes

fn is_open(schema: &Schema) -> bool
    ensures { result ≡ is_open_shape_of (object_shape_of (schema_view schema.now)) }
{
    match object_shape(schema) {
        Some(shape) => !shape.closed,
        None => false,
    }
}

// The notes, and one more at a member where it is due.
fn with_note_at<'d>(
    notes: Vec<Note<'d>>,
    is_due: bool,
    way: Way,
    kind: NoteKind,
    member: &Member<'d>,
) -> Result<Vec<Note<'d>>, AllocError>
    ensures { IfOk result (λ v. map note_view v.items ≡ map note_view notes.entry.items ++ (if is_due then record { way = way_view way; kind = kind_view kind; place = (member_view member.now).0 } ∷ [] else [])) }
{
    let mut notes = notes;
    if !is_due {
        return Ok(notes);
    }
    notes.push(Note {
        way,
        kind,
        place: Steps::Placed(member.keyword, member.index),
    })?;
    Ok(notes)
}

/// The notes, and then one for each member that is an object shape and not closed.
#[tactic(auto, using(crate::proofs::Notes::open_step))]
pub fn with_open_branches<'d>(
    notes: Vec<Note<'d>>,
    members: &[Member<'d>],
) -> Result<Vec<Note<'d>>, AllocError>
    ensures { IfOk result (λ v. map note_view v.items ≡ map note_view notes.entry.items ++ open_branches (map member_view members.now)) }
{
    let mut notes = notes;
    for member in members {
        notes = with_note_at(
            notes,
            is_open(member.schema),
            Way::Narrowed,
            NoteKind::OpenBranch,
            member,
        )?;
    }
    Ok(notes)
}

fn has_text_keywords(schema: &Schema) -> bool
    ensures { result ≡ has_text_keywords_of (schema_view schema.now) }
{
    match schema {
        Schema::Bool(_) => false,
        Schema::Object(object) => object.string.is_some(),
    }
}

/// The notes, and then one for each member with keywords of texts.
#[tactic(auto, using(crate::proofs::Notes::ruled_step))]
pub fn with_text_branches<'d>(
    notes: Vec<Note<'d>>,
    members: &[Member<'d>],
) -> Result<Vec<Note<'d>>, AllocError>
    ensures { IfOk result (λ v. map note_view v.items ≡ map note_view notes.entry.items ++ ruled_branches (map member_view members.now)) }
{
    let mut notes = notes;
    for member in members {
        notes = with_note_at(
            notes,
            has_text_keywords(member.schema),
            Way::Widened,
            NoteKind::String,
            member,
        )?;
    }
    Ok(notes)
}
