//! `oneOf`: an option, an enum by its shape, the only member, or an enum without a tag.
ghost use Rattle.std.specs.Prelude.{◌≡◌, ◌++◌, ◌&&◌, ◌||◌, not, ℕ, List, IfOk, map};
ghost use Rattle.std.specs.List.{list_any};
ghost use Rattle.schema_defs.specs.Texts.{Relations};
ghost use Rattle.schema_tree.specs.Document.{view as document_seen};
ghost use Rattle.schema_types.specs.View.{schemas_view};
ghost use Rattle.enum_defs.specs.Kinds.{null_free as null_free_of};
ghost use Rattle.enum_defs.specs.Exclusive.{exclusive as exclusive_of};
ghost use Rattle.model_defs.specs.Model.{external_tag};
ghost use Rattle.convert_defs.specs.Row.{noted as noted_as, branching, enum_row, by_contents};
ghost use Rattle.convert_defs.specs.Shapes.{schemas_of, external_members, adjacent_members, internal_members, has_tag_alone as has_tag_alone_of};
ghost use Rattle.convert_defs.specs.Table.{one_of_finding as one_of_finding_of, one_of_external, one_of_adjacent, one_of_internal, one_of_only, only_member as only_member_of, open_branches, untagged_row as untagged_row_of, mixed_notes, internal_row, adjacent_row, one_null_member};
ghost use Rattle.row_findings.specs.View.{row_view, finding_view, variant_view};
ghost use Rattle.member_rows.specs.Members.{member_view, ruled_branches};
ghost use Rattle.one_of_rows.specs.Tagged.{closed_shapes, open_shapes, internal_by, adjacent_by};

use member_rows::{
    Member, adjacent_variants, branches_of, child_part, external_variants, has_odd_null,
    has_one_null, has_tag_alone, internal_variants, lone_part, only_member, option_member,
    some_closed, some_open, untagged_variants, with_open_branches, with_text_branches,
};
use row_findings::{
    Closing, Finding, NoteKind, Row, TagRow, VariantRow, Way, noted, plainly, with_note,
};
use schema_tree::{Document, Schema, Setting};
use std::alloc::{AllocError, Global};
use typify_enums::{adjacent_shape, exclusive, internal_shape, null_free};

/// An enum without a tag, of all members.
pub fn untagged_row<'d>(alloc: Global, members: &[Member<'d>]) -> Result<Row<'d>, AllocError>
    ensures { IfOk result (λ w. (r : Relations) → row_view r w ≡ untagged_row_of (map member_view members.now)) }
{
    let variants = untagged_variants(alloc, members)?;
    Ok(Row::Enum {
        tag: TagRow::Untagged,
        closing: Closing::ByContents,
        variants,
    })
}

// The finding, with the members as branches.
fn branching_on<'d>(
    alloc: Global,
    finding: Finding<'d>,
    members: &[Member<'d>],
) -> Result<Finding<'d>, AllocError>
    ensures { IfOk result (λ f. (r : Relations) → finding_view r f ≡ branching (map member_view members.now) (finding_view r finding.entry)) }
{
    let branches = branches_of(alloc, members)?;
    Ok(Finding {
        row: finding.row,
        notes: finding.notes,
        patterns: finding.patterns,
        branches,
        places: finding.places,
    })
}

/// Whether no two members take one value.
pub fn is_exclusive(document: &Document, schemas: &[Schema], members: &[Member<'_>]) -> bool
    requires { schemas_of (map member_view members.now) ≡ schemas_view schemas.now }
    ensures { result ≡ exclusive_of (document_seen document.now) (schemas_of (map member_view members.now)) }
{
    exclusive(document, schemas)
}

// Whether no member alone is null, or it is not alone.
fn is_null_twice(document: &Document, members: &[Member<'_>], member: &Member<'_>) -> bool
    ensures { result ≡ (not (null_free_of (document_seen document.now) (member_view member.now).1) || not (one_null_member (map member_view members.now))) }
{
    !null_free(document, member.schema) || !has_one_null(members)
}

/// The rows of `oneOf`.
pub fn one_of_finding<'d>(
    alloc: Global,
    document: &Document,
    schemas: &'d [Schema],
    members: &[Member<'d>],
) -> Result<Finding<'d>, AllocError>
    requires { schemas_of (map member_view members.now) ≡ schemas_view schemas.now }
    ensures { IfOk result (λ f. (r : Relations) (name : List ℕ) → finding_view r f ≡ one_of_finding_of (document_seen document.now) name (map member_view members.now)) }
{
    match option_member(members) {
        Some(member) => {
            let odd = with_note(
                Vec::new(alloc),
                has_odd_null(members),
                Way::Widened,
                NoteKind::Null,
            )?;
            let notes = with_note(
                odd,
                is_null_twice(document, members, &member),
                Way::Widened,
                NoteKind::Null,
            )?;
            Ok(noted(alloc, notes, Row::Option(child_part(&member))))
        }
        None => {
            let finding = external_finding(alloc, document, schemas, members)?;
            Ok(finding)
        }
    }
}

fn external_finding<'d>(
    alloc: Global,
    document: &Document,
    schemas: &'d [Schema],
    members: &[Member<'d>],
) -> Result<Finding<'d>, AllocError>
    requires { schemas_of (map member_view members.now) ≡ schemas_view schemas.now }
    ensures { IfOk result (λ f. (r : Relations) → finding_view r f ≡ one_of_external (document_seen document.now) (map member_view members.now) (external_members (map member_view members.now))) }
{
    match external_variants(alloc, schemas, members)? {
        Some(variants) => {
            let finding = external_enum(alloc, members, variants)?;
            Ok(finding)
        }
        None => {
            let finding = adjacent_finding(alloc, document, schemas, members)?;
            Ok(finding)
        }
    }
}

fn external_enum<'d>(
    alloc: Global,
    members: &[Member<'d>],
    variants: Vec<VariantRow<'d>>,
) -> Result<Finding<'d>, AllocError>
    ensures { IfOk result (λ f. (r : Relations) → finding_view r f ≡ branching (map member_view members.now) (noted_as (open_branches (map member_view members.now) ++ ruled_branches (map member_view members.now)) (enum_row external_tag by_contents (map variant_view variants.entry.items)))) }
{
    let open = with_open_branches(Vec::new(alloc), members)?;
    let notes = with_text_branches(open, members)?;
    let finding = noted(
        alloc,
        notes,
        Row::Enum {
            tag: TagRow::External,
            closing: Closing::ByContents,
            variants,
        },
    );
    let branched = branching_on(alloc, finding, members)?;
    Ok(branched)
}

fn adjacent_finding<'d>(
    alloc: Global,
    document: &Document,
    schemas: &'d [Schema],
    members: &[Member<'d>],
) -> Result<Finding<'d>, AllocError>
    requires { schemas_of (map member_view members.now) ≡ schemas_view schemas.now }
    ensures { IfOk result (λ f. (r : Relations) → finding_view r f ≡ one_of_adjacent (document_seen document.now) (map member_view members.now) (adjacent_members (map member_view members.now))) }
{
    match adjacent_shape(alloc, schemas)? {
        Some(shape) => {
            let finding = adjacent_enum(alloc, members, shape.tag, shape.content)?;
            Ok(finding)
        }
        None => {
            let finding = internal_finding(alloc, document, schemas, members)?;
            Ok(finding)
        }
    }
}

// Whether some members are closed and some are open.
fn is_mixed(members: &[Member<'_>]) -> bool
    ensures { result ≡ (closed_shapes (map member_view members.now) && open_shapes (map member_view members.now)) }
{
    some_closed(members) && some_open(members)
}

fn is_tag_alone(members: &[Member<'_>], tag: &str) -> bool
    ensures { result ≡ (not (closed_shapes (map member_view members.now)) && list_any (has_tag_alone_of tag.now) (map member_view members.now)) }
{
    !some_closed(members) && has_tag_alone(members, tag)
}

fn adjacent_enum<'d>(
    alloc: Global,
    members: &[Member<'d>],
    tag: &'d str,
    content: &'d str,
) -> Result<Finding<'d>, AllocError>
    ensures { IfOk result (λ f. (r : Relations) → finding_view r f ≡ branching (map member_view members.now) (noted_as (mixed_notes (adjacent_by (map member_view members.now) tag.now content.now)) (adjacent_row (adjacent_by (map member_view members.now) tag.now content.now)))) }
{
    let mixed = with_note(
        Vec::new(alloc),
        is_mixed(members),
        Way::Narrowed,
        NoteKind::MixedBranches,
    )?;
    let notes = with_note(
        mixed,
        is_tag_alone(members, tag),
        Way::Narrowed,
        NoteKind::TagAlone,
    )?;
    let variants = adjacent_variants(alloc, members, tag)?;
    let finding = noted(
        alloc,
        notes,
        Row::Enum {
            tag: TagRow::Adjacent(tag, content),
            closing: Closing::ByShape(some_closed(members)),
            variants,
        },
    );
    let branched = branching_on(alloc, finding, members)?;
    Ok(branched)
}

fn internal_finding<'d>(
    alloc: Global,
    document: &Document,
    schemas: &'d [Schema],
    members: &[Member<'d>],
) -> Result<Finding<'d>, AllocError>
    requires { schemas_of (map member_view members.now) ≡ schemas_view schemas.now }
    ensures { IfOk result (λ f. (r : Relations) → finding_view r f ≡ one_of_internal (document_seen document.now) (map member_view members.now) (internal_members (document_seen document.now).setting (map member_view members.now))) }
{
    match internal_shape(alloc, schemas)? {
        Some(shape) => {
            let finding = internal_enum(alloc, document.setting(), members, shape.tag)?;
            Ok(finding)
        }
        None => {
            let finding = only_or_untagged(alloc, document, schemas, members)?;
            Ok(finding)
        }
    }
}

fn internal_enum<'d>(
    alloc: Global,
    setting: Setting,
    members: &[Member<'d>],
    tag: &'d str,
) -> Result<Finding<'d>, AllocError>
    ensures { IfOk result (λ f. (r : Relations) → finding_view r f ≡ branching (map member_view members.now) (noted_as (mixed_notes (internal_by setting (map member_view members.now) tag.now)) (internal_row (internal_by setting (map member_view members.now) tag.now)))) }
{
    let notes = with_note(
        Vec::new(alloc),
        is_mixed(members),
        Way::Narrowed,
        NoteKind::MixedBranches,
    )?;
    let variants = internal_variants(alloc, setting, members, tag)?;
    let finding = noted(
        alloc,
        notes,
        Row::Enum {
            tag: TagRow::Internal(tag),
            closing: Closing::ByShape(some_closed(members)),
            variants,
        },
    );
    let branched = branching_on(alloc, finding, members)?;
    Ok(branched)
}

fn only_or_untagged<'d>(
    alloc: Global,
    document: &Document,
    schemas: &[Schema],
    members: &[Member<'d>],
) -> Result<Finding<'d>, AllocError>
    requires { schemas_of (map member_view members.now) ≡ schemas_view schemas.now }
    ensures { IfOk result (λ f. (r : Relations) → finding_view r f ≡ one_of_only (document_seen document.now) (map member_view members.now) (only_member_of (map member_view members.now))) }
{
    match only_member(members) {
        Some(member) => Ok(plainly(alloc, Row::AsItIs(lone_part(&member)))),
        None => {
            let notes = with_note(
                Vec::new(alloc),
                !is_exclusive(document, schemas, members),
                Way::Widened,
                NoteKind::Overlap,
            )?;
            let row = untagged_row(alloc, members)?;
            Ok(noted(alloc, notes, row))
        }
    }
}
