//! `allOf` and `anyOf`.
ghost use Rattle.std.specs.Prelude.{◌≡◌, ℕ, List, [], None, IfOk, map, option_map, string_bytes};
ghost use Rattle.schema_defs.specs.Texts.{Relations};
ghost use Rattle.schema_tree.specs.Document.{view as document_seen};
ghost use Rattle.schema_types.specs.View.{schemas_view};
ghost use Rattle.convert_defs.specs.Standing.{words_or};
ghost use Rattle.convert_defs.specs.Shapes.{schemas_of, option_member as option_member_of};
ghost use Rattle.convert_defs.specs.Table.{all_of_finding as all_of_finding_of, any_of_finding as any_of_finding_of, any_of_others as any_of_others_of};
ghost use Rattle.row_findings.specs.View.{finding_view};
ghost use Rattle.member_rows.specs.Members.{member_view};

use member_rows::{
    Member, child_part, child_parts, has_odd_null, lone_part, only_member, option_member,
};
use one_of_rows::{is_exclusive, one_of_finding, untagged_row};
use row_findings::{Finding, Leaf, NoteKind, Row, Way, noted, plainly, with_note};
use schema_tree::{Document, Schema};
use std::alloc::{AllocError, Global};

/// The row of `allOf`: the only member, or the merge of them.
#[tactic(auto, using(crate::proofs::Members::all_of_only, crate::proofs::Members::all_of_others))]
pub fn all_of_finding<'d>(alloc: Global, members: &[Member<'d>]) -> Result<Finding<'d>, AllocError>
    ensures { IfOk result (λ f. (r : Relations) → finding_view r f ≡ all_of_finding_of (map member_view members.now)) }
{
    match only_member(members) {
        Some(member) => Ok(plainly(alloc, Row::AsItIs(lone_part(&member)))),
        None => {
            let parts = child_parts(alloc, members)?;
            Ok(plainly(alloc, Row::Merged(parts)))
        }
    }
}

/// The row of `anyOf`: nothing where it lists nothing, an option, that of `oneOf` where no two members take one value,
/// or an enum without a tag. `title` is the wanted name.
pub fn any_of_finding<'d>(
    alloc: Global,
    document: &Document,
    title: Option<&'d String>,
    schemas: &'d [Schema],
    members: &[Member<'d>],
) -> Result<Finding<'d>, AllocError>
    requires { schemas_of (map member_view members.now) ≡ schemas_view schemas.now }
    ensures { IfOk result (λ f. (r : Relations) → finding_view r f ≡ any_of_finding_of (document_seen document.now) (words_or (option_map (λ t. string_bytes t.now) title.entry) []) (map member_view members.now)) }
{
    match members.split_first() {
        None => Ok(plainly(alloc, Row::Leaf(Leaf::Never { title }))),
        Some(_) => {
            let finding = any_of_others(alloc, document, schemas, members)?;
            Ok(finding)
        }
    }
}

fn any_of_others<'d>(
    alloc: Global,
    document: &Document,
    schemas: &'d [Schema],
    members: &[Member<'d>],
) -> Result<Finding<'d>, AllocError>
    requires { schemas_of (map member_view members.now) ≡ schemas_view schemas.now }
    ensures { IfOk result (λ f. (r : Relations) (name : List ℕ) → finding_view r f ≡ any_of_others_of (document_seen document.now) name (map member_view members.now) (option_member_of (map member_view members.now))) }
{
    match option_member(members) {
        Some(member) => {
            let notes = with_note(
                Vec::new(alloc),
                has_odd_null(members),
                Way::Widened,
                NoteKind::Null,
            )?;
            Ok(noted(alloc, notes, Row::Option(child_part(&member))))
        }
        None => {
            let finding = several(alloc, document, schemas, members)?;
            Ok(finding)
        }
    }
}

fn several<'d>(
    alloc: Global,
    document: &Document,
    schemas: &'d [Schema],
    members: &[Member<'d>],
) -> Result<Finding<'d>, AllocError>
    requires { schemas_of (map member_view members.now) ≡ schemas_view schemas.now }
    ensures { IfOk result (λ f. (r : Relations) (name : List ℕ) → finding_view r f ≡ any_of_others_of (document_seen document.now) name (map member_view members.now) None) }
{
    if is_exclusive(document, schemas, members) {
        let finding = one_of_finding(alloc, document, schemas, members)?;
        return Ok(finding);
    }
    let row = untagged_row(alloc, members)?;
    Ok(plainly(alloc, row))
}
