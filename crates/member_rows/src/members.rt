//! The members of a list of schemas, with their places.
ghost use Rattle.std.specs.Prelude.{◌≡◌, IfOk, map, option_map};
ghost use Rattle.schema_defs.specs.Schema.{schemas};
ghost use Rattle.schema_types.specs.View.{schemas_view};
ghost use Rattle.convert_defs.specs.Shapes.{members_from};
ghost use Rattle.convert_defs.specs.Table.{member_part, lone_part as lone_part_of, only_member as only_member_of, untagged_variant as untagged_variant_of};
ghost use Rattle.row_findings.specs.View.{keyword_view, part_view, variant_view, branch_view};
ghost use Rattle.member_rows.specs.Members.{member_view};

use row_findings::{Branch, Keyword, Part, PartKind, Source, Steps, VariantBody, VariantRow};
use schema_types::Schema;
use std::alloc::{AllocError, Global};

/// A member of the list under a keyword.
#[derive(Clone, Copy)]
pub struct Member<'d> {
    pub keyword: Keyword,
    pub index: usize,
    pub schema: &'d Schema,
}

/// The members of a list, in order.
pub fn members_in<'d>(
    alloc: Global,
    keyword: Keyword,
    list: &'d Vec<Schema>,
) -> Result<Vec<Member<'d>>, AllocError>
    ensures { IfOk result (λ v. map member_view v.items ≡ members_from (keyword_view keyword) 0 (schemas (schemas_view list.now.items))) }
{
    let mut members = Vec::new(alloc);
    let mut left = list.as_slice();
    let mut index: usize = 0;
    while let Some((schema, rest)) = left.split_first() {
        members.push(Member {
            keyword,
            index,
            schema,
        })?;
        left = rest;
        index += 1;
    }
    Ok(members)
}

/// The member as a child. It takes no memory.
pub fn child_part<'d>(member: &Member<'d>) -> Part<'d>
    ensures { part_view result ≡ member_part (member_view member.now) }
{
    Part {
        kind: PartKind::Child,
        steps: Steps::Placed(member.keyword, member.index),
        source: Source::Written(member.schema),
    }
}

/// The member in the place of the schema. It takes no memory.
pub fn lone_part<'d>(member: &Member<'d>) -> Part<'d>
    ensures { part_view result ≡ lone_part_of (member_view member.now) }
{
    Part {
        kind: PartKind::Lone,
        steps: Steps::Placed(member.keyword, member.index),
        source: Source::Written(member.schema),
    }
}

/// The members as children.
pub fn child_parts<'d>(alloc: Global, members: &[Member<'d>]) -> Result<Vec<Part<'d>>, AllocError>
    ensures { IfOk result (λ v. map part_view v.items ≡ map member_part (map member_view members.now)) }
{
    let mut parts = Vec::new(alloc);
    for member in members {
        parts.push(child_part(member))?;
    }
    Ok(parts)
}

fn branch_of<'d>(member: &Member<'d>) -> Branch<'d>
    ensures { branch_view result ≡ member_view member.now }
{
    Branch {
        place: Steps::Placed(member.keyword, member.index),
        schema: member.schema,
    }
}

/// The members as branches.
pub fn branches_of<'d>(alloc: Global, members: &[Member<'d>]) -> Result<Vec<Branch<'d>>, AllocError>
    ensures { IfOk result (λ v. map branch_view v.items ≡ map member_view members.now) }
{
    let mut branches = Vec::new(alloc);
    for member in members {
        branches.push(branch_of(member))?;
    }
    Ok(branches)
}

/// The member of a list of one. It takes no memory.
pub fn only_member<'d>(members: &[Member<'d>]) -> Option<Member<'d>>
    ensures { option_map member_view result ≡ only_member_of (map member_view members.now) }
{
    match members {
        [member] => Some(*member),
        _ => None,
    }
}

fn untagged_variant<'d>(member: &Member<'d>) -> VariantRow<'d>
    ensures { variant_view result ≡ untagged_variant_of (member_view member.now) }
{
    VariantRow {
        name: None,
        body: VariantBody::Part(child_part(member)),
    }
}

/// A variant for each member, told by what it takes.
pub fn untagged_variants<'d>(
    alloc: Global,
    members: &[Member<'d>],
) -> Result<Vec<VariantRow<'d>>, AllocError>
    ensures { IfOk result (λ v. map variant_view v.items ≡ map untagged_variant_of (map member_view members.now)) }
{
    let mut variants = Vec::new(alloc);
    for member in members {
        variants.push(untagged_variant(member))?;
    }
    Ok(variants)
}
