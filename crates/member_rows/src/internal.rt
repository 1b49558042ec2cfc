//! The internal shape: the fields of a variant stand beside its tag.
ghost use Rattle.std.specs.Prelude.{◌≡◌, ◌++◌, [], ◌∷◌, IfOk, map, option_map, string_bytes, bytes_eq, if◌then◌else◌};
ghost use Rattle.schema_types.specs.View.{schema_view, properties_view};
ghost use Rattle.convert_defs.specs.Shapes.{fields_beside as fields_beside_of, body_of_fields as body_of_fields_of, internal_variant as internal_variant_of, placed_field, less_property};
ghost use Rattle.convert_defs.specs.Owners.{property_fields, is_empty};
ghost use Rattle.row_findings.specs.View.{field_view, body_view, variant_view};
ghost use Rattle.object_rows.specs.Parts.{field_of as field_spec};
ghost use Rattle.member_rows.specs.Members.{member_view};

use crate::members::Member;
use crate::tagged::{members_of_schema, tag_text};
use object_rows::{field_state, is_required, may_be_null};
use row_findings::{FieldRow, Part, PartKind, Source, Steps, VariantBody, VariantRow};
use schema_types::{Schema, Setting};
use std::alloc::{AllocError, Global};
use std::collections::{BTreeMap, BTreeSet};

fn field_of<'d>(
    setting: Setting,
    member: &Member<'d>,
    required: &BTreeSet<String>,
    name: &'d str,
    schema: &'d Schema,
) -> FieldRow<'d>
    ensures { field_view result ≡ placed_field (member_view member.now).0 (field_spec setting (map string_bytes required.now.keys) name.now (schema_view schema.now)) }
{
    let is_required = is_required(required, name);
    FieldRow {
        name,
        part: Part {
            kind: PartKind::OfBranch,
            steps: Steps::Branch(member.keyword, member.index, name),
            source: Source::Written(schema),
        },
        state: field_state(is_required, schema),
        nullable: may_be_null(setting) && !is_required,
    }
}

// The fields, and then that of a property other than the tag.
fn with_field<'d>(
    fields: Vec<FieldRow<'d>>,
    tag: &str,
    field: FieldRow<'d>,
) -> Result<Vec<FieldRow<'d>>, AllocError>
    ensures { IfOk result (λ v. map field_view v.items ≡ map field_view fields.entry.items ++ (if bytes_eq tag.now (field_view field.entry).name then [] else field_view field.entry ∷ [])) }
{
    let mut fields = fields;
    if tag == field.name {
        return Ok(fields);
    }
    fields.push(field)?;
    Ok(fields)
}

#[tactic(auto, using(crate::proofs::Beside::field_step))]
fn fields_in<'d>(
    alloc: Global,
    setting: Setting,
    member: &Member<'d>,
    required: &BTreeSet<String>,
    properties: &'d BTreeMap<String, Schema>,
    tag: &str,
) -> Result<Vec<FieldRow<'d>>, AllocError>
    ensures { IfOk result (λ v. map field_view v.items ≡ map (placed_field (member_view member.now).0) (property_fields setting (map string_bytes required.now.keys) (less_property tag.now (properties_view properties.now.entries)))) }
{
    let mut fields = Vec::new(alloc);
    for (name, schema) in properties.iter() {
        let field = field_of(setting, member, required, name.as_str(), schema);
        fields = with_field(fields, tag, field)?;
    }
    Ok(fields)
}

/// The fields beside the tag.
pub fn fields_beside<'d>(
    alloc: Global,
    setting: Setting,
    member: &Member<'d>,
    tag: &str,
) -> Result<Vec<FieldRow<'d>>, AllocError>
    ensures { IfOk result (λ v. map field_view v.items ≡ fields_beside_of setting tag.now (member_view member.now)) }
{
    match members_of_schema(member.schema) {
        Some(members) => {
            let fields = fields_in(
                alloc,
                setting,
                member,
                &members.required,
                &members.properties,
                tag,
            )?;
            Ok(fields)
        }
        None => Ok(Vec::new(alloc)),
    }
}

#[tactic(auto, using(crate::proofs::Beside::body_seen))]
fn body_of_fields<'d>(fields: Vec<FieldRow<'d>>) -> VariantBody<'d>
    ensures { body_view result ≡ body_of_fields_of (map field_view fields.entry.items) }
{
    if has_none(&fields) {
        VariantBody::Unit
    } else {
        VariantBody::Fields(fields)
    }
}

#[tactic(auto, using(crate::proofs::Beside::none_there))]
fn has_none(fields: &Vec<FieldRow<'_>>) -> bool
    ensures { result ≡ is_empty (map field_view fields.now.items) }
{
    fields.is_empty()
}

fn internal_variant<'d>(
    alloc: Global,
    setting: Setting,
    member: &Member<'d>,
    tag: &str,
) -> Result<VariantRow<'d>, AllocError>
    ensures { IfOk result (λ w. variant_view w ≡ internal_variant_of setting tag.now (member_view member.now)) }
{
    let fields = fields_beside(alloc, setting, member, tag)?;
    Ok(VariantRow {
        name: tag_text(member.schema, tag),
        body: body_of_fields(fields),
    })
}

/// A variant for each member, named by its tag, with a field for each other property.
pub fn internal_variants<'d>(
    alloc: Global,
    setting: Setting,
    members: &[Member<'d>],
    tag: &str,
) -> Result<Vec<VariantRow<'d>>, AllocError>
    ensures { IfOk result (λ v. map variant_view v.items ≡ map (internal_variant_of setting tag.now) (map member_view members.now)) }
{
    let mut variants = Vec::new(alloc);
    for member in members {
        variants.push(internal_variant(alloc, setting, member, tag)?)?;
    }
    Ok(variants)
}
