//! Fields as the reader takes them.
ghost use Rattle.std.specs.Prelude.{◌≡◌, is_some, map, IfOk, string_bytes};
ghost use Rattle.std.specs.BTreeSet.{keys};
ghost use Rattle.syntax_trees.specs.View.{member_view};
ghost use Rattle.attr_parts.specs.Names.{attr_name, multi_name};
ghost use Rattle.container_defs.specs.Reader.{has_name, read_names, field_model, style_model};
ghost use Rattle.derive_ast.specs.Views.{field_view as read_view};
ghost use Rattle.value_models.specs.FieldView.{field_view, fields_view, style_view};
ghost use Rattle.value_models.specs.VariantView.{fields_in};

use crate::default_model::default_of;
use crate::known::helper_of;
use attr_parts::{MultiName, Name};
use derive_ast::Field as ReadField;
use std::alloc::{AllocError, Global};
use std::collections::BTreeSet;
use syntax_trees::Member;
use value_models::{Field, Fields, Style};
use value_types::value_type;

/// Whether the field has a name. It takes no memory.
pub fn has_name(member: &Member) -> bool
    ensures { result ≡ has_name (member_view member.now) }
{
    match member {
        Member::Named(_) => true,
        Member::Unnamed(_) => false,
    }
}

/// How fields are written.
pub(crate) fn style_of(style: container_defs::Style) -> Style
    ensures { style_view result ≡ style_model style }
{
    match style {
        container_defs::Style::Struct => Style::Struct,
        container_defs::Style::Tuple => Style::Tuple,
        container_defs::Style::Newtype => Style::Newtype,
        container_defs::Style::Unit => Style::Unit,
    }
}

/// The name that is written.
pub(crate) fn written_name(alloc: Global, names: &MultiName) -> Result<String, AllocError>
    ensures { IfOk result (λ s. string_bytes s ≡ (multi_name names.now).serialize.text) }
{
    String::from_str(alloc, &names.serialize.value)
}

#[tactic(auto, using(crate::proofs::Lists::moved, crate::proofs::Lists::all_moved))]
fn texts_of(alloc: Global, names: &BTreeSet<Name>) -> Result<Vec<String>, AllocError>
    ensures { IfOk result (λ v. map string_bytes v.items ≡ map (λ n. n.text) (map attr_name (keys names.now))) }
{
    let mut texts = Vec::new(alloc);
    for name in names.iter() {
        texts.push(String::from_str(alloc, &name.value)?)?;
    }
    Ok(texts)
}

/// The names that are read, in order.
pub(crate) fn names_read(alloc: Global, names: &MultiName) -> Result<Vec<String>, AllocError>
    ensures { IfOk result (λ v. map string_bytes v.items ≡ read_names (multi_name names.now)) }
{
    texts_of(alloc, &names.deserialize_aliases)
}

// What the reader makes of a field.
fn field_model(alloc: Global, field: &ReadField<'_>) -> Result<Field, AllocError>
    ensures { IfOk result (λ f. field_view f ≡ field_model (read_view field.now)) }
{
    let names = field.attrs.name();
    let serialize_name = written_name(alloc, names)?;
    let deserialize_names = names_read(alloc, names)?;
    let field_type = value_type(alloc, field.ty)?;
    let default = default_of(alloc, field.attrs.default())?;
    Ok(Field {
        has_name: has_name(&field.member),
        serialize_name,
        deserialize_names,
        field_type,
        default,
        helper: helper_of(field.attrs.deserialize_with()),
        skip: is_skipping(field),
        is_rest: field.attrs.flatten(),
    })
}

#[tactic(auto, using(crate::proofs::Lists::some_seen))]
fn is_skipping(field: &ReadField<'_>) -> bool
    ensures { result ≡ is_some (read_view field.now).attrs.skip_serializing_if }
{
    field.attrs.skip_serializing_if().is_some()
}

fn models_of(alloc: Global, fields: &[ReadField<'_>]) -> Result<Vec<Field>, AllocError>
    ensures { IfOk result (λ v. fields_view v.items ≡ map field_model (map read_view fields.now)) }
{
    let mut models = Vec::with_capacity(alloc, fields.len())?;
    for field in fields {
        models.push(field_model(alloc, field)?)?;
    }
    Ok(models)
}

/// What the reader makes of fields.
pub(crate) fn fields_model(alloc: Global, fields: &[ReadField<'_>]) -> Result<Fields, AllocError>
    ensures { IfOk result (λ f. fields_in f ≡ map field_model (map read_view fields.now)) }
{
    let models = models_of(alloc, fields)?;
    let fields = Fields::new(alloc, models)?;
    Ok(fields)
}
