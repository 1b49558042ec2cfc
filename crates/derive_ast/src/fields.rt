//! Fields read with their attributes.
ghost use Rattle.std.specs.Prelude.{◌≡◌, ◌++◌, map, IfOk, OnOk, OnErr};
ghost use Rattle.token_trees.specs.View.{name_view};
ghost use Rattle.syntax_trees.specs.Item.{field_view as field_tree, fields_view};
ghost use Rattle.syntax_trees.specs.View.{member_view};
ghost use Rattle.attr_parts.specs.Diagnostics.{diagnostics, TellsFront};
ghost use Rattle.attr_parts.specs.Values.{default_view};
ghost use Rattle.attr_defs.specs.Members.{field_diagnostics};
ghost use Rattle.attr_defs.specs.Texts.{lexed};
ghost use Rattle.derive_attr.specs.FieldView.{handed_view};
ghost use Rattle.container_defs.specs.Model.{fields_told_from};
ghost use Rattle.container_defs.specs.Reading.{unnamed_style as style_by_number, style_of as style_by_form, each_of as fields_of_form, member_by, field_of, fields_from, name_field};
ghost use Rattle.derive_ast.specs.Views.{field_view};

use crate::container::Field;
use attr_parts::{Ctxt, Default, RenameAllRules, Renamer};
use container_defs::Style;
use derive_attr::attr;
use std::alloc::{AllocError, Global};
use syntax_trees::{Fields, Member};
use token_trees::Ident;

// How several fields without names are written.
fn unnamed_style(fields: &[syntax_trees::Field]) -> Style
    ensures { result ≡ style_by_number (map field_tree fields.now) }
{
    if fields.len() == 1 {
        return Style::Newtype;
    }
    Style::Tuple
}

/// How the fields are written.
pub(crate) fn style_of(fields: &Fields) -> Style
    ensures { result ≡ style_by_form (fields_view fields.now) }
{
    match fields {
        Fields::Named(_) => Style::Struct,
        Fields::Unnamed(fields) => unnamed_style(fields),
        Fields::Unit => Style::Unit,
    }
}

/// The fields themselves.
pub(crate) fn each_of(fields: &Fields) -> &[syntax_trees::Field]
    ensures { map field_tree result.now ≡ fields_of_form (fields_view fields.now) }
{
    match fields {
        Fields::Named(fields) => fields,
        Fields::Unnamed(fields) => fields,
        Fields::Unit => &[],
    }
}

// The field's number. One past those that a member has is answered as want of memory.
fn numbered(index: usize) -> Result<Member, AllocError>
    ensures { IfOk result (λ m. member_view m ≡ member_by None index) }
{
    match u32::try_from(index) {
        Ok(number) => Ok(Member::Unnamed(number)),
        Err(_) => Err(AllocError),
    }
}

// The field's name, or its number.
fn member_of(alloc: Global, field: &syntax_trees::Field, index: usize) -> Result<Member, AllocError>
    ensures { IfOk result (λ m. member_view m ≡ member_by (field_tree field.now).name index) }
{
    match &field.ident {
        Some(name) => Ok(Member::Named(name.try_clone(alloc)?)),
        None => numbered(index),
    }
}

// A field at its place from 0, with the names that the rules give it.
#[tactic(auto, using(attr_parts::proofs::Steps::tells_all))]
fn read_field<'a, R: Renamer>(
    alloc: Global,
    cx: &mut Ctxt,
    index: usize,
    field: &'a syntax_trees::Field,
    attrs: Option<&attr::Variant>,
    container_default: &Default,
    private: &Ident,
    rules: RenameAllRules,
    renamer: &R,
) -> Result<Field<'a>, AllocError>
    ensures field { IfOk result (λ f. field_view f ≡ name_field R.variant_name R.field_name rules (field_of lexed (name_view private.now) (default_view container_default.now) (handed_view attrs.entry) index (field_tree field.now))) }
    ensures told { OnOk result (diagnostics cx.new ≡ diagnostics cx.old ++ field_diagnostics lexed (field_tree field.now) index (handed_view attrs.entry)) }
    ensures err { OnErr result (TellsFront (diagnostics cx.old) (diagnostics cx.new) (field_diagnostics lexed (field_tree field.now) index (handed_view attrs.entry))) }
{
    let mut own = attr::Field::from_ast(
        alloc,
        cx,
        index,
        field,
        attrs,
        container_default,
        private,
    )?;
    own.rename_by_rules(rules, renamer)?;
    Ok(Field {
        member: member_of(alloc, field, index)?,
        attrs: own,
        ty: &field.ty,
        original: field,
    })
}

/// The fields in order, with the names that the rules give them; what a variant borrows is handed on.
pub(crate) fn read_fields<'a, R: Renamer>(
    alloc: Global,
    cx: &mut Ctxt,
    fields: &'a [syntax_trees::Field],
    attrs: Option<&attr::Variant>,
    container_default: &Default,
    private: &Ident,
    rules: RenameAllRules,
    renamer: &R,
) -> Result<Vec<Field<'a>>, AllocError>
    ensures fields { IfOk result (λ v. map field_view v.items ≡ map (name_field R.variant_name R.field_name rules) (fields_from lexed (name_view private.now) (default_view container_default.now) (handed_view attrs.entry) 0 (map field_tree fields.now))) }
    ensures told { OnOk result (diagnostics cx.new ≡ diagnostics cx.old ++ fields_told_from lexed (handed_view attrs.entry) 0 (map field_tree fields.now)) }
    ensures err { OnErr result (TellsFront (diagnostics cx.old) (diagnostics cx.new) (fields_told_from lexed (handed_view attrs.entry) 0 (map field_tree fields.now))) }
{
    let mut read = Vec::with_capacity(alloc, fields.len())?;
    for (index, field) in fields.iter().enumerate() {
        read.push(read_field(
            alloc,
            cx,
            index,
            field,
            attrs,
            container_default,
            private,
            rules,
            renamer,
        )?)?;
    }
    Ok(read)
}
