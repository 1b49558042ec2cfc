//! Items read as containers.
ghost use Rattle.std.specs.Prelude.{◌≡◌, ◌++◌, None, map, option_map, is_some, not, IfOk, IfSome, OnOk, OnErr};
ghost use Rattle.token_trees.specs.View.{name_view};
ghost use Rattle.syntax_trees.specs.Item.{fields_view, body_view, item_view};
ghost use Rattle.container_defs.specs.Container.{read_struct};
ghost use Rattle.attr_parts.specs.Diagnostics.{diagnostics, TellsFront};
ghost use Rattle.attr_defs.specs.Container.{container_diagnostics};
ghost use Rattle.attr_defs.specs.Texts.{lexed};
ghost use Rattle.derive_attr.specs.ContainerView.{container_view as attrs_view};
ghost use Rattle.container_defs.specs.Laws.{is_union};
ghost use Rattle.container_defs.specs.Model.{fields_told, members_told, told_at_last, model_of, diagnostics_of};
ghost use Rattle.container_defs.specs.Reading.{style_of, fields_of, data_of, name_field, name_data, container_of};
ghost use Rattle.derive_ast.specs.Views.{data_view, container_view};

use crate::checks::check;
use crate::container::{Container, Data};
use crate::fields::{each_of, read_fields, style_of};
use crate::variants::read_enum;
use attr_parts::{Ctxt, Derive, DiagKind, Renamer, place_of_item};
use derive_attr::attr;
use std::alloc::{AllocError, Global};
use syntax_trees::{DeriveInput, Fields};
use token_trees::Ident;

// The fields of a struct, with the names that the container's rules give them.
fn read_struct<'a, R: Renamer>(
    alloc: Global,
    cx: &mut Ctxt,
    fields: &'a Fields,
    container: &attr::Container,
    private: &Ident,
    renamer: &R,
) -> Result<Data<'a>, AllocError>
    ensures body { IfOk result (λ d. data_view d ≡ read_struct (style_of (fields_view fields.now)) (map (name_field R.variant_name R.field_name (attrs_view container.now).rename_all) (fields_of lexed (name_view private.now) (attrs_view container.now).default None (fields_view fields.now)))) }
    ensures told { OnOk result (diagnostics cx.new ≡ diagnostics cx.old ++ fields_told lexed None (fields_view fields.now)) }
    ensures err { OnErr result (TellsFront (diagnostics cx.old) (diagnostics cx.new) (fields_told lexed None (fields_view fields.now))) }
{
    let style = style_of(fields);
    let default = container.default();
    let rules = container.rename_all_rules();
    let each = each_of(fields);
    let read = read_fields(alloc, cx, each, None, default, private, rules, renamer)?;
    Ok(Data::Struct(style, read))
}

// The variants or the fields with the names that rules give them; none of a union.
fn read_body<'a, R: Renamer>(
    alloc: Global,
    cx: &mut Ctxt,
    body: &'a syntax_trees::Data,
    container: &attr::Container,
    private: &Ident,
    renamer: &R,
) -> Result<Option<Data<'a>>, AllocError>
    ensures body { IfOk result (λ o. option_map data_view o ≡ option_map (name_data R.variant_name R.field_name (attrs_view container.now)) (data_of lexed (name_view private.now) (attrs_view container.now).default (body_view body.now))) }
    ensures told { OnOk result (diagnostics cx.new ≡ diagnostics cx.old ++ members_told lexed (body_view body.now)) }
    ensures err { OnErr result (TellsFront (diagnostics cx.old) (diagnostics cx.new) (members_told lexed (body_view body.now))) }
{
    match body {
        syntax_trees::Data::Struct(fields, _) => {
            let read = read_struct(alloc, cx, fields, container, private, renamer)?;
            Ok(Some(read))
        }
        syntax_trees::Data::Enum(variants, _) => {
            let variants = read_enum(alloc, cx, variants, container, private, renamer)?;
            Ok(Some(Data::Enum(variants)))
        }
        syntax_trees::Data::Union(_, _) => Ok(None),
    }
}

// The item before the checks; none of a union.
fn read_item<'a, R: Renamer>(
    alloc: Global,
    cx: &mut Ctxt,
    item: &'a DeriveInput,
    private: &Ident,
    renamer: &R,
) -> Result<Option<Container<'a>>, AllocError>
    ensures container { IfOk result (λ o. option_map container_view o ≡ container_of lexed R.variant_name R.field_name (name_view private.now) (item_view item.now)) }
    ensures original { IfOk result (λ o. IfSome o (λ c. c.original.now ≡ item.now)) }
    ensures generics { IfOk result (λ o. IfSome o (λ c. c.generics.now ≡ item.now.generics)) }
    ensures told { OnOk result (diagnostics cx.new ≡ diagnostics cx.old ++ (container_diagnostics lexed (item_view item.now) ++ members_told lexed (item_view item.now).body)) }
    ensures err { OnErr result (TellsFront (diagnostics cx.old) (diagnostics cx.new) (container_diagnostics lexed (item_view item.now) ++ members_told lexed (item_view item.now).body)) }
{
    let attrs = attr::Container::from_ast(alloc, cx, item)?;
    match read_body(alloc, cx, &item.body, &attrs, private, renamer)? {
        None => Ok(None),
        Some(body) => Ok(Some(Container {
            ident: item.ident.try_clone(alloc)?,
            attrs,
            body,
            generics: &item.generics,
            original: item,
        })),
    }
}

impl<'a> Container<'a> {
    /// Reads the item; what is wrong with its attributes, then with those of its members, and last what the checks of the whole
    /// tell, is appended to `cx` in order. A union is none, and is told after its attributes. Names that no attribute gives are
    /// the renamer's, by the rules that stand on the item and on its variants. Where memory runs out, a front of what is told is
    /// appended.
    pub fn from_ast<R: Renamer>(
        alloc: Global,
        cx: &mut Ctxt,
        item: &'a DeriveInput,
        derive: Derive,
        private: &Ident,
        renamer: &R,
    ) -> Result<Option<Container<'a>>, AllocError>
        ensures container { IfOk result (λ o. option_map container_view o ≡ model_of lexed R.variant_name R.field_name (name_view private.now) (item_view item.now) derive) }
        ensures union { IfOk result (λ o. is_some o ≡ not (is_union (item_view item.now).body)) }
        ensures original { IfOk result (λ o. IfSome o (λ c. c.original.now ≡ item.now)) }
        ensures generics { IfOk result (λ o. IfSome o (λ c. c.generics.now ≡ item.now.generics)) }
        ensures told { OnOk result (diagnostics cx.new ≡ diagnostics cx.old ++ diagnostics_of lexed R.variant_name R.field_name (name_view private.now) (item_view item.now) derive) }
        ensures err { OnErr result (TellsFront (diagnostics cx.old) (diagnostics cx.new) (diagnostics_of lexed R.variant_name R.field_name (name_view private.now) (item_view item.now) derive)) }
    {
        match read_item(alloc, cx, item, private, renamer)? {
            None => {
                cx.error_spanned_by(place_of_item(item), DiagKind::Union)?;
                Ok(None)
            }
            Some(mut container) => {
                check(cx, &mut container, derive)?;
                Ok(Some(container))
            }
        }
    }
}
