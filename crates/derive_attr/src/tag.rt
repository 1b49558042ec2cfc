//! How the variants of an enum are told, and whether it is an identifier.
ghost use Rattle.std.specs.Prelude.{◌≡◌, ◌++◌, ◌∷◌, [], Some, None, IfOk, OnOk, OnErr, option_map, map};
ghost use Rattle.syntax_trees.specs.Item.{body_view, fields_view, variant_view};
ghost use Rattle.attr_parts.specs.Diagnostics.{diagnostics, kind_view, untagged_both, TellsFront};
ghost use Rattle.attr_parts.specs.Values.{tag_view};
ghost use Rattle.attr_defs.specs.Container.{tag_of, tag_by, is_tuple, tuple_told, tuples_told, tag_told, tag_told_by, identifier_of, identifier_told, identifier_by, identifier_told_by, identifier_on, enum_wanted};
ghost use Rattle.attr_acts.specs.Views.{setting_view};
ghost use Rattle.attr_acts.specs.Kept.{values_in};

use attr_acts::{Setting, Settings, Slot};
use attr_parts::{
    CONTENT, Ctxt, DiagKind, FIELD_IDENTIFIER, Identifier, TAG, TagType, UNTAGGED,
    VARIANT_IDENTIFIER, place_of_variant,
};
use std::alloc::{AllocError, Global};
use syntax_trees::{Data, Fields, Variant};
use token_trees::Span;

// The tag that texts say.
fn tag_type(
    alloc: Global,
    untagged: bool,
    tag: Option<&str>,
    content: Option<&str>,
) -> Result<TagType, AllocError>
    ensures { IfOk result (λ t. tag_view t ≡ tag_by untagged (option_map (λ x. x.now) tag.entry) (option_map (λ x. x.now) content.entry)) }
{
    match (untagged, tag, content) {
        (true, None, None) => Ok(TagType::None),
        (false, Some(tag), None) => Ok(TagType::Internal {
            tag: String::from_str(alloc, tag)?,
        }),
        (false, Some(tag), Some(content)) => Ok(TagType::Adjacent {
            tag: String::from_str(alloc, tag)?,
            content: String::from_str(alloc, content)?,
        }),
        _ => Ok(TagType::External),
    }
}

/// How the variants are told.
pub fn decide_tag(alloc: Global, settings: &Settings) -> Result<TagType, AllocError>
    ensures { IfOk result (λ t. tag_view t ≡ tag_of (values_in settings.now)) }
{
    let untagged = settings.is_set(Slot::whole(UNTAGGED));
    let tag = settings.plain(Slot::whole(TAG));
    let content = settings.plain(Slot::whole(CONTENT));
    tag_type(alloc, untagged, tag, content)
}

// Whether the fields are unnamed, and others than one.
fn is_tuple(fields: &Fields) -> bool
    ensures { result ≡ is_tuple (fields_view fields.now) }
{
    match fields {
        Fields::Named(_) => false,
        Fields::Unnamed(fields) => fields.len() != 1,
        Fields::Unit => false,
    }
}

// Whether the variant has such fields.
fn is_tuple_variant(variant: &Variant) -> bool
    ensures { result ≡ is_tuple (variant_view variant.now).fields }
{
    is_tuple(&variant.fields)
}

// The first tuple variant is told.
fn tell_tuple(cx: &mut Ctxt, variants: &[Variant]) -> Result<(), AllocError>
    ensures ok { OnOk result (diagnostics cx.new ≡ diagnostics cx.old ++ tuple_told (map variant_view variants.now)) }
    ensures err { OnErr result (diagnostics cx.new ≡ diagnostics cx.old) }
{
    for variant in variants {
        if is_tuple_variant(variant) {
            cx.error_spanned_by(place_of_variant(variant), DiagKind::TagTuple)?;
            return Ok(());
        }
    }
    Ok(())
}

// The first tuple variant of an enum is told.
fn tell_tuples(cx: &mut Ctxt, body: &Data) -> Result<(), AllocError>
    ensures ok { OnOk result (diagnostics cx.new ≡ diagnostics cx.old ++ tuples_told (body_view body.now)) }
    ensures err { OnErr result (diagnostics cx.new ≡ diagnostics cx.old) }
{
    match body {
        Data::Struct(_, _) => Ok(()),
        Data::Enum(variants, _) => tell_tuple(cx, variants),
        Data::Union(_, _) => Ok(()),
    }
}

// That is told at both places.
#[tactic(auto, using(attr_parts::proofs::Steps::tells_none, attr_parts::proofs::Steps::tells_later))]
fn tell_two(
    cx: &mut Ctxt,
    first: DiagKind,
    second: DiagKind,
    at: Span,
    then: Span,
) -> Result<(), AllocError>
    ensures ok { OnOk result (diagnostics cx.new ≡ diagnostics cx.old ++ record { kind = kind_view first; span = at } ∷ record { kind = kind_view second; span = then } ∷ []) }
    ensures err { OnErr result (TellsFront (diagnostics cx.old) (diagnostics cx.new) (record { kind = kind_view first; span = at } ∷ record { kind = kind_view second; span = then } ∷ [])) }
{
    cx.error_spanned_by(at, first)?;
    cx.error_spanned_by(then, second)?;
    Ok(())
}

// `untagged`, `tag` and `content` together are told at each.
#[tactic(auto, using(attr_parts::proofs::Steps::tells_none, attr_parts::proofs::Steps::tells_later))]
fn tell_three(cx: &mut Ctxt, at: Span, tag: Span, content: Span) -> Result<(), AllocError>
    ensures ok { OnOk result (diagnostics cx.new ≡ diagnostics cx.old ++ record { kind = untagged_both; span = at } ∷ record { kind = untagged_both; span = tag } ∷ record { kind = untagged_both; span = content } ∷ []) }
    ensures err { OnErr result (TellsFront (diagnostics cx.old) (diagnostics cx.new) (record { kind = untagged_both; span = at } ∷ record { kind = untagged_both; span = tag } ∷ record { kind = untagged_both; span = content } ∷ [])) }
{
    cx.error_spanned_by(at, DiagKind::UntaggedBoth)?;
    tell_two(
        cx,
        DiagKind::UntaggedBoth,
        DiagKind::UntaggedBoth,
        tag,
        content,
    )?;
    Ok(())
}

// What is wrong with `tag` and `content` where `untagged` isn't set.
#[tactic(auto, using(attr_parts::proofs::Steps::tells_none))]
fn tell_tagged(
    cx: &mut Ctxt,
    body: &Data,
    tag: Option<&Setting>,
    content: Option<&Setting>,
) -> Result<(), AllocError>
    ensures ok { OnOk result (diagnostics cx.new ≡ diagnostics cx.old ++ tag_told_by (body_view body.now) None (option_map (λ s. setting_view s.now) tag.entry) (option_map (λ s. setting_view s.now) content.entry)) }
    ensures err { OnErr result (TellsFront (diagnostics cx.old) (diagnostics cx.new) (tag_told_by (body_view body.now) None (option_map (λ s. setting_view s.now) tag.entry) (option_map (λ s. setting_view s.now) content.entry))) }
{
    match (tag, content) {
        (None, None) => Ok(()),
        (Some(_), None) => tell_tuples(cx, body),
        (Some(_), Some(_)) => Ok(()),
        (None, Some(content)) => cx.error_spanned_by(content.at, DiagKind::ContentAlone),
    }
}

// What is wrong with `tag` and `content` beside `untagged`.
fn tell_untagged(
    cx: &mut Ctxt,
    body: &Data,
    untagged: &Setting,
    tag: Option<&Setting>,
    content: Option<&Setting>,
) -> Result<(), AllocError>
    ensures ok { OnOk result (diagnostics cx.new ≡ diagnostics cx.old ++ tag_told_by (body_view body.now) (Some (setting_view untagged.now)) (option_map (λ s. setting_view s.now) tag.entry) (option_map (λ s. setting_view s.now) content.entry)) }
    ensures err { OnErr result (TellsFront (diagnostics cx.old) (diagnostics cx.new) (tag_told_by (body_view body.now) (Some (setting_view untagged.now)) (option_map (λ s. setting_view s.now) tag.entry) (option_map (λ s. setting_view s.now) content.entry))) }
{
    match (tag, content) {
        (None, None) => Ok(()),
        (Some(tag), None) => tell_two(
            cx,
            DiagKind::UntaggedTag,
            DiagKind::UntaggedTag,
            untagged.at,
            tag.at,
        ),
        (Some(tag), Some(content)) => tell_three(cx, untagged.at, tag.at, content.at),
        (None, Some(content)) => tell_two(
            cx,
            DiagKind::UntaggedContent,
            DiagKind::UntaggedContent,
            untagged.at,
            content.at,
        ),
    }
}

// What is wrong with the three.
fn tell_by(
    cx: &mut Ctxt,
    body: &Data,
    untagged: Option<&Setting>,
    tag: Option<&Setting>,
    content: Option<&Setting>,
) -> Result<(), AllocError>
    ensures ok { OnOk result (diagnostics cx.new ≡ diagnostics cx.old ++ tag_told_by (body_view body.now) (option_map (λ s. setting_view s.now) untagged.entry) (option_map (λ s. setting_view s.now) tag.entry) (option_map (λ s. setting_view s.now) content.entry)) }
    ensures err { OnErr result (TellsFront (diagnostics cx.old) (diagnostics cx.new) (tag_told_by (body_view body.now) (option_map (λ s. setting_view s.now) untagged.entry) (option_map (λ s. setting_view s.now) tag.entry) (option_map (λ s. setting_view s.now) content.entry))) }
{
    match untagged {
        None => tell_tagged(cx, body, tag, content),
        Some(untagged) => tell_untagged(cx, body, untagged, tag, content),
    }
}

/// What is wrong with `untagged`, `tag` and `content` is told.
pub fn tell_tags(cx: &mut Ctxt, body: &Data, settings: &Settings) -> Result<(), AllocError>
    ensures ok { OnOk result (diagnostics cx.new ≡ diagnostics cx.old ++ tag_told (body_view body.now) (values_in settings.now)) }
    ensures err { OnErr result (TellsFront (diagnostics cx.old) (diagnostics cx.new) (tag_told (body_view body.now) (values_in settings.now))) }
{
    let untagged = settings.get(Slot::whole(UNTAGGED));
    let tag = settings.get(Slot::whole(TAG));
    let content = settings.get(Slot::whole(CONTENT));
    tell_by(cx, body, untagged, tag, content)
}

// An enum is an identifier of that kind, and nothing else is one.
fn on_enum(body: &Data, kind: Identifier) -> Identifier
    ensures { result ≡ identifier_on (body_view body.now) kind }
{
    match body {
        Data::Struct(_, _) => Identifier::No,
        Data::Enum(_, _) => kind,
        Data::Union(_, _) => Identifier::No,
    }
}

fn identifier_of(body: &Data, field: Option<&Setting>, variant: Option<&Setting>) -> Identifier
    ensures { result ≡ identifier_by (body_view body.now) (option_map (λ s. setting_view s.now) field.entry) (option_map (λ s. setting_view s.now) variant.entry) }
{
    match (field, variant) {
        (None, None) => Identifier::No,
        (Some(_), None) => on_enum(body, Identifier::Field),
        (None, Some(_)) => on_enum(body, Identifier::Variant),
        (Some(_), Some(_)) => Identifier::No,
    }
}

/// Whether the item is an identifier, and of what.
pub fn decide_identifier(body: &Data, settings: &Settings) -> Identifier
    ensures { result ≡ identifier_of (body_view body.now) (values_in settings.now) }
{
    let field = settings.get(Slot::whole(FIELD_IDENTIFIER));
    let variant = settings.get(Slot::whole(VARIANT_IDENTIFIER));
    identifier_of(body, field, variant)
}

// What is no enum is told at its keyword.
fn want_enum(cx: &mut Ctxt, body: &Data, kind: DiagKind) -> Result<(), AllocError>
    ensures ok { OnOk result (diagnostics cx.new ≡ diagnostics cx.old ++ enum_wanted (body_view body.now) (kind_view kind)) }
    ensures err { OnErr result (diagnostics cx.new ≡ diagnostics cx.old) }
{
    match body {
        Data::Struct(_, at) => cx.error_spanned_by(*at, kind),
        Data::Enum(_, _) => Ok(()),
        Data::Union(_, at) => cx.error_spanned_by(*at, kind),
    }
}

#[tactic(auto, using(attr_parts::proofs::Steps::tells_none))]
fn tell_identifier_by(
    cx: &mut Ctxt,
    body: &Data,
    field: Option<&Setting>,
    variant: Option<&Setting>,
) -> Result<(), AllocError>
    ensures ok { OnOk result (diagnostics cx.new ≡ diagnostics cx.old ++ identifier_told_by (body_view body.now) (option_map (λ s. setting_view s.now) field.entry) (option_map (λ s. setting_view s.now) variant.entry)) }
    ensures err { OnErr result (TellsFront (diagnostics cx.old) (diagnostics cx.new) (identifier_told_by (body_view body.now) (option_map (λ s. setting_view s.now) field.entry) (option_map (λ s. setting_view s.now) variant.entry))) }
{
    match (field, variant) {
        (None, None) => Ok(()),
        (Some(_), None) => want_enum(cx, body, DiagKind::FieldIdPlace),
        (None, Some(_)) => want_enum(cx, body, DiagKind::VariantIdPlace),
        (Some(field), Some(variant)) => tell_two(
            cx,
            DiagKind::TwoIdentifiers,
            DiagKind::TwoIdentifiers,
            field.at,
            variant.at,
        ),
    }
}

/// What is wrong with `field_identifier` and `variant_identifier` is told.
pub fn tell_identifier(cx: &mut Ctxt, body: &Data, settings: &Settings) -> Result<(), AllocError>
    ensures ok { OnOk result (diagnostics cx.new ≡ diagnostics cx.old ++ identifier_told (body_view body.now) (values_in settings.now)) }
    ensures err { OnErr result (TellsFront (diagnostics cx.old) (diagnostics cx.new) (identifier_told (body_view body.now) (values_in settings.now))) }
{
    let field = settings.get(Slot::whole(FIELD_IDENTIFIER));
    let variant = settings.get(Slot::whole(VARIANT_IDENTIFIER));
    tell_identifier_by(cx, body, field, variant)
}
