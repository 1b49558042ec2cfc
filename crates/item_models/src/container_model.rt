//! Containers as the reader takes them.
ghost use Rattle.std.specs.Prelude.{◌≡◌, is_some, IfOk};
ghost use Rattle.attr_parts.specs.Values as attrs;
ghost use Rattle.container_defs.specs.Reader.{tag_model, body_model, reader_model};
ghost use Rattle.derive_ast.specs.Views.{data_view, container_view as read_view};
ghost use Rattle.value_models.specs.ContainerView.{tag_view, body_view, container_view};

use crate::field_model::{fields_model, style_of};
use crate::variant_model::variants_model;
use attr_parts::TagType;
use derive_ast::{Container as ReadContainer, Data};
use std::alloc::{AllocError, Global};
use value_models::{Body, Container, Tag};

fn tag_model(alloc: Global, tag: &TagType) -> Result<Tag, AllocError>
    ensures { IfOk result (λ t. tag_view t ≡ tag_model (attrs.tag_view tag.now)) }
{
    match tag {
        TagType::External => Ok(Tag::External),
        TagType::Internal { tag } => Ok(Tag::Internal(String::from_str(alloc, tag)?)),
        TagType::Adjacent { tag, content } => Ok(Tag::Adjacent(
            String::from_str(alloc, tag)?,
            String::from_str(alloc, content)?,
        )),
        TagType::None => Ok(Tag::Untagged),
    }
}

fn body_model(alloc: Global, tag: &TagType, body: &Data<'_>) -> Result<Body, AllocError>
    ensures { IfOk result (λ b. body_view b ≡ body_model (attrs.tag_view tag.now) (data_view body.now)) }
{
    match body {
        Data::Enum(variants) => {
            let tag = tag_model(alloc, tag)?;
            let variants = variants_model(alloc, variants)?;
            Ok(Body::Enum(tag, variants))
        }
        Data::Struct(style, fields) => {
            let fields = fields_model(alloc, fields)?;
            Ok(Body::Struct(style_of(*style), fields))
        }
    }
}

#[tactic(auto, using(crate::proofs::Lists::some_seen))]
fn tries_from(container: &ReadContainer<'_>) -> bool
    ensures { result ≡ is_some (read_view container.now).attrs.type_try_from }
{
    container.attrs.type_try_from().is_some()
}

/// What the reader makes of a container. It fails where memory runs out, at an array whose length is greater than a u64, and at a
/// default whose place is greater than a u32.
pub fn model_of_container(
    alloc: Global,
    container: &ReadContainer<'_>,
) -> Result<Container, AllocError>
    ensures { IfOk result (λ m. container_view m ≡ reader_model (read_view container.now)) }
{
    let name = String::from_str(alloc, &container.ident.text)?;
    let body = body_model(alloc, container.attrs.tag(), &container.body)?;
    Ok(Container {
        name,
        transparent: container.attrs.transparent(),
        try_from: tries_from(container),
        closed: container.attrs.deny_unknown_fields(),
        body,
    })
}
