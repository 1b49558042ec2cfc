//! What a comparison names: a type, or the contents of a variant.
ghost use Rattle.std.specs.Prelude.{◌≡◌, ◌++◌, IfOk, Some, codes, map, option_map, slice_get, string_bytes};
ghost use Rattle.token_trees.specs.Text.{text_of};
ghost use Rattle.syntax_trees.specs.Item.{body_view, item_view, variant_view};
ghost use Rattle.syntax_trees.specs.View.{ty as ty_view};
ghost use Rattle.syntax_printing.specs.Print.{print_ty};
ghost use Rattle.covers_run.specs.Page.{item_variant, node_text as node_text_of, variant_name as variant_name_of, variants_of};

use model_evolve::Node;
use rust_syntax::ToTokens;
use std::alloc::{AllocError, Global};
use syntax_trees::{Data, DeriveInput, Ty, Variant};
use token_trees::TokenStream;

#[tactic(auto, using(crate::proofs::Named::item_there))]
fn item_at(items: &[DeriveInput], place: u32) -> Option<&DeriveInput>
    ensures { option_map (λ i. item_view i.now) result ≡ slice_get (map item_view items.now) place }
{
    items.get(place as usize)
}

#[tactic(auto, using(crate::proofs::Named::variant_there))]
fn variant_at(variants: &[Variant], place: u32) -> Option<&Variant>
    ensures { option_map (λ w. variant_view w.now) result ≡ slice_get (map variant_view variants.now) place }
{
    variants.get(place as usize)
}

// The variants of an enum.
fn variants_in(body: &Data) -> &[Variant]
    ensures { map variant_view result.now ≡ variants_of (body_view body.now) }
{
    match body {
        Data::Enum(variants, _) => variants,
        Data::Struct(..) => &[],
        Data::Union(..) => &[],
    }
}

fn name_of<'a>(variant: Option<&'a Variant>) -> &'a str
    ensures { result.now ≡ variant_name_of (option_map (λ w. variant_view w.now) variant.entry) }
{
    match variant {
        Some(variant) => variant.ident.text.as_str(),
        None => "",
    }
}

fn qualified(alloc: Global, item: &str, variant: &str) -> Result<String, AllocError>
    ensures { IfOk result (λ s. string_bytes s ≡ item.now ++ codes "::" ++ variant.now) }
{
    let mut text = String::from_str(alloc, item)?;
    text.push_str("::")?;
    text.push_str(variant)?;
    Ok(text)
}

fn variant_text(alloc: Global, item: &DeriveInput, place: u32) -> Result<String, AllocError>
    ensures { IfOk result (λ s. string_bytes s ≡ item_variant place (Some (item_view item.now))) }
{
    let variants = variants_in(&item.body);
    let variant = variant_at(variants, place);
    let name = name_of(variant);
    let text = qualified(alloc, item.ident.text.as_str(), name)?;
    Ok(text)
}

fn content_text(
    alloc: Global,
    items: &[DeriveInput],
    item: u32,
    variant: u32,
) -> Result<String, AllocError>
    ensures { IfOk result (λ s. string_bytes s ≡ item_variant variant (slice_get (map item_view items.now) item)) }
{
    match item_at(items, item) {
        Some(found) => {
            let text = variant_text(alloc, found, variant)?;
            Ok(text)
        }
        None => Ok(String::new(alloc)),
    }
}

fn type_text(alloc: Global, ty: &Ty) -> Result<String, AllocError>
    ensures { IfOk result (λ s. string_bytes s ≡ text_of (print_ty (ty_view ty.now))) }
{
    let mut tokens = TokenStream::new(alloc);
    ty.to_tokens(&mut tokens)?;
    let text = tokens.text(alloc)?;
    Ok(text)
}

/// The text of a type, or `ITEM::VARIANT`, by the items among which it stands.
pub(crate) fn node_text(
    alloc: Global,
    items: &[DeriveInput],
    node: &Node,
) -> Result<String, AllocError>
    ensures { IfOk result (λ s. string_bytes s ≡ node_text_of (map item_view items.now) node.now) }
{
    match node {
        Node::Ty(ty) => {
            let text = type_text(alloc, ty)?;
            Ok(text)
        }
        Node::Content { item, variant } => {
            let text = content_text(alloc, items, *item, *variant)?;
            Ok(text)
        }
    }
}
