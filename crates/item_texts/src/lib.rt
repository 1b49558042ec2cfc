//! Items as text: an item's tokens with one space between any two, but none after a joint character.
#![tactic(auto)]

ghost use Rattle.std.specs.Prelude.{◌≡◌, IfOk, string_bytes};
ghost use Rattle.syntax_trees.specs.Item.{item_view};
ghost use Rattle.derive_receiver.specs.Replaced.{replaced};
ghost use Rattle.item_texts.specs.Text.{item_text_of};

pub mod examples;

use derive_receiver::replace_receiver;
use rust_syntax::{DeriveInput, ToTokens};
use std::alloc::{AllocError, Global};
use token_trees::TokenStream;

/// The item's attributes, keyword, name, parameters and body as text, with a comma after each field and each variant.
/// Brackets are tokens of their own, and string literals are escaped.
pub fn item_text(alloc: Global, item: &DeriveInput) -> Result<String, AllocError>
    ensures { IfOk result (λ text. string_bytes text ≡ item_text_of (item_view item.now)) }
{
    let mut tokens = TokenStream::new(alloc);
    item.to_tokens(&mut tokens)?;
    let text = tokens.text(alloc)?;
    Ok(text)
}

/// The text of a copy of the item in which `Self` is replaced by the item's own type, as serde's derives replace it.
pub fn replaced_text(alloc: Global, item: &DeriveInput) -> Result<String, AllocError>
    ensures { IfOk result (λ text. string_bytes text ≡ item_text_of (replaced (item_view item.now))) }
{
    let mut copy = item.try_clone(alloc)?;
    replace_receiver(alloc, &mut copy)?;
    let text = item_text(alloc, &copy)?;
    Ok(text)
}
