//! The metas of a `serde` attribute.
ghost use Rattle.std.specs.Prelude.{◌≡◌, ◌++◌, ◌∷◌, [], IfOk, OnOk, map, string_bytes};
ghost use Rattle.token_trees.specs.Token.{fixed, text, site};
ghost use Rattle.token_trees.specs.View.{stream};
ghost use Rattle.syntax_trees.specs.Item.{attribute_view};
ghost use Rattle.emit_defs.specs.Trees.{flag, valued, carried_tokens, with_commas, serde, when};
ghost use Rattle.emit_trees.specs.CarriedView.{carried_view, all_carried, comma, has_any, serde_list};

use attr_parts::SERDE;
use std::alloc::{AllocError, Global};
use syntax_trees::{Attribute, Meta};
use token_trees::{Lit, Literal, Spacing, Span, Symbol, TokenStream, TokenTree};
use type_trees::{no_arguments, path_at};

/// A meta that a `serde` attribute carries: a name, or a name with a text.
#[derive(Drop)]
pub enum Carried {
    Flag(Symbol),
    Valued(Symbol, String),
}

/// A name, appended.
pub(crate) fn add_flag(metas: &mut Vec<Carried>, name: Symbol) -> Result<(), AllocError>
    ensures { OnOk result (all_carried metas.new.items ≡ all_carried metas.old.items ++ flag name.0.now ∷ []) }
{
    metas.push(Carried::Flag(name))?;
    Ok(())
}

/// A name with a text, appended.
pub(crate) fn add_text(
    metas: &mut Vec<Carried>,
    name: Symbol,
    value: String,
) -> Result<(), AllocError>
    ensures { OnOk result (all_carried metas.new.items ≡ all_carried metas.old.items ++ valued name.0.now (string_bytes value) ∷ []) }
{
    metas.push(Carried::Valued(name, value))?;
    Ok(())
}

/// A name with a copy of the text, appended.
pub(crate) fn add_copy(
    metas: &mut Vec<Carried>,
    alloc: Global,
    name: Symbol,
    value: &str,
) -> Result<(), AllocError>
    ensures { OnOk result (all_carried metas.new.items ≡ all_carried metas.old.items ++ valued name.0.now value.now ∷ []) }
{
    let value = String::from_str(alloc, value)?;
    add_text(metas, name, value)?;
    Ok(())
}

/// A name, appended where the condition holds.
pub(crate) fn add_flag_when(
    metas: &mut Vec<Carried>,
    condition: bool,
    name: Symbol,
) -> Result<(), AllocError>
    ensures { OnOk result (all_carried metas.new.items ≡ all_carried metas.old.items ++ when condition (flag name.0.now)) }
{
    if condition {
        add_flag(metas, name)?;
    }
    Ok(())
}

// A string literal, appended.
fn push_text(out: &mut TokenStream, value: String) -> Result<(), AllocError>
    ensures { OnOk result (stream out.new ≡ stream out.old ++ fixed (text (string_bytes value) []) site ∷ []) }
{
    let suffix = String::new(out.allocator());
    out.push(TokenTree::Literal(Literal {
        lit: Lit::Str { value, suffix },
        span: Span::call_site(),
    }))
}

// The tokens of a meta, appended.
fn push_carried(out: &mut TokenStream, meta: Carried) -> Result<(), AllocError>
    ensures { OnOk result (stream out.new ≡ stream out.old ++ carried_tokens (carried_view meta)) }
{
    match meta {
        Carried::Flag(name) => out.push_word(name.0, Span::call_site()),
        Carried::Valued(name, value) => {
            out.push_word(name.0, Span::call_site())?;
            out.push_mark('=', Spacing::Alone)?;
            push_text(out, value)
        }
    }
}

// A comma, appended where something stands before.
fn push_comma(out: &mut TokenStream, between: bool) -> Result<(), AllocError>
    ensures { OnOk result (stream out.new ≡ stream out.old ++ comma between) }
{
    if between {
        out.push_mark(',', Spacing::Alone)?;
    }
    Ok(())
}

// The tokens of the metas, with commas between.
#[tactic(auto, using(crate::proofs::Commas::commas_more, crate::proofs::Commas::commas_seen, crate::proofs::Commas::any_more, crate::proofs::Commas::any_seen))]
fn with_commas(alloc: Global, metas: Vec<Carried>) -> Result<TokenStream, AllocError>
    ensures { IfOk result (λ s. stream s ≡ with_commas (all_carried metas.items)) }
{
    let mut tokens = TokenStream::new(alloc);
    let mut between = false;
    for meta in metas {
        push_comma(&mut tokens, between)?;
        push_carried(&mut tokens, meta)?;
        between = true;
    }
    Ok(tokens)
}

// Whether there is a meta.
#[tactic(auto, using(crate::proofs::Commas::some_behind))]
fn has_any(metas: &[Carried]) -> bool
    ensures { result ≡ has_any metas.now }
{
    match metas {
        [] => false,
        [_, ..] => true,
    }
}

// The `serde` attribute with those tokens.
fn attribute_of(alloc: Global, tokens: TokenStream) -> Result<Attribute, AllocError>
    ensures { IfOk result (λ a. attribute_view a ≡ serde_list (stream tokens)) }
{
    Ok(Attribute {
        meta: Meta::List {
            path: path_at(alloc, false, &[], SERDE.0, no_arguments())?,
            tokens,
            span: Span::call_site(),
        },
    })
}

/// One `serde` attribute with those metas, or none where there is no meta.
#[tactic(auto, using(crate::proofs::Commas::serde_of_none, crate::proofs::Commas::serde_of_some))]
pub fn serde_attributes(alloc: Global, metas: Vec<Carried>) -> Result<Vec<Attribute>, AllocError>
    ensures { IfOk result (λ v. map attribute_view v.items ≡ serde (all_carried metas.items)) }
{
    let mut attributes = Vec::new(alloc);
    if has_any(&metas) {
        let tokens = with_commas(alloc, metas)?;
        attributes.push(attribute_of(alloc, tokens)?)?;
    }
    Ok(attributes)
}
