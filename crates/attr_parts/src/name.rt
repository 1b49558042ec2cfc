//! Names that are written and read, with the places that they come from.
ghost use Rattle.std.specs.Prelude.{◌≡◌, ◌++◌, ◌∷◌, [], Some, IfOk, OnOk, OnErr, map, string_bytes};
ghost use Rattle.std.specs.Cmp;
ghost use Rattle.std.specs.Cmp.{on_equiv, on_total, on_po, on_per};
ghost use Rattle.std.specs.Cmp.Lexicographic.{nat_list_eq_equiv, nat_list_cmp_total, texts_ties, texts_po};
ghost use Rattle.std.specs.String.{string_cmp, string_eq};
ghost use Rattle.std.proofs.Common.{refl};
ghost use Rattle.token_trees.specs.Token.{fixed, text};
ghost use Rattle.token_trees.specs.View.{name_view, stream};
ghost use Rattle.syntax_trees.specs.View.{lit_str_view};
ghost use Rattle.std.specs.BTreeSet.{keys};
ghost use Rattle.attr_parts.specs.Names.{attr_name, multi_name};

use std::alloc::{AllocError, Global};
use std::cmp::Ordering;
use std::collections::BTreeSet;
use std::fmt;
use syntax_trees::LitStr;
use token_trees::{Ident, Lit, Literal, Span, TokenStream, TokenTree};

/// A name, and the place that it comes from. Names are compared by their values alone.
pub struct Name {
    pub value: String,
    pub span: Span,
}

impl Drop for Name {
    fn drop(self) {
        let Name {
            value: _value,
            span: _,
        } = self;
    }
}

impl Name {
    /// The identifier's text, as it was written, with its place.
    pub fn from_ident(alloc: Global, ident: &Ident) -> Result<Name, AllocError>
        ensures { IfOk result (λ n. attr_name n ≡ name_view ident.now) }
    {
        Ok(Name {
            value: String::from_str(alloc, &ident.text)?,
            span: ident.span,
        })
    }

    /// The literal's text, without quotes and escapes, with its place.
    pub fn from_lit(alloc: Global, lit: &LitStr) -> Result<Name, AllocError>
        ensures value { IfOk result (λ n. (attr_name n).text ≡ (lit_str_view lit.now).text) }
        ensures span { IfOk result (λ n. (attr_name n).span ≡ (lit_str_view lit.now).span) }
    {
        Ok(Name {
            value: String::from_str(alloc, &lit.value)?,
            span: lit.span,
        })
    }

    /// A copy.
    pub fn try_clone(&self, alloc: Global) -> Result<Name, AllocError>
        ensures { IfOk result (λ n. attr_name n ≡ attr_name self.now) }
    {
        Ok(Name {
            value: String::from_str(alloc, &self.value)?,
            span: self.span,
        })
    }

    /// The value as a string literal at the name's place, appended last. Where memory runs out, nothing changes.
    pub fn to_tokens(&self, out: &mut TokenStream) -> Result<(), AllocError>
        ensures ok { OnOk result (stream out.new ≡ stream out.old ++ fixed (text (attr_name self.now).text []) (attr_name self.now).span ∷ []) }
        ensures err { OnErr result (stream out.new ≡ stream out.old) }
    {
        let alloc = out.allocator();
        let literal = Literal {
            lit: Lit::Str {
                value: String::from_str(alloc, &self.value)?,
                suffix: String::new(alloc),
            },
            span: self.span,
        };
        out.push(TokenTree::Literal(literal))
    }
}

impl fmt::Display for Name {
    ghost output = { λ n. Some (attr_name n).text };

    fn fmt<W: fmt::Write>(&self, f: &mut fmt::Formatter<W>) -> fmt::Result {
        f.write_str(&self.value)
    }
}

impl PartialEq for Name {
    ghost eq = { λ a b. string_eq a.value b.value };

    ghost laws = { on_per (λ n. string_bytes n.value) (Cmp.partial_equiv_from_equiv nat_list_eq_equiv) };

    fn eq(&self, other: &Name) -> bool {
        self.value == other.value
    }
}

impl Eq for Name {
    ghost laws = { on_equiv (λ n. string_bytes n.value) nat_list_eq_equiv };
}

impl PartialOrd for Name {
    ghost partial_cmp = { λ a b. Some (string_cmp a.value b.value) };

    ghost laws = { on_po (λ n. string_bytes n.value) texts_po };

    fn partial_cmp(&self, other: &Name) -> Option<Ordering> {
        Some(self.cmp(other))
    }
}

impl Ord for Name {
    ghost cmp = { λ a b. string_cmp a.value b.value };

    ghost total = { on_total (λ n. string_bytes n.value) nat_list_cmp_total };

    ghost matches_partial_cmp = { λ a b. refl };

    ghost matches_eq = { λ a b. texts_ties (string_bytes a.value) (string_bytes b.value) };

    fn cmp(&self, other: &Name) -> Ordering {
        self.value.cmp(&other.value)
    }
}

/// The names of a container, a variant or a field: as it is written, and as it is read, with other names by which it is read
/// too. A half is renamed where an attribute names it.
#[derive(Drop)]
pub struct MultiName {
    pub serialize: Name,
    pub serialize_renamed: bool,
    pub deserialize: Name,
    pub deserialize_renamed: bool,
    pub deserialize_aliases: BTreeSet<Name>,
}

impl MultiName {
    /// The name that is written.
    pub fn serialize_name(&self) -> &Name
        ensures { attr_name result.now ≡ (multi_name self.now).serialize }
    {
        &self.serialize
    }

    /// The name that is read.
    pub fn deserialize_name(&self) -> &Name
        ensures { attr_name result.now ≡ (multi_name self.now).deserialize }
    {
        &self.deserialize
    }

    /// The names that are read, in order; each value once.
    pub fn deserialize_aliases(&self) -> &BTreeSet<Name>
        ensures { map attr_name (keys result.now) ≡ (multi_name self.now).aliases }
    {
        &self.deserialize_aliases
    }
}
