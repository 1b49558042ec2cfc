//! Printing as a trait, as in the crate `quote`.
ghost use Rattle.std.specs.Prelude.{◌≡◌, OnOk, OnErr, List, ◌++◌, ◌∷◌, [], map};
ghost use Rattle.token_trees.specs.Token.{Tok};
ghost use Rattle.token_trees.specs.View.{stream};
ghost use Rattle.syntax_trees.specs.View.{ty, path_view, segment_view, arguments_view, generic_view, qself_view, expr, expr_path_view, bound_view, lifetime_view, member_view, lit_str_view};
ghost use Rattle.syntax_trees.specs.Item.{meta_view, attribute_view, field_view, fields_view, variant_view, param_view, predicate_view, body_view, item_view};
ghost use Rattle.syntax_printing.specs.Print.{print_ty, print_path, print_segment, print_arguments, print_generic, print_qself, print_expr, print_expr_path, print_bound, print_lifetime, print_member, print_lit_str};
ghost use Rattle.syntax_printing.specs.PrintPredicates.{print_predicate};
ghost use Rattle.rust_syntax.specs.PrintItem.{print_item, print_attribute, print_meta, print_body, print_fields, print_field, print_variant, print_angle, print_where, print_param};

use crate::write::{
    write_arguments, write_bound, write_expr, write_expr_path, write_generic, write_lifetime,
    write_lit_str, write_member, write_path, write_qself, write_segment, write_ty,
};
use crate::write_item::{
    write_angle_params, write_attribute, write_body, write_field, write_fields, write_item,
    write_meta, write_param, write_predicate, write_variant, write_where,
};
use std::alloc::AllocError;
use syntax_trees::{
    Attribute, Bound, Data, DeriveInput, Expr, ExprPath, Field, Fields, GenericArgument,
    GenericParam, Generics, Lifetime, LitStr, Member, Meta, Path, PathArguments, PathSegment,
    QSelf, Ty, Variant, WherePredicate,
};
use token_trees::TokenStream;

/// A tree that prints as tokens. Of the characters that a tree itself prints, the first of `::` and of `->` and the quote
/// of a lifetime are `Joint`, and all others `Alone`.
pub trait ToTokens {
    ghost tokens: { Self → List Tok };

    /// The tree's tokens, appended one after another. Where memory runs out, some of them may be.
    fn write(&self, out: &mut TokenStream) -> Result<(), AllocError>
        ensures { OnOk result (stream out.new ≡ stream out.old ++ tokens self.now) };

    /// The tree's tokens, appended. Where memory runs out, none of them is.
    fn to_tokens(&self, out: &mut TokenStream) -> Result<(), AllocError>
        ensures ok { OnOk result (stream out.new ≡ stream out.old ++ tokens self.now) }
        ensures err { OnErr result (stream out.new ≡ stream out.old) }
    {
        let mut printed = TokenStream::new(out.allocator());
        self.write(&mut printed)?;
        out.append(&mut printed)
    }
}

impl ToTokens for DeriveInput {
    ghost tokens = { λ t. print_item (item_view t) };

    fn write(&self, out: &mut TokenStream) -> Result<(), AllocError> {
        write_item(self, out)
    }
}

impl ToTokens for Attribute {
    ghost tokens = { λ t. print_attribute (attribute_view t) };

    fn write(&self, out: &mut TokenStream) -> Result<(), AllocError> {
        write_attribute(self, out)
    }
}

impl ToTokens for Meta {
    ghost tokens = { λ t. print_meta (meta_view t) };

    fn write(&self, out: &mut TokenStream) -> Result<(), AllocError> {
        write_meta(self, out)
    }
}

/// The keyword and what stands behind the name, without parameters.
impl ToTokens for Data {
    ghost tokens = { λ t. print_body (body_view t) };

    fn write(&self, out: &mut TokenStream) -> Result<(), AllocError> {
        write_body(self, out)
    }
}

impl ToTokens for Fields {
    ghost tokens = { λ t. print_fields (fields_view t) };

    fn write(&self, out: &mut TokenStream) -> Result<(), AllocError> {
        write_fields(self, out)
    }
}

impl ToTokens for Field {
    ghost tokens = { λ t. print_field (field_view t) };

    fn write(&self, out: &mut TokenStream) -> Result<(), AllocError> {
        write_field(self, out)
    }
}

impl ToTokens for Variant {
    ghost tokens = { λ t. print_variant (variant_view t) };

    fn write(&self, out: &mut TokenStream) -> Result<(), AllocError> {
        write_variant(self, out)
    }
}

/// The parameters within `<` and `>`, then the `where` clause, each where there is one.
#[tactic(auto, using(crate::proofs::Pieces::assoc))]
impl ToTokens for Generics {
    ghost tokens = { λ t. print_angle (map param_view t.params.items) ++ print_where (map predicate_view t.where_clause.items) };

    fn write(&self, out: &mut TokenStream) -> Result<(), AllocError> {
        write_angle_params(&self.params, out)?;
        write_where(&self.where_clause, out)
    }
}

impl ToTokens for GenericParam {
    ghost tokens = { λ t. print_param (param_view t) };

    fn write(&self, out: &mut TokenStream) -> Result<(), AllocError> {
        write_param(self, out)
    }
}

impl ToTokens for WherePredicate {
    ghost tokens = { λ t. print_predicate (predicate_view t) };

    fn write(&self, out: &mut TokenStream) -> Result<(), AllocError> {
        write_predicate(self, out)
    }
}

impl ToTokens for Bound {
    ghost tokens = { λ t. print_bound (bound_view t) };

    fn write(&self, out: &mut TokenStream) -> Result<(), AllocError> {
        write_bound(self, out)
    }
}

impl ToTokens for Ty {
    ghost tokens = { λ t. print_ty (ty t) };

    fn write(&self, out: &mut TokenStream) -> Result<(), AllocError> {
        write_ty(self, out)
    }
}

impl ToTokens for Path {
    ghost tokens = { λ t. print_path (path_view t) };

    fn write(&self, out: &mut TokenStream) -> Result<(), AllocError> {
        write_path(self, out)
    }
}

impl ToTokens for PathSegment {
    ghost tokens = { λ t. print_segment (segment_view t) };

    fn write(&self, out: &mut TokenStream) -> Result<(), AllocError> {
        write_segment(self, out)
    }
}

impl ToTokens for PathArguments {
    ghost tokens = { λ t. print_arguments (arguments_view t) };

    fn write(&self, out: &mut TokenStream) -> Result<(), AllocError> {
        write_arguments(self, out)
    }
}

impl ToTokens for GenericArgument {
    ghost tokens = { λ t. print_generic (generic_view t) };

    fn write(&self, out: &mut TokenStream) -> Result<(), AllocError> {
        write_generic(self, out)
    }
}

/// What stands before the path: `<T as`, or `<T>` where the position is 0.
impl ToTokens for QSelf {
    ghost tokens = { λ t. print_qself (qself_view t) };

    fn write(&self, out: &mut TokenStream) -> Result<(), AllocError> {
        write_qself(self, out)
    }
}

impl ToTokens for Expr {
    ghost tokens = { λ t. print_expr (expr t) };

    fn write(&self, out: &mut TokenStream) -> Result<(), AllocError> {
        write_expr(self, out)
    }
}

impl ToTokens for ExprPath {
    ghost tokens = { λ t. print_expr_path (expr_path_view t) };

    fn write(&self, out: &mut TokenStream) -> Result<(), AllocError> {
        write_expr_path(self, out)
    }
}

impl ToTokens for Lifetime {
    ghost tokens = { λ t. print_lifetime (lifetime_view t) };

    fn write(&self, out: &mut TokenStream) -> Result<(), AllocError> {
        write_lifetime(out, self)
    }
}

impl ToTokens for Member {
    ghost tokens = { λ t. print_member (member_view t) ∷ [] };

    fn write(&self, out: &mut TokenStream) -> Result<(), AllocError> {
        write_member(out, self)
    }
}

impl ToTokens for LitStr {
    ghost tokens = { λ t. print_lit_str (lit_str_view t) ∷ [] };

    fn write(&self, out: &mut TokenStream) -> Result<(), AllocError> {
        write_lit_str(out, self)
    }
}
