//! Syntax trees of items, types and paths, and a cursor over the nested metas of an attribute.
#![tactic(auto)]

mod copy;
mod copy_item;
mod cursor;
mod item;
mod lifetime;
mod tree;

pub use cursor::{MetaCursor, SyntaxError, SyntaxKind};
pub use item::{
    Attribute, Data, DeriveInput, Field, Fields, GenericParam, Generics, Meta, Variant,
    WherePredicate,
};
pub use tree::{
    Bound, Expr, ExprPath, GenericArgument, Lifetime, LitStr, Member, Path, PathArguments,
    PathSegment, QSelf, Ty,
};
