//! Syntax trees of Rust items, types and paths: they are printed as tokens, and paths, types, predicates and lifetimes are
//! read from string literals. The trees, their copies and the cursor over nested metas come from `syntax_trees`, the parsers
//! from `syntax_laws`.
#![tactic(auto)]

mod printing;
mod write;
mod write_item;

pub use printing::ToTokens;
pub use syntax_laws::{parse_expr_path, parse_lifetimes, parse_path, parse_type, parse_where};
pub use syntax_parsers::ParseFault;
pub use syntax_trees::{
    Attribute, Bound, Data, DeriveInput, Expr, ExprPath, Field, Fields, GenericArgument,
    GenericParam, Generics, Lifetime, LitStr, Member, Meta, MetaCursor, Path, PathArguments,
    PathSegment, QSelf, SyntaxError, SyntaxKind, Ty, Variant, WherePredicate,
};
