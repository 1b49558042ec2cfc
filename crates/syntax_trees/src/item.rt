//! Items: structs, enums and unions with their attributes, which hold types and no item.
ghost use Rattle.std.specs.Prelude.{◌≡◌};
ghost use Rattle.syntax_trees.specs.Item.{attribute_view, path_of};
ghost use Rattle.syntax_trees.specs.View.{path_view};

use crate::tree::{Bound, Lifetime, Path, Ty};
use token_trees::{Ident, Span, TokenStream};

/// What stands inside `#[..]`: a path, a path with a list in parentheses (`span` is the group's), or a path, `=` and a value.
pub enum Meta {
    Path(Path),
    List {
        path: Path,
        tokens: TokenStream,
        span: Span,
    },
    NameValue {
        path: Path,
        value: TokenStream,
    },
}

impl Drop for Meta {
    fn drop(self) {
        match self {
            Meta::Path(_path) => {}
            Meta::List {
                path: _path,
                tokens: _tokens,
                span: _,
            } => {}
            Meta::NameValue {
                path: _path,
                value: _value,
            } => {}
        }
    }
}

/// An attribute, as `#[serde(..)]`.
pub struct Attribute {
    pub meta: Meta,
}

impl Drop for Attribute {
    fn drop(self) {
        let Attribute { meta: _meta } = self;
    }
}

/// A field of a struct, a variant or a union, with a name or without.
pub struct Field {
    pub attrs: Vec<Attribute>,
    pub ident: Option<Ident>,
    pub ty: Ty,
}

impl Drop for Field {
    fn drop(self) {
        let Field {
            attrs: _attrs,
            ident: _ident,
            ty: _ty,
        } = self;
    }
}

/// The fields of a struct or a variant.
pub enum Fields {
    Named(Vec<Field>),
    Unnamed(Vec<Field>),
    Unit,
}

impl Drop for Fields {
    fn drop(self) {
        match self {
            Fields::Named(_fields) | Fields::Unnamed(_fields) => {}
            Fields::Unit => {}
        }
    }
}

/// A variant of an enum.
pub struct Variant {
    pub attrs: Vec<Attribute>,
    pub ident: Ident,
    pub fields: Fields,
}

impl Drop for Variant {
    fn drop(self) {
        let Variant {
            attrs: _attrs,
            ident: _ident,
            fields: _fields,
        } = self;
    }
}

/// A parameter of an item.
pub enum GenericParam {
    Ty { ident: Ident, bounds: Vec<Bound> },
    Lifetime(Lifetime),
    Const { ident: Ident, ty: Ty },
}

impl Drop for GenericParam {
    fn drop(self) {
        match self {
            GenericParam::Ty {
                ident: _ident,
                bounds: _bounds,
            } => {}
            GenericParam::Lifetime(_lifetime) => {}
            GenericParam::Const {
                ident: _ident,
                ty: _ty,
            } => {}
        }
    }
}

/// A predicate of a `where` clause.
pub enum WherePredicate {
    Ty {
        ty: Ty,
        bounds: Vec<Bound>,
    },
    Lifetime {
        lifetime: Lifetime,
        bounds: Vec<Lifetime>,
    },
}

impl Drop for WherePredicate {
    fn drop(self) {
        match self {
            WherePredicate::Ty {
                ty: _ty,
                bounds: _bounds,
            } => {}
            WherePredicate::Lifetime {
                lifetime: _lifetime,
                bounds: _bounds,
            } => {}
        }
    }
}

/// An item's parameters and its `where` clause.
pub struct Generics {
    pub params: Vec<GenericParam>,
    pub where_clause: Vec<WherePredicate>,
}

impl Drop for Generics {
    fn drop(self) {
        let Generics {
            params: _params,
            where_clause: _where_clause,
        } = self;
    }
}

/// What an item is. The span is that of the keyword.
pub enum Data {
    Struct(Fields, Span),
    Enum(Vec<Variant>, Span),
    Union(Vec<Field>, Span),
}

impl Drop for Data {
    fn drop(self) {
        match self {
            Data::Struct(_fields, _) => {}
            Data::Enum(_variants, _) => {}
            Data::Union(_fields, _) => {}
        }
    }
}

/// An item that a derive is handed.
pub struct DeriveInput {
    pub attrs: Vec<Attribute>,
    pub ident: Ident,
    pub generics: Generics,
    pub body: Data,
}

impl Drop for DeriveInput {
    fn drop(self) {
        let DeriveInput {
            attrs: _attrs,
            ident: _ident,
            generics: _generics,
            body: _body,
        } = self;
    }
}

impl Attribute {
    /// The attribute's path.
    pub fn path(&self) -> &Path
        ensures { path_view result.now ≡ path_of (attribute_view self.now) }
    {
        match &self.meta {
            Meta::Path(path) => path,
            Meta::List { path, .. } => path,
            Meta::NameValue { path, .. } => path,
        }
    }
}
