//! Containers: items with their attributes.
ghost use Rattle.std.specs.Prelude.{◌≡◌, map};
ghost use Rattle.container_defs.specs.Container.{all_fields, has_getter as some_getter};
ghost use Rattle.derive_ast.specs.Views.{field_view, data_view};

use container_defs::Style;
use derive_attr::attr;
use syntax_trees::{DeriveInput, Generics, Member, Ty};
use token_trees::Ident;

/// A field with its attributes.
#[derive(Drop)]
pub struct Field<'a> {
    pub member: Member,
    pub attrs: attr::Field,
    pub ty: &'a Ty,
    pub original: &'a syntax_trees::Field,
}

/// A variant of an enum with its attributes.
#[derive(Drop)]
pub struct Variant<'a> {
    pub ident: Ident,
    pub attrs: attr::Variant,
    pub style: Style,
    pub fields: Vec<Field<'a>>,
    pub original: &'a syntax_trees::Variant,
}

/// The variants of an enum, or the fields of a struct.
#[derive(Drop)]
pub enum Data<'a> {
    Enum(Vec<Variant<'a>>),
    Struct(Style, Vec<Field<'a>>),
}

/// An item with what its attributes say.
#[derive(Drop)]
pub struct Container<'a> {
    pub ident: Ident,
    pub attrs: attr::Container,
    pub body: Data<'a>,
    pub generics: &'a Generics,
    pub original: &'a DeriveInput,
}
