//! Trees.
use entry_types::IntName;
use row_findings::{FieldState, GivenValues, TagRow};
use schema_defs::Format;
use schema_types::{Schema, StringValidation};
use std::collections::BTreeMap;

/// A name: the one that is wanted, or the one that is given in its place.
#[derive(Drop)]
pub struct Label<'d> {
    pub wanted: &'d str,
    pub given: Option<String>,
}

/// What a reference leads to: the root, or the definition of a key.
#[derive(Drop)]
pub enum Target {
    Root,
    Definition(String),
}

/// An entry without parts.
#[derive(Drop)]
pub enum Atom {
    Bool,
    Integer(IntName),
    Text,
    /// A text of the format.
    Native(Format),
    /// Any JSON value.
    Any,
    /// Null.
    Unit,
    Reference(Target),
}

/// What the values of a newtype must meet beyond its type.
#[derive(Clone, Copy)]
pub enum TreeRule<'d> {
    /// Keywords of texts.
    Texts(&'d StringValidation),
    /// One of the patterns that stand for names there.
    Keys(&'d BTreeMap<String, Schema>),
    /// To be one of these.
    Allow(GivenValues<'d>),
    /// To be none of these.
    Deny(GivenValues<'d>),
}

/// What is made of one part.
#[derive(Drop)]
pub enum Wrap<'d> {
    Option,
    Vec,
    Set,
    /// So many of it.
    Array(u32),
    /// An item that holds it.
    Newtype {
        name: Label<'d>,
        rule: Option<TreeRule<'d>>,
    },
}

/// The name of a field, and what a missing member means. A place of a tuple has no name.
#[derive(Drop)]
pub struct FieldHead<'d> {
    pub label: Label<'d>,
    pub state: FieldState<'d>,
}

/// What a variant holds: nothing, one part, parts one after another, or fields.
#[derive(Clone, Copy, PartialEq, Eq)]
pub enum ContentKind {
    Unit,
    Newtype,
    Tuple,
    Struct,
}

/// The name of a variant, and what it holds. In an untagged enum its name in JSON is its identifier.
#[derive(Drop)]
pub struct VariantHead<'d> {
    pub label: Label<'d>,
    pub kind: ContentKind,
}

/// A field or a place; without a tree it has that of the next one, or of the rest.
pub type Part<'d> = (FieldHead<'d>, Option<Tree<'d>>);

/// What a schema is converted to. References end it.
#[derive(Drop)]
pub enum Tree<'d> {
    Atom(Atom),
    One(Wrap<'d>, Box<Tree<'d>>),
    /// A map, by its keys and its values.
    Map(Box<Tree<'d>>, Box<Tree<'d>>),
    Tuple(Vec<(FieldHead<'d>, Option<Tree<'d>>)>),
    /// The rest keeps the members that no field names.
    Struct {
        name: Label<'d>,
        closed: bool,
        fields: Vec<(FieldHead<'d>, Option<Tree<'d>>)>,
        rest: Option<(Label<'d>, Box<Tree<'d>>)>,
    },
    Enum {
        name: Label<'d>,
        closed: bool,
        tag: TagRow<'d>,
        variants: Vec<(VariantHead<'d>, Vec<(FieldHead<'d>, Option<Tree<'d>>)>)>,
    },
}

/// A table of trees: what references lead to, definitions in order of their keys and then the root where some reference leads
/// to it; then each tree in the order in which it was converted.
#[derive(Drop)]
pub struct TreeTable<'d> {
    pub targets: Vec<(Target, Tree<'d>)>,
    pub trees: Vec<Tree<'d>>,
}
