//! Items: structs, enums and newtypes.
use crate::entry::TypeId;
use conversion_table::Rule;
use serde_json::Value;
use tag_kinds::TagType;

/// An item. No other item of its space has its name.
#[derive(Drop)]
pub struct ItemEntry {
    pub name: String,
    pub shape: ItemShape,
}

/// What an item is.
#[derive(Drop)]
pub enum ItemShape {
    /// `closed` says that members which no field names are refused; a rest keeps them as a map to that entry. It comes after
    /// the fields and is named after them.
    Struct {
        fields: Vec<FieldEntry>,
        closed: bool,
        rest: Option<TypeId>,
    },
    /// `closed` is said of the structs of its variants, and of members beside those that tell the variant.
    Enum {
        tag: TagType,
        variants: Vec<VariantEntry>,
        closed: bool,
    },
    Newtype {
        inner: TypeId,
        rule: Option<Rule>,
    },
}

/// A field: its identifier, its name in JSON, its entry, and what a missing member means.
#[derive(Drop)]
pub struct FieldEntry {
    pub ident: String,
    pub name: String,
    pub ty: TypeId,
    pub state: State,
}

/// What a missing member means: a refusal, nothing, or a value.
#[derive(Drop)]
pub enum State {
    Required,
    Optional,
    Stated(Value),
}

/// A variant: its identifier, its name in JSON, and what it holds.
#[derive(Drop)]
pub struct VariantEntry {
    pub ident: String,
    pub name: String,
    pub content: Content,
}

/// What a variant holds.
#[derive(Drop)]
pub enum Content {
    Unit,
    Newtype(TypeId),
    Tuple(Vec<TypeId>),
    Struct(Vec<FieldEntry>),
}
