//! Entries as trees, before they have ids: what a schema is converted to.
#![tactic(auto)]

mod tree;

pub use tree::{
    Atom, ContentKind, FieldHead, Label, Part, Target, Tree, TreeRule, TreeTable, VariantHead, Wrap,
};
