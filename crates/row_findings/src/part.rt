//! The parts that a row converts, and where they stand.
ghost use Rattle.std.specs.Prelude.{◌≡◌};
ghost use Rattle.schema_types.specs.View.{maybe_view};
ghost use Rattle.convert_defs.specs.Owners.{anything as anything_of, part_at};
ghost use Rattle.row_findings.specs.View.{keyword_view, part_view};

use crate::given::Source;
use schema_types::Schema;
use serde_json::Value;

/// A keyword under which schemas stand.
#[derive(Clone, Copy, PartialEq, Eq)]
pub enum Keyword {
    Items,
    AdditionalItems,
    Properties,
    PatternProperties,
    AdditionalProperties,
    PropertyNames,
    AllOf,
    AnyOf,
    OneOf,
    Not,
}

/// The steps from a schema to a part of it.
#[derive(Clone, Copy)]
pub enum Steps<'d> {
    /// None: the schema itself.
    Here,
    Under(Keyword),
    /// A name under a keyword.
    Named(Keyword, &'d str),
    /// A place in the list under a keyword.
    Placed(Keyword, usize),
    /// A property of the member at that place in the list under a keyword.
    Branch(Keyword, usize, &'d str),
}

/// How a part stands to the schema that a row converts.
#[derive(Clone, Copy)]
pub enum PartKind {
    /// A child, which has a name of its own.
    Child,
    /// A child of a branch.
    OfBranch,
    /// The only member of a list, which stands in the place of the schema.
    Lone,
    /// A schema in the place of this one, no step away.
    Made,
}

/// A schema that a row converts, and the steps to it.
#[derive(Drop)]
pub struct Part<'d> {
    pub kind: PartKind,
    pub steps: Steps<'d>,
    pub source: Source<'d>,
}

/// A field of a struct. `nullable` says that null may stand for the member's absence.
#[derive(Drop)]
pub struct FieldRow<'d> {
    pub name: &'d str,
    pub part: Part<'d>,
    pub state: FieldState<'d>,
    pub nullable: bool,
}

/// What a missing member means: a refusal, nothing, or a value.
#[derive(Clone, Copy)]
pub enum FieldState<'d> {
    Required,
    Optional,
    Stated(&'d Value),
}

/// The members of an object that `properties` does not name: the names among them that `required` lists, the one part that
/// they are converted to, and whether a field keeps the rest of them.
#[derive(Drop)]
pub struct OutsideRow<'d> {
    pub names: Vec<&'d str>,
    pub part: Part<'d>,
    pub keeps_rest: bool,
}

#[derive(Drop)]
pub struct VariantRow<'d> {
    /// Its name in JSON, or none in an untagged enum.
    pub name: Option<&'d str>,
    pub body: VariantBody<'d>,
}

#[derive(Drop)]
pub enum VariantBody<'d> {
    Unit,
    Part(Part<'d>),
    Fields(Vec<FieldRow<'d>>),
}

/// Any value. It takes no memory.
pub fn anything<'d>() -> Part<'d>
    ensures { part_view result ≡ anything_of }
{
    Part {
        kind: PartKind::Made,
        steps: Steps::Here,
        source: Source::Bool(true),
    }
}

/// The part of the schema under a keyword, or any value where none stands. It takes no memory.
pub fn part_under<'d>(keyword: Keyword, schema: &'d Option<Box<Schema>>) -> Part<'d>
    ensures { part_view result ≡ part_at (keyword_view keyword) (maybe_view schema.now) }
{
    match schema {
        Some(schema) => Part {
            kind: PartKind::Child,
            steps: Steps::Under(keyword),
            source: Source::Written(schema),
        },
        None => anything(),
    }
}
