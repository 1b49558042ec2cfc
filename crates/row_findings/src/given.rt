//! A schema as conversion sees it: a written one, or one that a row puts in its place by keywords taken away or changed.
ghost use Rattle.std.specs.Prelude.{◌≡◌, map, option_map};
ghost use Rattle.json_value.specs.View.{kept_view};
ghost use Rattle.schema_types.specs.View.{object_view, types_view};
ghost use Rattle.schema_defs.specs.Schema.{no_same, no_lists, no_named};
ghost use Rattle.convert_defs.specs.Standing.{alone, no_keyword as no_keyword_of};
ghost use Rattle.row_findings.specs.Given.{plain_view, same_view, lists_view, named_view, keywords_view, given_types_view, given_values_view};

use schema_types::{
    ArrayValidation, InstanceType, NumberValidation, ObjectValidation, Schema, SchemaObject,
    StringValidation, Subschemas, Types, Walk,
};
use serde_json::Value;

/// What `type` says: a name, or a list of names.
#[derive(Clone, Copy)]
pub enum GivenTypes<'d> {
    One(InstanceType),
    Many(&'d Vec<InstanceType>),
}

/// What `enum` lists, as it is written, or without nulls.
#[derive(Clone, Copy)]
pub struct GivenValues<'d> {
    pub listed: &'d Vec<Value>,
    pub less_nulls: bool,
}

/// The keywords of a schema, each borrowed from a written one.
#[derive(Clone, Copy)]
pub struct Keywords<'d> {
    pub title: Option<&'d String>,
    pub description: Option<&'d String>,
    pub default: Option<&'d Value>,
    pub const_value: Option<&'d Value>,
    pub types: Option<GivenTypes<'d>>,
    pub format: Option<&'d String>,
    pub enum_values: Option<GivenValues<'d>>,
    pub numbers: Option<NumberValidation>,
    pub texts: Option<&'d StringValidation>,
    pub subschemas: Option<&'d Subschemas>,
    pub lists: Option<&'d ArrayValidation>,
    pub members: Option<&'d ObjectValidation>,
    pub reference: Option<&'d String>,
    pub walk: Option<&'d Walk>,
}

/// A schema to convert: one that is written, a boolean, or keywords that a row has put together.
#[derive(Drop)]
pub enum Source<'d> {
    Written(&'d Schema),
    Bool(bool),
    Made(Box<Keywords<'d>>),
}

/// The keywords of a written schema. It takes no memory.
pub fn keywords_of(schema: &SchemaObject) -> Keywords<'_>
    ensures { keywords_view result ≡ object_view schema.now }
{
    let title = schema.title.as_ref();
    let description = schema.description.as_ref();
    let default = schema.default.as_ref();
    let const_value = schema.const_value.as_ref();
    let types = given_types(&schema.types);
    let format = schema.format.as_ref();
    let enum_values = given_values(&schema.enum_values);
    let texts = schema.string.as_ref();
    let subschemas = schema.subschemas.as_ref();
    let lists = schema.array.as_ref();
    let members = schema.object.as_ref();
    let reference = schema.reference.as_ref();
    let walk = schema.walk.as_ref();
    Keywords {
        title,
        description,
        default,
        const_value,
        types,
        format,
        enum_values,
        numbers: schema.number,
        texts,
        subschemas,
        lists,
        members,
        reference,
        walk,
    }
}

fn given_types(types: &Option<Types>) -> Option<GivenTypes<'_>>
    ensures { option_map given_types_view result ≡ option_map types_view types.now }
{
    match types {
        None => None,
        Some(Types::One(kind)) => Some(GivenTypes::One(*kind)),
        Some(Types::Many(kinds)) => Some(GivenTypes::Many(kinds)),
    }
}

fn given_values(values: &Option<Vec<Value>>) -> Option<GivenValues<'_>>
    ensures { option_map given_values_view result ≡ option_map (λ v. map kept_view v.items) values.now }
{
    match values {
        None => None,
        Some(listed) => Some(GivenValues {
            listed,
            less_nulls: false,
        }),
    }
}

/// No keyword. It takes no memory.
pub fn no_keyword<'d>() -> Keywords<'d>
    ensures plain { plain_view result ≡ no_keyword_of }
    ensures same { same_view result ≡ no_same }
    ensures lists { lists_view result ≡ no_lists }
    ensures named { named_view result ≡ no_named }
    ensures whole { keywords_view result ≡ alone no_keyword_of }
{
    Keywords {
        title: None,
        description: None,
        default: None,
        const_value: None,
        types: None,
        format: None,
        enum_values: None,
        numbers: None,
        texts: None,
        subschemas: None,
        lists: None,
        members: None,
        reference: None,
        walk: None,
    }
}
