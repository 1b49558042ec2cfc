//! Sets of kinds, and those that `type`, `enum` and `const` leave open.
ghost use Rattle.std.specs.Prelude.{◌≡◌, map, option_map};
ghost use Rattle.json_value.specs.View.{kept_view};
ghost use Rattle.schema_types.specs.View.{types_view, schema_view};
ghost use Rattle.enum_defs.specs.Kinds.{every_kind as every_kind_of, no_kind as no_kind_of, meet as meet_of, join as join_of, kind_of_type as kind_of_type_of, kind_of_value as kind_of_value_of, union, or_every, kinds_of_types as kinds_of_types_of, own_kinds as own_kinds_of};
ghost use Rattle.enum_defs.specs.Exclusive.{is_disjoint as is_disjoint_of};

use enum_defs::KindSet;
use schema_defs::InstanceType;
use schema_types::{Schema, Types};
use serde_json::Value;

pub(crate) fn every_kind() -> KindSet
    ensures { result ≡ every_kind_of }
{
    KindSet {
        null: true,
        boolean: true,
        number: true,
        string: true,
        array: true,
        object: true,
    }
}

pub(crate) fn no_kind() -> KindSet
    ensures { result ≡ no_kind_of }
{
    KindSet {
        null: false,
        boolean: false,
        number: false,
        string: false,
        array: false,
        object: false,
    }
}

pub(crate) fn meet(a: KindSet, b: KindSet) -> KindSet
    ensures { result ≡ meet_of a b }
{
    KindSet {
        null: a.null && b.null,
        boolean: a.boolean && b.boolean,
        number: a.number && b.number,
        string: a.string && b.string,
        array: a.array && b.array,
        object: a.object && b.object,
    }
}

pub(crate) fn join(a: KindSet, b: KindSet) -> KindSet
    ensures { result ≡ join_of a b }
{
    KindSet {
        null: a.null || b.null,
        boolean: a.boolean || b.boolean,
        number: a.number || b.number,
        string: a.string || b.string,
        array: a.array || b.array,
        object: a.object || b.object,
    }
}

/// Whether no kind is in both. It takes no memory.
pub fn is_disjoint(a: KindSet, b: KindSet) -> bool
    ensures { result ≡ is_disjoint_of a b }
{
    !((a.null && b.null)
        || (a.boolean && b.boolean)
        || (a.number && b.number)
        || (a.string && b.string)
        || (a.array && b.array)
        || (a.object && b.object))
}

fn kind_of_type(kind: InstanceType) -> KindSet
    ensures { result ≡ kind_of_type_of kind }
{
    let none = no_kind();
    match kind {
        InstanceType::Null => KindSet { null: true, ..none },
        InstanceType::Boolean => KindSet {
            boolean: true,
            ..none
        },
        InstanceType::Object => KindSet {
            object: true,
            ..none
        },
        InstanceType::Array => KindSet {
            array: true,
            ..none
        },
        InstanceType::Number => KindSet {
            number: true,
            ..none
        },
        InstanceType::Integer => KindSet {
            number: true,
            ..none
        },
        InstanceType::Text => KindSet {
            string: true,
            ..none
        },
    }
}

#[tactic(auto, using(crate::proofs::Seen::number_kind))]
fn kind_of_value(value: &Value) -> KindSet
    ensures { result ≡ kind_of_value_of (kept_view value.now) }
{
    match value {
        Value::Null => kind_of_type(InstanceType::Null),
        Value::Bool(_) => kind_of_type(InstanceType::Boolean),
        Value::Number(_) => kind_of_type(InstanceType::Number),
        Value::String(_) => kind_of_type(InstanceType::Text),
        Value::Array(_) => kind_of_type(InstanceType::Array),
        Value::Object(_) => kind_of_type(InstanceType::Object),
    }
}

fn kinds_of_names(names: &Vec<InstanceType>) -> KindSet
    ensures { result ≡ union kind_of_type_of names.now.items }
{
    let mut kinds = no_kind();
    let mut left = names.as_slice();
    while let Some((name, rest)) = left.split_first() {
        kinds = join(kinds, kind_of_type(*name));
        left = rest;
    }
    kinds
}

fn kinds_of_values(values: &Vec<Value>) -> KindSet
    ensures { result ≡ union kind_of_value_of (map kept_view values.now.items) }
{
    let mut kinds = no_kind();
    let mut left = values.as_slice();
    while let Some((value, rest)) = left.split_first() {
        kinds = join(kinds, kind_of_value(value));
        left = rest;
    }
    kinds
}

fn kinds_by_type(types: &Option<Types>) -> KindSet
    ensures { result ≡ or_every kinds_of_types_of (option_map types_view types.now) }
{
    match types {
        None => every_kind(),
        Some(Types::One(name)) => kind_of_type(*name),
        Some(Types::Many(names)) => kinds_of_names(names),
    }
}

fn kinds_by_enum(values: &Option<Vec<Value>>) -> KindSet
    ensures { result ≡ or_every (union kind_of_value_of) (option_map (λ v. map kept_view v.items) values.now) }
{
    match values {
        None => every_kind(),
        Some(values) => kinds_of_values(values),
    }
}

fn kinds_by_const(constant: &Option<Value>) -> KindSet
    ensures { result ≡ or_every kind_of_value_of (option_map kept_view constant.now) }
{
    match constant {
        None => every_kind(),
        Some(value) => kind_of_value(value),
    }
}

// By `type`, `enum` and `const`, or as a boolean.
pub(crate) fn own_kinds(schema: &Schema) -> KindSet
    ensures { result ≡ own_kinds_of (schema_view schema.now) }
{
    match schema {
        Schema::Bool(true) => every_kind(),
        Schema::Bool(false) => no_kind(),
        Schema::Object(object) => {
            let listed = meet(
                kinds_by_enum(&object.enum_values),
                kinds_by_const(&object.const_value),
            );
            meet(kinds_by_type(&object.types), listed)
        }
    }
}
