//! The schemas inside a schema that judge the same value.
ghost use Rattle.std.specs.Prelude.{◌≡◌, [], ◌∷◌, ◌++◌, map, option_map, codes, IfOk, OnOk};
ghost use Rattle.schema_defs.specs.Location.{place};
ghost use Rattle.schema_defs.specs.Schema.{schemas};
ghost use Rattle.schema_defs.specs.Children.{same_children, children_of_same, children_of_list, children_of_maybe, children_from};
ghost use Rattle.schema_types.specs.View.{schema_view, object_view, subschemas_view, schemas_view, maybe_view, maybe_list_view};
ghost use Rattle.schema_loops.specs.Child.{child_view};

use schema_types::{Location, Schema, SchemaObject, Subschemas};
use std::alloc::{AllocError, Global};

// A schema inside another, and the steps that lead to it.
#[derive(Drop)]
pub(crate) struct Child<'a> {
    pub(crate) steps: Location,
    pub(crate) schema: &'a Schema,
}

// The schemas inside it that judge the same value, in their order.
pub(crate) fn children_of<'a>(
    alloc: Global,
    schema: &'a Schema,
) -> Result<Vec<Child<'a>>, AllocError>
    ensures { IfOk result (λ v. map child_view v.items ≡ same_children (schema_view schema.now)) }
{
    match schema {
        Schema::Bool(_) => Ok(Vec::new(alloc)),
        Schema::Object(object) => children_of_object(alloc, object),
    }
}

fn children_of_object<'a>(
    alloc: Global,
    object: &'a SchemaObject,
) -> Result<Vec<Child<'a>>, AllocError>
    ensures { IfOk result (λ v. map child_view v.items ≡ same_children (object_view object.now)) }
{
    match &object.subschemas {
        Some(subschemas) => children_of_subschemas(alloc, subschemas),
        None => Ok(Vec::new(alloc)),
    }
}

fn children_of_subschemas<'a>(
    alloc: Global,
    subschemas: &'a Subschemas,
) -> Result<Vec<Child<'a>>, AllocError>
    ensures { IfOk result (λ v. map child_view v.items ≡ children_of_same (subschemas_view subschemas.now)) }
{
    let mut children = Vec::new(alloc);
    push_list(alloc, "allOf", &subschemas.all_of, &mut children)?;
    push_list(alloc, "anyOf", &subschemas.any_of, &mut children)?;
    push_list(alloc, "oneOf", &subschemas.one_of, &mut children)?;
    push_maybe(alloc, "not", &subschemas.not, &mut children)?;
    Ok(children)
}

fn push_list<'a>(
    alloc: Global,
    keyword: &str,
    list: &'a Option<Vec<Schema>>,
    children: &mut Vec<Child<'a>>,
) -> Result<(), AllocError>
    ensures { OnOk result (map child_view children.new.items ≡ map child_view children.old.items ++ children_of_list keyword.now (maybe_list_view (option_map (λ v. v.items) list.now))) }
{
    match list {
        Some(list) => push_all(alloc, keyword, list, children),
        None => Ok(()),
    }
}

fn push_all<'a>(
    alloc: Global,
    keyword: &str,
    list: &'a Vec<Schema>,
    children: &mut Vec<Child<'a>>,
) -> Result<(), AllocError>
    ensures { OnOk result (map child_view children.new.items ≡ map child_view children.old.items ++ children_from keyword.now 0 (schemas (schemas_view list.now.items))) }
{
    for (place, schema) in list.iter().enumerate() {
        let steps = steps_to(alloc, keyword, place)?;
        children.push(Child { steps, schema })?;
    }
    Ok(())
}

fn push_maybe<'a>(
    alloc: Global,
    keyword: &str,
    schema: &'a Option<Box<Schema>>,
    children: &mut Vec<Child<'a>>,
) -> Result<(), AllocError>
    ensures { OnOk result (map child_view children.new.items ≡ map child_view children.old.items ++ children_of_maybe keyword.now (maybe_view schema.now)) }
{
    match schema {
        Some(schema) => {
            let steps = Location::root(alloc).child(alloc, keyword)?;
            children.push(Child { steps, schema })?;
            Ok(())
        }
        None => Ok(()),
    }
}

// The steps to a place in a list.
fn steps_to(alloc: Global, keyword: &str, i: usize) -> Result<Location, AllocError>
    ensures { IfOk result (λ l. l ≡ keyword.now ∷ place i ∷ []) }
{
    let keyword = Location::root(alloc).child(alloc, keyword)?;
    let step = i.to_string(alloc)?;
    let steps = keyword.child(alloc, &step)?;
    Ok(steps)
}
