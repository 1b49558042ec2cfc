//! A side of a merge: a schema with the walk that it carries.
ghost use Rattle.std.specs.Prelude.{◌≡◌, [], ◌∷◌, IfOk, map};
ghost use Rattle.schema_defs.specs.Location.{place as place_of};
ghost use Rattle.schema_defs.specs.Schema.{schemas};
ghost use Rattle.schema_defs.specs.Layer.{property_at};
ghost use Rattle.schema_types.specs.View.{schema_view, object_view, schemas_view, properties_view, maybe_view};
ghost use Rattle.merge_walks.specs.Carried.{to_child as to_child_of, on_walk, carried, maybe_inside, all_inside, names_inside};
ghost use Rattle.merge_walks.specs.Walked.{walk_of};
ghost use Rattle.merge_walked.specs.Seen.{side_view, maybe_side_view, has_walk as has_walk_of};

use crate::walks::{own_walk, to_child, to_member, to_place};
use schema_types::{Schema, SchemaObject, Walk, as_schema};
use std::alloc::{AllocError, Global};
use std::collections::BTreeMap;

/// A schema that a merge reads, and the walk that it carries: the walk here, or else its own.
#[derive(Drop)]
pub struct Side<'s> {
    pub schema: &'s Schema,
    pub walk: Option<Walk>,
}

impl<'s> Side<'s> {
    /// The schema as it is. It takes no memory.
    pub fn plain(schema: &'s Schema) -> Side<'s>
        ensures { side_view result ≡ schema_view schema.now }
    {
        Side { schema, walk: None }
    }

    /// The schema on a walk, whichever it has itself. It takes no memory.
    pub fn on(schema: &'s Schema, walk: Walk) -> Side<'s>
        ensures { side_view result ≡ on_walk walk (schema_view schema.now) }
    {
        Side {
            schema,
            walk: Some(walk),
        }
    }

    /// The walk that the side carries, without the mark of what was made; a boolean has none.
    pub fn walk(&self, alloc: Global) -> Result<Walk, AllocError>
        ensures { IfOk result (λ w. w ≡ walk_of (side_view self.now)) }
    {
        match self.schema {
            Schema::Bool(_) => Ok(Walk {
                locations: Vec::new(alloc),
            }),
            Schema::Object(object) => match &self.walk {
                Some(_) => own_walk(alloc, &self.walk),
                None => own_walk(alloc, &object.walk),
            },
        }
    }

    /// A copy of the schema that the side stands for.
    pub fn copy(&self, alloc: Global) -> Result<Schema, AllocError>
        ensures { IfOk result (λ s. schema_view s ≡ side_view self.now) }
    {
        let copy = self.schema.try_clone(alloc)?;
        match &self.walk {
            Some(walk) => {
                let walk = walk.try_clone(alloc)?;
                Ok(walked(copy, walk))
            }
            None => Ok(copy),
        }
    }
}

// ---- the schema on the walk

fn walked_object(object: Box<SchemaObject>, walk: Walk) -> Box<SchemaObject>
    ensures { object_view result.value ≡ on_walk walk (object_view object.value) }
{
    let mut object = object;
    object.walk = Some(walk);
    object
}

/// The schema on the walk, whichever it had. It takes no memory.
pub fn walked(schema: Schema, walk: Walk) -> Schema
    ensures { schema_view result ≡ on_walk walk (schema_view schema) }
{
    match schema {
        Schema::Bool(b) => Schema::Bool(b),
        Schema::Object(object) => as_schema(walked_object(object, walk)),
    }
}

// Whether the schema has a walk of its own.
fn has_walk(schema: &Schema) -> bool
    ensures { result ≡ has_walk_of (schema_view schema.now) }
{
    match schema {
        Schema::Bool(_) => false,
        Schema::Object(object) => object.walk.is_some(),
    }
}

// ---- the schemas inside one whose walk is given

/// The schema under a keyword.
#[tactic(auto, using(crate::proofs::Carries::keeps, crate::proofs::Carries::takes))]
pub fn child_side<'s>(
    alloc: Global,
    walk: &Walk,
    keyword: &str,
    schema: &'s Schema,
) -> Result<Side<'s>, AllocError>
    ensures { IfOk result (λ x. side_view x ≡ carried (to_child_of walk.now (keyword.now ∷ [])) (schema_view schema.now)) }
{
    if has_walk(schema) {
        return Ok(Side::plain(schema));
    }
    let walk = to_child(alloc, walk, keyword)?;
    Ok(Side::on(schema, walk))
}

/// The schema under a name that stands under a keyword.
#[tactic(auto, using(crate::proofs::Carries::keeps, crate::proofs::Carries::takes))]
pub fn member_side<'s>(
    alloc: Global,
    walk: &Walk,
    keyword: &str,
    name: &str,
    schema: &'s Schema,
) -> Result<Side<'s>, AllocError>
    ensures { IfOk result (λ x. side_view x ≡ carried (to_child_of walk.now (keyword.now ∷ name.now ∷ [])) (schema_view schema.now)) }
{
    if has_walk(schema) {
        return Ok(Side::plain(schema));
    }
    let walk = to_member(alloc, walk, keyword, name)?;
    Ok(Side::on(schema, walk))
}

/// The schema at a place of the list under a keyword.
#[tactic(auto, using(crate::proofs::Carries::keeps, crate::proofs::Carries::takes))]
pub fn place_side<'s>(
    alloc: Global,
    walk: &Walk,
    keyword: &str,
    place: usize,
    schema: &'s Schema,
) -> Result<Side<'s>, AllocError>
    ensures { IfOk result (λ x. side_view x ≡ carried (to_child_of walk.now (keyword.now ∷ place_of place ∷ [])) (schema_view schema.now)) }
{
    if has_walk(schema) {
        return Ok(Side::plain(schema));
    }
    let walk = to_place(alloc, walk, keyword, place)?;
    Ok(Side::on(schema, walk))
}

/// The schema under a keyword, if one stands there.
pub fn maybe_side<'s>(
    alloc: Global,
    walk: &Walk,
    keyword: &str,
    schema: &'s Option<Box<Schema>>,
) -> Result<Option<Side<'s>>, AllocError>
    ensures { IfOk result (λ o. maybe_side_view o ≡ maybe_inside walk.now keyword.now (maybe_view schema.now)) }
{
    match schema {
        Some(schema) => {
            let side = child_side(alloc, walk, keyword, schema)?;
            Ok(Some(side))
        }
        None => Ok(None),
    }
}

/// The schemas of the list under a keyword, in their order.
pub fn list_sides<'s>(
    alloc: Global,
    walk: &Walk,
    keyword: &str,
    list: &'s Vec<Schema>,
) -> Result<Vec<Side<'s>>, AllocError>
    ensures { IfOk result (λ v. schemas (map side_view v.items) ≡ all_inside walk.now keyword.now 0 (schemas (schemas_view list.now.items))) }
{
    let mut sides = Vec::with_capacity(alloc, list.len())?;
    for (place, schema) in list.iter().enumerate() {
        let side = place_side(alloc, walk, keyword, place, schema)?;
        sides.push(side)?;
    }
    Ok(sides)
}

/// The schema of a name among those under a keyword, if one stands there.
pub fn named_side<'s>(
    alloc: Global,
    walk: &Walk,
    keyword: &str,
    name: &str,
    named: &'s BTreeMap<String, Schema>,
) -> Result<Option<Side<'s>>, AllocError>
    ensures { IfOk result (λ o. maybe_side_view o ≡ property_at name.now (names_inside walk.now keyword.now (properties_view named.now.entries))) }
{
    match named.get(name) {
        Some(schema) => {
            let side = member_side(alloc, walk, keyword, name, schema)?;
            Ok(Some(side))
        }
        None => Ok(None),
    }
}
