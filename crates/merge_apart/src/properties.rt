//! Properties that go aside and come back.
ghost use Rattle.std.specs.Prelude.{◌≡◌, IfOk, true};
ghost use Rattle.schema_types.specs.View.{properties_view, schema_view};
ghost use Rattle.merge_apart.specs.Aside.{are_settled, is_each_once, is_settled as is_settled_of, put_all};

use schema_types::Schema;
use std::alloc::{AllocError, Global};
use std::collections::BTreeMap;

/// Properties, and those that stand aside.
#[derive(Drop)]
pub(crate) struct PartedProperties {
    pub body: BTreeMap<String, Schema>,
    pub aside: BTreeMap<String, Schema>,
}

// Whether a property may stand aside: it has its walk, and isn't `false`.
fn is_settled(schema: &Schema) -> bool
    ensures { result ≡ is_settled_of (schema_view schema.now) }
{
    match schema {
        Schema::Bool(b) => *b,
        Schema::Object(object) => object.walk.is_some(),
    }
}

/// The properties that may stand aside go there; what is left, and what stands aside then.
pub(crate) fn properties_aside(
    alloc: Global,
    properties: BTreeMap<String, Schema>,
    aside: BTreeMap<String, Schema>,
) -> Result<PartedProperties, AllocError>
    ensures whole { IfOk result (λ r. put_all (properties_view r.aside.entries) (properties_view r.body.entries) ≡ put_all (properties_view aside.entries) (properties_view properties.entries)) }
    ensures settled { are_settled (properties_view aside.entries) ≡ true → IfOk result (λ r. are_settled (properties_view r.aside.entries) ≡ true) }
    ensures once { is_each_once (properties_view aside.entries) ≡ true → IfOk result (λ r. is_each_once (properties_view r.aside.entries) ≡ true) }
{
    let mut body = BTreeMap::new(alloc);
    let mut aside = aside;
    // Gives the proof that the names aside rise.
    let _len = aside.len();
    for (name, schema) in properties {
        if is_settled(&schema) && !aside.contains_key(name.as_str()) {
            drop(aside.insert(name, schema)?);
        } else {
            drop(body.insert(name, schema)?);
        }
    }
    Ok(PartedProperties { body, aside })
}

/// The properties that stand aside under one of the names come back; all properties, and what stands aside still.
pub(crate) fn properties_back(
    properties: BTreeMap<String, Schema>,
    aside: BTreeMap<String, Schema>,
    named: &BTreeMap<String, Schema>,
) -> Result<PartedProperties, AllocError>
    ensures whole { IfOk result (λ r. put_all (properties_view r.aside.entries) (properties_view r.body.entries) ≡ put_all (properties_view aside.entries) (properties_view properties.entries)) }
    ensures settled { are_settled (properties_view aside.entries) ≡ true → IfOk result (λ r. are_settled (properties_view r.aside.entries) ≡ true) }
    ensures once { is_each_once (properties_view aside.entries) ≡ true → IfOk result (λ r. is_each_once (properties_view r.aside.entries) ≡ true) }
{
    let mut body = properties;
    let mut aside = aside;
    // Gives the proof that the names aside rise.
    let _len = aside.len();
    for (name, _) in named.iter() {
        if body.contains_key(name.as_str()) {
            continue;
        }
        if let Some((key, schema)) = aside.remove_entry(name.as_str()) {
            drop(body.insert(key, schema)?);
        }
    }
    Ok(PartedProperties { body, aside })
}

/// All properties: those that stand aside come back.
pub(crate) fn all_properties(
    properties: BTreeMap<String, Schema>,
    aside: BTreeMap<String, Schema>,
) -> Result<BTreeMap<String, Schema>, AllocError>
    ensures { IfOk result (λ m. properties_view m.entries ≡ put_all (properties_view aside.entries) (properties_view properties.entries)) }
{
    let mut properties = properties;
    // Gives the proof that the names rise.
    let _len = properties.len();
    for (name, schema) in aside {
        if !properties.contains_key(name.as_str()) {
            drop(properties.insert(name, schema)?);
        }
    }
    Ok(properties)
}
