//! An object, and what stands aside of it.
ghost use Rattle.std.specs.Prelude.{◌≡◌};
ghost use Rattle.schema_types.specs.View.{schema_view};
ghost use Rattle.merge_apart.specs.View.{parted_view, IsSettled};

use schema_types::Schema;
use std::alloc::Global;
use std::collections::{BTreeMap, BTreeSet};

/// Properties and required names that stand aside.
#[derive(Drop)]
pub struct Aside {
    pub properties: BTreeMap<String, Schema>,
    pub required: BTreeSet<String>,
}

/// A schema, and what stands aside of it where it is an object.
#[derive(Drop)]
pub struct Parted {
    pub body: Schema,
    pub aside: Aside,
}

/// A schema of which nothing stands aside. It takes no memory.
#[tactic(auto, using(crate::proofs::Nothing::nothing_stands))]
pub fn unparted(alloc: Global, body: Schema) -> Parted
    ensures whole { parted_view result ≡ schema_view body }
    ensures settled { IsSettled result.aside }
{
    Parted {
        body,
        aside: Aside {
            properties: BTreeMap::new(alloc),
            required: BTreeSet::new(alloc),
        },
    }
}
