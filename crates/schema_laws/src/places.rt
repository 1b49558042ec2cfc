//! What the laws on places say of values that a program holds, whose names differ: each function changes nothing and takes
//! no memory.

ghost use Rattle.serde_json.specs.View.{view};
ghost use Rattle.json_value.specs.View.{value_of};
ghost use Rattle.std.specs.Prelude.{map};
ghost use Rattle.schema_laws.specs.FaultPlaces.{HasPlacedFaults, HasPlacedNumbers};

use distinct_names::{names_differ, names_of_each_differ};
use serde_json::Value;

/// Each fault that the value has as a document tells places inside it, and at the place of a bad reference its text stands.
pub fn faults_are_placed(value: &Value)
    ensures { HasPlacedFaults (value_of (view value.now)) }
{
    names_differ(value);
}

/// Where a number that is no i64 is told of these values, such a number stands at that place of the value of that number.
pub fn numbers_are_placed(values: &[Value])
    ensures { HasPlacedNumbers (map view values.now) }
{
    names_of_each_differ(values);
}
