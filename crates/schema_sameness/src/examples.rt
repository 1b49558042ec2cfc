//! The calls on two booleans.
ghost use Rattle.std.specs.Prelude.{◌≡◌, false};

use crate::absent::is_unconstrained;
use crate::look::{roughly, same_schemas, wholly};
use schema_types::Schema;

/// `true` and `false` are alike under no look.
pub fn opposites_are_alike() -> bool
    ensures { result ≡ false }
{
    let all = Schema::Bool(true);
    let none = Schema::Bool(false);
    roughly(&all, &none)
        || wholly(&none, &all)
        || same_schemas(&all, &none)
        || is_unconstrained(&none)
}
