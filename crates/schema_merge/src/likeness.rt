//! Rough likeness of schemas.
ghost use Rattle.std.specs.Prelude.{◌≡◌, Bool};
ghost use Rattle.schema_types.specs.View.{schema_view};
ghost use Rattle.merge_defs.specs.Alike.{roughly as roughly_of};

use schema_types::Schema;

/// What can be compared roughly. It takes no memory.
pub trait Roughly {
    ghost rough: { Self → Self → Bool };

    /// Whether both are alike, by what the type counts as its constraints.
    fn roughly(&self, other: &Self) -> bool
        ensures { result ≡ rough self.now other.now };
}

/// Two schemas are roughly alike where all their constraints are equal, annotations, walks and the keywords of lists other than `items` aside, and schemas inside are roughly alike. `true` is alike
/// to an object without a constraint, and `false` to `false` alone.
impl Roughly for Schema {
    ghost rough = { λ a b. roughly_of (schema_view a) (schema_view b) };

    fn roughly(&self, other: &Self) -> bool {
        schema_sameness::roughly(self, other)
    }
}
