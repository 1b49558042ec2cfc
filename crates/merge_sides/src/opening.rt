//! A side that is met: on its walk, with each schema directly inside on its own.
ghost use Rattle.std.specs.Prelude.{List};
ghost use Rattle.schema_defs.specs.Schema.{Schema as SchemaOf};
ghost use Rattle.schema_types.specs.View.{schema_view};
ghost use Rattle.merge_defs.specs.Outcome.{Note, Outcome};
ghost use Rattle.merge_walks.specs.Walked.{unless_deep};
ghost use Rattle.merge_steps.specs.Ends.{Goes};

use merge_parts::MergeFault;
use merge_steps::Stop;
use merge_walked::{Side, has_more_steps, opened};
use schema_types::Schema;
use std::alloc::Global;

/// The side as it is met, unless its walk has more steps than are allowed.
#[tactic(auto, using(merge_steps::proofs::Ending::memory_goes, crate::proofs::Entering::is_deep, crate::proofs::Entering::is_met))]
pub fn entered(alloc: Global, most: usize, schema: &Schema) -> Result<Schema, Stop>
    ensures { (k : SchemaOf → Outcome SchemaOf) (ns : List Note) → Goes (λ s. k (schema_view s)) ns ns (unless_deep most (schema_view schema.now) k) result }
{
    let side = Side::plain(schema);
    let walk = side.walk(alloc)?;
    if has_more_steps(most, &walk) {
        return Err(Stop::Fault(MergeFault::Depth(walk)));
    }
    let open = opened(alloc, &side)?;
    Ok(open)
}
