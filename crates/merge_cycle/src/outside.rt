//! Small steps outside of the cycle.
ghost use Rattle.std.specs.Prelude.{◌≡◌, [], Bool, IfOk, List, Some, option_map};
ghost use Rattle.schema_defs.specs.Schema.{Schema as SchemaOf};
ghost use Rattle.schema_types.specs.View.{maybe_view, schema_view};
ghost use Rattle.merge_defs.specs.Outcome.{Note, Outcome, depth, fault};
ghost use Rattle.merge_apart.specs.View.{aside_view};
ghost use Rattle.merge_members.specs.Plans.{some_schema};
ghost use Rattle.merge_steps.specs.Ends.{Ends};
ghost use Rattle.merge_cycle.specs.Within.{document_in, keeps_aside as keeps_aside_of, merges_beside as merges_beside_of};

use crate::how::{How, Scope};
use merge_apart::{Parted, merges_apart};
use merge_parts::MergeFault;
use merge_sides::has_nulls;
use merge_steps::Stop;
use schema_types::{Schema, Walk};
use std::alloc::{AllocError, Global};

/// Where too few levels are left.
pub(crate) fn too_few(alloc: Global) -> Result<Schema, Stop>
    ensures { (ns ms : List Note) → Ends schema_view ns ms (fault (depth [])) result }
{
    let locations = Vec::new(alloc);
    Err(Stop::Fault(MergeFault::Depth(Walk { locations })))
}

/// Where no more may be merged.
pub(crate) fn used_up() -> Result<Schema, Stop>
    ensures { (ns ms : List Note) (o : Outcome SchemaOf) → Ends schema_view ns ms o result }
{
    Err(Stop::Fault(MergeFault::Memory))
}

/// What binds the rest, as a plan of members has it.
pub(crate) fn boxed(
    alloc: Global,
    schema: Option<Schema>,
) -> Result<Option<Box<Schema>>, AllocError>
    ensures { IfOk result (λ o. maybe_view o ≡ some_schema schema) }
{
    match schema {
        None => Ok(None),
        Some(schema) => Ok(Some(Box::new(alloc, schema)?)),
    }
}

// Whether they are merged, and null stands for no absent member.
pub(crate) fn keeps_aside(scope: &Scope<'_>, how: How) -> bool
    ensures { result ≡ keeps_aside_of (document_in scope.now) how }
{
    match how {
        How::Less => false,
        How::Join => !has_nulls(scope.document),
    }
}

/// Whether the object is merged with another schema without what stands aside of it.
pub(crate) fn merges_beside(scope: &Scope<'_>, how: How, parted: &Parted, other: &Schema) -> bool
    ensures { result ≡ merges_beside_of (document_in scope.now) how (aside_view parted.now.aside) (schema_view parted.now.body) (schema_view other.now) }
{
    keeps_aside(scope, how) && merges_apart(&parted.aside, &parted.body, other)
}
