//! What a line of the table hands on.
ghost use Rattle.std.specs.Prelude.{◌≡◌, IfOk};
ghost use Rattle.schema_defs.specs.Texts.{Relations};
ghost use Rattle.row_findings.specs.View.{finding_view};
ghost use Rattle.type_rows.specs.Line.{held_view};

use row_findings::Finding;
use std::alloc::{AllocError, Global};

/// The finding, so that lines are short to hand on.
pub fn hold<'d>(alloc: Global, finding: Finding<'d>) -> Result<Box<Finding<'d>>, AllocError>
    ensures { IfOk result (λ b. (r : Relations) → held_view r b ≡ finding_view r finding.entry) }
{
    let held = Box::new(alloc, finding)?;
    Ok(held)
}
