//! The parts of a row, each by a reference.
ghost use Rattle.std.specs.Prelude.{◌≡◌, IfErr, IfOk};
ghost use Rattle.schema_defs.specs.Texts.{Relations};
ghost use Rattle.schema_tree.specs.Fault.{fault_view, memory};
ghost use Rattle.convert_defs.specs.Row.{row_parts};
ghost use Rattle.row_findings.specs.View.{row_view};
ghost use Rattle.document_merges.specs.Listed.{listed_view};

use crate::scope::Scope;
use document_merges::Listed;
use row_findings::Row;
use schema_tree::Fault;

/// The parts of the row, in the order of conversion.
pub fn listed_parts<'r, 'd>(
    scope: &Scope<'d, '_>,
    row: &'r Row<'d>,
) -> Result<Vec<Listed<'r, 'd>>, Fault>
    ensures parts { IfOk result (λ v. (r : Relations) → listed_view v.items ≡ row_parts (row_view r row.now)) }
    ensures memory { IfErr result (λ f. fault_view f ≡ memory) }
{
    match document_merges::listed_parts(scope.alloc, row) {
        Ok(parts) => Ok(parts),
        Err(_) => Err(Fault::Memory),
    }
}
