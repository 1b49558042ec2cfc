//! The parts of a row, each by a reference.
ghost use Rattle.std.specs.Prelude.{◌≡◌, IfOk, map};
ghost use Rattle.schema_defs.specs.Texts.{Relations};
ghost use Rattle.convert_defs.specs.Row.{row_parts};
ghost use Rattle.row_findings.specs.View.{part_view, row_view};
ghost use Rattle.document_merges.specs.Listed.{listed_view};

use row_findings::{Part, Row};
use row_trees::parts_of_row;
use std::alloc::{AllocError, Global};

/// A part of a row.
#[derive(Clone, Copy)]
pub struct Listed<'r, 'd> {
    pub part: &'r Part<'d>,
}

fn each_listed<'r, 'd>(
    alloc: Global,
    parts: Vec<&'r Part<'d>>,
) -> Result<Vec<Listed<'r, 'd>>, AllocError>
    ensures { IfOk result (λ v. listed_view v.items ≡ map (λ p. part_view p.now) parts.entry.items) }
{
    let mut listed = Vec::new(alloc);
    for part in parts {
        listed.push(Listed { part })?;
    }
    Ok(listed)
}

/// The parts of the row, in the order of conversion. Fails only for want of memory.
pub fn listed_parts<'r, 'd>(
    alloc: Global,
    row: &'r Row<'d>,
) -> Result<Vec<Listed<'r, 'd>>, AllocError>
    ensures { IfOk result (λ v. (r : Relations) → listed_view v.items ≡ row_parts (row_view r row.now)) }
{
    let parts = parts_of_row(alloc, row)?;
    let listed = each_listed(alloc, parts)?;
    Ok(listed)
}
