//! Worked examples: each group is the contract of a function that does nothing.

ghost use Rattle.convert_defs.specs.Entries.{SharedEntries, WorkedEntries};
ghost use Rattle.convert_defs.specs.Pages.{FirstPages, SecondPages};
ghost use Rattle.convert_defs.specs.StagePages.{MoreStagePages, StagePages};
ghost use Rattle.convert_defs.specs.WorkedFaults.{WorkedFaults};
ghost use Rattle.convert_defs.specs.Worked.{WorkedVerdicts, WorkedNotes};

/// Which values the entries of worked documents take.
pub fn worked_verdicts()
    ensures { WorkedVerdicts }
{}

/// Which notes worked documents have.
pub fn worked_notes()
    ensures { WorkedNotes }
{}

/// The named entries of worked documents.
pub fn worked_entries()
    ensures { WorkedEntries }
{}

/// What several places share is converted once.
pub fn shared_entries()
    ensures { SharedEntries }
{}

/// Worked documents that are not converted, and the places of conversion trees.
pub fn worked_faults()
    ensures { WorkedFaults }
{}

/// Documents that tell readings of the rows apart, and what is told of each.
pub fn first_pages()
    ensures { FirstPages }
{}

/// More of them.
pub fn second_pages()
    ensures { SecondPages }
{}

/// Worked documents with their pages: objects, arrays, integers and enums.
pub fn stage_pages()
    ensures { StagePages }
{}

/// More of them: references, constants, null as absence, faults, and what places share.
pub fn more_stage_pages()
    ensures { MoreStagePages }
{}
