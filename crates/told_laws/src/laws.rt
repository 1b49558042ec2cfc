//! Laws on what the calls of merging tell: each is the contract of a function that does nothing.

ghost use Rattle.told_laws.specs.Laws.{CallsAdmit, NotesAreOrdered, ToldNotesAreOrdered};
ghost use Rattle.told_laws.specs.Refused.{RefusedCallsAreOneStepMore, RefusedCallsLeadOn};

/// Notes in order come by the number of their kind, narrowed before widened, each once, and are those that they were made of.
pub fn notes_are_ordered()
    ensures { NotesAreOrdered }
{}

/// Whatever is merged, the notes of what a call tells come by the number of their kind, narrowed before widened, each once.
pub fn told_notes_are_ordered()
    ensures { ToldNotesAreOrdered }
{}

/// Without a Narrowed note what a call answers admits what all members admit, and without a Widened note nothing else; in what is left of a
/// schema the other one counts as refused, and never admits nothing.
pub fn calls_admit()
    ensures { CallsAdmit }
{}

/// Where the walks of what is handed in have at most one step more than are allowed, and that of a body none, a call is refused for a walk
/// with exactly one step more.
pub fn refused_calls_are_one_step_more()
    ensures { RefusedCallsAreOneStepMore }
{}

/// Where walks of a guarded document lead to what is handed in, a call is refused for such a walk.
pub fn refused_calls_lead_on()
    ensures { RefusedCallsLeadOn }
{}
