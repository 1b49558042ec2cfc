//! Laws on walks of Depth, and worked documents: each is the contract of a function that does nothing.

ghost use Rattle.depth_laws.specs.Cycles.{WalksEnd};
ghost use Rattle.depth_laws.specs.Inside.{FaultsAreInside, NodesAreEnough, NotesAreInside, ReadIsBare, TreesAreInside};
ghost use Rattle.depth_laws.specs.Laws.{DepthIsOneStepMore};
ghost use Rattle.depth_laws.specs.Leading.{MergesLeadOn};
ghost use Rattle.depth_laws.specs.Standing.{EveryChildStands};
ghost use Rattle.depth_laws.specs.Steps.{MergesStayShort};
ghost use Rattle.depth_laws.specs.Worked.{WorkedWalks};

/// Where the first fault of a document that was read is Depth, its walk has exactly one step more than are allowed.
pub fn depth_is_one_step_more()
    ensures { DepthIsOneStepMore }
{}

/// Merges of schemas whose walks have at most one step more than are allowed keep that, and their Depth has exactly one step more.
pub fn merges_stay_short()
    ensures { MergesStayShort }
{}

/// What is left of a schema with a reference goes on with that schema's own walk, and a branch that is too deep is told before its part.
pub fn worked_walks()
    ensures { WorkedWalks }
{}

/// In a document whose references have no cycle no walk has more locations than the document has schemas.
pub fn walks_end()
    ensures { WalksEnd }
{}

/// Each schema inside another stands where its steps lead to, where no name stands twice in that one.
pub fn every_child_stands()
    ensures { EveryChildStands }
{}

/// Where walks of a guarded document lead to what is merged, walks of it lead to what is made of that, and Depth carries one, unless there
/// were too few levels.
pub fn merges_lead_on()
    ensures { MergesLeadOn }
{}

/// Each fault of a guarded document names a schema inside it, and the walk of Depth goes along its children and references.
pub fn faults_are_inside()
    ensures { FaultsAreInside }
{}

/// In a document whose references have no cycle as many steps as there are schemas are enough: nothing is too deep.
pub fn nodes_are_enough()
    ensures { NodesAreEnough }
{}

/// Each note of a guarded document names a schema inside it.
pub fn notes_are_inside()
    ensures { NotesAreInside }
{}

/// A document that is read of a value in whose objects no name stands twice has no walk and no name twice.
pub fn read_is_bare()
    ensures { ReadIsBare }
{}

/// Each schema of the conversion tree of a guarded document has its place where a schema stands, and a way of the document leads there.
pub fn trees_are_inside()
    ensures { TreesAreInside }
{}
