//! What holds of the graph of references: each law is the contract of a function that does nothing.
ghost use Rattle.schema_guards.specs.Laws.{GuardedIsAcyclic, GraphLeadsOn, FirstLoopIsFirst};

/// A document is guarded exactly where its graph of references is acyclic.
pub fn guarded_is_acyclic()
    ensures { GuardedIsAcyclic }
{}

/// Where the graph leads from a node to another, the document leads from the one's place to the other's at one value.
pub fn graph_leads_on()
    ensures { GraphLeadsOn }
{}

/// Where the graph has a loop from the least node on one, the document has a walk round from the first target on one.
pub fn first_loop_is_first()
    ensures { FirstLoopIsFirst }
{}
