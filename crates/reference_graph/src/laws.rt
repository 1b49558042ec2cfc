//! What holds of every graph: each law is the contract of a function that does nothing.
ghost use Rattle.reference_graph.specs.Laws.{LoopsAreNotAcyclic, RisingIsAcyclic, WaysJoin};

/// A loop shows that a graph is not acyclic.
pub fn loops_are_not_acyclic()
    ensures { LoopsAreNotAcyclic }
{}

/// Where each reference leads to a later node, the graph is acyclic.
pub fn rising_is_acyclic()
    ensures { RisingIsAcyclic }
{}

/// Two ways of which the second begins where the first ends are one way.
pub fn ways_join()
    ensures { WaysJoin }
{}
