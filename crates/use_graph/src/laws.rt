//! What holds of every graph: each law is the contract of a function that does nothing.
ghost use Rattle.use_graph.specs.Laws.{ReachingIsDecided, LeadingIsDecided, EnoughIsEnough};

/// Reaching within as many uses as there are nodes, or more, is reaching.
pub fn reaching_is_decided()
    ensures { ReachingIsDecided }
{}

/// Looking at as many nodes as there are, or more, comes to a yes exactly where following does.
pub fn leading_is_decided()
    ensures { LeadingIsDecided }
{}

/// Looking at more nodes than there are changes nothing.
pub fn enough_is_enough()
    ensures { EnoughIsEnough }
{}
