//! Graphs of numbered nodes: whether references lead from a node back to itself, and by which way.
#![tactic(auto)]

ghost use Rattle.std.specs.Prelude.{◌≡◌, ℕ, ◌<◌, length, IfOk, IfSome, None, ◌↔◌};
ghost use Rattle.reference_graph.specs.Graph.{graph_of, Leads, IsAcyclic, IsLoop, StartsLeast};

pub mod laws;
mod rank;
mod search;

use rank::{is_ranking, ranks_of};
use search::loop_through;
use std::alloc::{AllocError, Global};

/// A way round through the graph from the least node that lies on one, or nothing where no node leads back to itself.
/// The row of a node lists the nodes that it refers to; an entry that is no node's number leads nowhere. Each node of
/// the way refers to the next, and the last to the first. Where there is none, the time goes with the number of nodes
/// and references.
pub fn first_loop(alloc: Global, edges: &[Vec<usize>]) -> Result<Option<Vec<usize>>, AllocError>
    ensures none { IfOk result (λ found. (found ≡ None) ↔ IsAcyclic (graph_of edges.now)) }
    ensures path { IfOk result (λ found. IfSome found (λ path. IsLoop (graph_of edges.now) path.items)) }
    ensures least { IfOk result (λ found. IfSome found (λ path. StartsLeast (graph_of edges.now) path.items)) }
{
    let ranks = ranks_of(alloc, edges)?;
    let ranked = is_ranking(edges, &ranks);
    for start in 0..edges.len() {
        if ranked && ranks[start] > 0 {
            continue;
        }
        if let Some(path) = loop_through(alloc, edges, start)? {
            return Ok(Some(path));
        }
    }
    Ok(None)
}
