//! The search for a way from a node back to itself.
ghost use Rattle.std.specs.Prelude.{◌≡◌, ℕ, ◌<◌, ◌++◌, [], ◌∷◌, length, vec_len, true, false, IfOk, IfSome, IfNone, OnOk, slice_set};
ghost use Rattle.reference_graph.specs.Graph.{Graph, graph_of, Refers, Leads, IsLoopFrom};
ghost use Rattle.reference_graph.specs.Trail.{node_at, IsClimbable, IsTrail, Extends, IsDone};

use std::alloc::{AllocError, Global};

// The nodes that a search has found, in order; for each, the place of the node that it was found from; and for each
// node of the graph, whether it was found.
#[derive(Drop)]
struct Trail {
    nodes: Vec<usize>,
    parents: Vec<usize>,
    found: Vec<bool>,
}

// A loop that begins at the node, if there is one.
pub(crate) fn loop_through(
    alloc: Global,
    edges: &[Vec<usize>],
    start: usize,
) -> Result<Option<Vec<usize>>, AllocError>
    requires { start < length edges.now }
    ensures none { IfOk result (λ found. IfNone found (¬ (Leads (graph_of edges.now) start start))) }
    ensures path { IfOk result (λ found. IfSome found (λ path. IsLoopFrom (graph_of edges.now) start path.items)) }
{
    let mut trail = Trail::new(alloc, edges, start)?;
    let mut at = 0;
    while at < trail.nodes.len() {
        if trail.extend(edges, start, at)? {
            let path = trail.path(alloc, at)?;
            return Ok(Some(path));
        }
        at += 1;
    }
    Ok(None)
}

impl Trail {
    // The trail that has found the first node alone.
    fn new(alloc: Global, edges: &[Vec<usize>], start: usize) -> Result<Trail, AllocError>
        requires { start < length edges.now }
        ensures { IfOk result (IsTrail (graph_of edges.now) start) }
    {
        let nodes = vec![in alloc; start]?;
        let parents = vec![in alloc; 0]?;
        let mut found = vec![in alloc; false; edges.len()]?;
        found[start] = true;
        Ok(Trail {
            nodes,
            parents,
            found,
        })
    }

    // Adds a node that was found from the node at a place.
    fn add(&mut self, node: usize, parent: usize) -> Result<(), AllocError>
        requires { node < vec_len self.old.found }
        ensures nodes { OnOk result (self.new.nodes.items ≡ self.old.nodes.items ++ node ∷ []) }
        ensures parents { OnOk result (self.new.parents.items ≡ self.old.parents.items ++ parent ∷ []) }
        ensures found { OnOk result (self.new.found.items ≡ slice_set self.old.found.items node true) }
    {
        self.nodes.push(node)?;
        self.parents.push(parent)?;
        self.found[node] = true;
        Ok(())
    }

    // Adds the nodes that the node at a place refers to. Whether the first node is one of them.
    fn extend(&mut self, edges: &[Vec<usize>], start: usize, at: usize) -> Result<bool, AllocError>
        requires trail { IsTrail (graph_of edges.now) start self.old }
        requires within { at < vec_len self.old.nodes }
        ensures trail { OnOk result (IsTrail (graph_of edges.now) start self.new) }
        ensures extends { OnOk result (Extends self.old self.new) }
        ensures closes { IfOk result (λ b. b ≡ true → Refers (graph_of edges.now) (node_at self.old at) start) }
        ensures done { IfOk result (λ b. b ≡ false → IsDone (graph_of edges.now) start self.new at) }
    {
        let node = self.nodes[at];
        for target in &edges[node] {
            if *target == start {
                return Ok(true);
            }
            if *target < self.found.len() && !self.found[*target] {
                self.add(*target, at)?;
            }
        }
        Ok(false)
    }

    // The nodes on the way from the first node to the one at a place.
    fn path(&self, alloc: Global, at: usize) -> Result<Vec<usize>, AllocError>
        requires climb { IsClimbable self.now }
        requires within { at < vec_len self.now.nodes }
        ensures { IfOk result (λ path. (g : Graph) (start : ℕ) → IsTrail g start self.now → Refers g (node_at self.now at) start → IsLoopFrom g start path.items) }
    {
        let mut path = Vec::new(alloc);
        let mut place = at;
        while place > 0 {
            path.push(self.nodes[place])?;
            place = self.parents[place];
        }
        path.push(self.nodes[0])?;
        path.reverse();
        Ok(path)
    }
}
