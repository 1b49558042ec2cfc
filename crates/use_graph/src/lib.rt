//! Graphs of numbered nodes, read in time that goes with the number of nodes and edges, and with no deep stack: which
//! nodes reach one another, and to which end a node leads that goes on to one other at most.
#![tactic(auto)]

ghost use Rattle.std.specs.Prelude.{◌≡◌, ℕ, ◌<◌, suc, false, length, vec_len, IfOk, slice_index_or};
ghost use Rattle.use_graph.specs.Graph.{graph_of, TellsRounds, TellsParts};
ghost use Rattle.use_graph.specs.Ends.{leads_within};

mod certified;
mod ends;
pub mod laws;
mod marks;
mod table;

use certified::is_certified;
pub use ends::Next;
use ends::{are_certified, ends_proposed, leads_one_by_one};
use marks::proposed;
use std::alloc::{AllocError, Global};
use table::{first_nodes, reach_table};

/// A number for each node, which is that of the part in which it lies: two nodes lie in one part exactly where each
/// reaches the other by uses, so a node and one that it uses lie in one exactly where the used one reaches the using one.
/// The row of a node lists the nodes that it uses; an entry that is no node's number leads nowhere.
pub fn parts(alloc: Global, uses: &[Vec<u32>]) -> Result<Vec<u32>, AllocError>
    ensures sized { IfOk result (λ numbers. vec_len numbers ≡ length uses.now) }
    ensures rounds { IfOk result (λ numbers. TellsRounds (graph_of uses.now) numbers.items) }
    ensures parts { IfOk result (λ numbers. TellsParts (graph_of uses.now) numbers.items) }
{
    let proposal = proposed(alloc, uses)?;
    if is_certified(alloc, uses, &proposal)? {
        return Ok(proposal.parts);
    }
    let table = reach_table(alloc, uses)?;
    let firsts = first_nodes(alloc, &table, uses.len())?;
    Ok(firsts)
}

/// Whether following from each node comes to an end that says yes. One that goes round comes to none, and a number that
/// is no node's is an end that says no.
pub fn leads(alloc: Global, next: &[Next]) -> Result<Vec<bool>, AllocError>
    ensures sized { IfOk result (λ answers. vec_len answers ≡ length next.now) }
    ensures leads { IfOk result (λ answers. (i : ℕ) → slice_index_or answers.items i false ≡ leads_within next.now (suc (length next.now)) i) }
{
    let proposal = ends_proposed(alloc, next)?;
    if are_certified(next, &proposal) {
        return Ok(proposal.answers);
    }
    let answers = leads_one_by_one(alloc, next)?;
    Ok(answers)
}
