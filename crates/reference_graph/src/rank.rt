//! Ranks of nodes, by which most nodes are seen to lie on no loop.
ghost use Rattle.std.specs.Prelude.{◌≡◌, ℕ, length, vec_len, IfOk, IsTrue, Contains, slice_index};
ghost use Rattle.reference_graph.specs.Graph.{graph_of};
ghost use Rattle.reference_graph.specs.Ranking.{MayRefer, IsRanking};

use std::alloc::{AllocError, Global};

// Ranks from 1 on that rise along references, for the nodes that no loop leads to, and 0 for the others. That they rise
// is what `is_ranking` tests: no clause here says so.
pub(crate) fn ranks_of(alloc: Global, edges: &[Vec<usize>]) -> Result<Vec<usize>, AllocError>
    ensures { IfOk result (λ ranks. vec_len ranks ≡ length edges.now) }
{
    let mut waits = reference_counts(alloc, edges)?;
    let mut ready = places_of_zero(alloc, &waits)?;
    let mut ranks = vec![in alloc; 0; edges.len()]?;
    for rank in 0..edges.len() {
        let Some(node) = ready.pop() else {
            break;
        };
        if node < edges.len() {
            ranks[node] = rank + 1;
            release(&edges[node], &mut waits, &mut ready)?;
        }
    }
    Ok(ranks)
}

// How many references lead to each node.
fn reference_counts(alloc: Global, edges: &[Vec<usize>]) -> Result<Vec<usize>, AllocError> {
    let mut counts = vec![in alloc; 0; edges.len()]?;
    for row in edges {
        count_row(row, &mut counts);
    }
    Ok(counts)
}

fn count_row(row: &[usize], counts: &mut Vec<usize>) {
    for target in row {
        if *target < counts.len() {
            counts[*target] = counts[*target].saturating_add(1);
        }
    }
}

fn places_of_zero(alloc: Global, counts: &[usize]) -> Result<Vec<usize>, AllocError> {
    let mut places = Vec::new(alloc);
    for (place, count) in counts.iter().enumerate() {
        if *count == 0 {
            places.push(place)?;
        }
    }
    Ok(places)
}

// Takes a reference from the count of each node in the row; a node to which none is left is ready.
fn release(
    row: &[usize],
    waits: &mut Vec<usize>,
    ready: &mut Vec<usize>,
) -> Result<(), AllocError> {
    for target in row {
        if *target < waits.len() {
            waits[*target] = waits[*target].saturating_sub(1);
            if waits[*target] == 0 {
                ready.push(*target)?;
            }
        }
    }
    Ok(())
}

// Whether each reference leads to a node of greater rank, or of none.
pub(crate) fn is_ranking(edges: &[Vec<usize>], ranks: &[usize]) -> bool
    requires { length ranks.now ≡ length edges.now }
    ensures { IsTrue result → IsRanking (graph_of edges.now) ranks.now }
{
    for (node, row) in edges.iter().enumerate() {
        if !may_refer_to_all(ranks[node], row, ranks) {
            return false;
        }
    }
    true
}

// Whether a node of the rank may refer to each node of the row.
fn may_refer_to_all(rank: usize, row: &[usize], ranks: &[usize]) -> bool
    ensures { IsTrue result → (j : ℕ) → Contains row.now j → MayRefer rank (slice_index ranks.now j) }
{
    for target in row {
        if !may_refer(rank, rank_at(ranks, *target)) {
            return false;
        }
    }
    true
}

// Whether a node of the first rank may refer to one of the second.
fn may_refer(from: usize, to: usize) -> bool
    ensures { IsTrue result → MayRefer from to }
{
    to == 0 || (0 < from && from < to)
}

// The rank of a node, or 0 where there is no such node.
fn rank_at(ranks: &[usize], node: usize) -> usize
    ensures { result ≡ slice_index ranks.now node }
{
    ranks.get(node).copied().unwrap_or(0)
}
