//! Tests whether what was proposed shows that nodes are numbered by the parts in which they lie.
ghost use Rattle.std.specs.Prelude.{◌≡◌, ◌⊎◌, ℕ, ◌<◌, ◌≤◌, true, false, length, vec_len, IfOk, IsTrue, Contains, slice_index, slice_index_or};
ghost use Rattle.use_graph.specs.Graph.{graph_of};
ghost use Rattle.use_graph.specs.Certificate.{part_at, ahead_at, back_at, IsRoot, IsBack, IsAhead, GoesBack, IsMet, Rises, IsCertified};

use crate::marks::Proposal;
use std::alloc::{AllocError, Global};

pub(crate) fn is_certified(
    alloc: Global,
    uses: &[Vec<u32>],
    proposal: &Proposal,
) -> Result<bool, AllocError>
    ensures { IfOk result (λ b. b ≡ true → IsCertified (graph_of uses.now) proposal.now) }
{
    let met = met_nodes(alloc, uses, proposal)?;
    let sized = is_sized(uses, proposal);
    let rising = rises(uses, proposal);
    let back = all_go_back(uses, proposal);
    let ahead = all_met(&met, proposal, uses.len());
    let certified = all_hold(sized, rising, back, ahead);
    Ok(certified)
}

fn all_hold(sized: bool, rising: bool, back: bool, ahead: bool) -> bool
    ensures { IsTrue result → IsTrue sized × IsTrue rising × IsTrue back × IsTrue ahead }
{
    sized && rising && back && ahead
}

fn is_sized(uses: &[Vec<u32>], proposal: &Proposal) -> bool
    ensures { IsTrue result → vec_len proposal.now.parts ≡ length uses.now }
{
    proposal.parts.len() == uses.len()
}

// Whether no node uses one of a lesser part.
fn rises(uses: &[Vec<u32>], proposal: &Proposal) -> bool
    ensures { IsTrue result → Rises (graph_of uses.now) proposal.now.parts.items }
{
    for (node, row) in uses.iter().enumerate() {
        if !row_rises(proposal, proposal.part(node), row, uses.len()) {
            return false;
        }
    }
    true
}

// Whether each of the row's entries that is a node's number lies in no lesser part.
fn row_rises(proposal: &Proposal, part: u32, row: &[u32], count: usize) -> bool
    ensures { IsTrue result → (j : ℕ) → Contains row.now j → j < count → part ≤ part_at proposal.now j }
{
    for used in row {
        let used = *used as usize;
        if used < count && proposal.part(used) < part {
            return false;
        }
    }
    true
}

// Whether each node but a root uses one of the same part and of lesser rank.
fn all_go_back(uses: &[Vec<u32>], proposal: &Proposal) -> bool
    ensures { IsTrue result → (i : ℕ) → i < length uses.now → IsRoot proposal.now i ⊎ GoesBack (graph_of uses.now) proposal.now i }
{
    for (node, row) in uses.iter().enumerate() {
        if !(proposal.is_root(node) || goes_back(proposal, node, row)) {
            return false;
        }
    }
    true
}

fn goes_back(proposal: &Proposal, node: usize, row: &[u32]) -> bool
    ensures { IsTrue result → (j : ℕ) × Contains row.now j × IsBack proposal.now node j }
{
    for used in row {
        if proposal.is_back(node, *used as usize) {
            return true;
        }
    }
    false
}

// Whether each node below a number is a root, or met.
fn all_met(met: &[bool], proposal: &Proposal, count: usize) -> bool
    ensures { IsTrue result → (i : ℕ) → i < count → IsRoot proposal.now i ⊎ (slice_index_or met.now i false ≡ true) }
{
    for node in 0..count {
        if !(proposal.is_root(node) || met.get(node).copied().unwrap_or(false)) {
            return false;
        }
    }
    true
}

// For each node, whether one of the same part and of lesser rank uses it.
fn met_nodes(alloc: Global, uses: &[Vec<u32>], proposal: &Proposal) -> Result<Vec<bool>, AllocError>
    ensures { IfOk result (λ met. (j : ℕ) → slice_index_or met.items j false ≡ true → IsMet (graph_of uses.now) proposal.now j) }
{
    let mut met = vec![in alloc; false; uses.len()]?;
    for (node, row) in uses.iter().enumerate() {
        meet(proposal, node, row, &mut met);
    }
    Ok(met)
}

fn meet(proposal: &Proposal, node: usize, row: &[u32], met: &mut Vec<bool>)
    ensures { (j : ℕ) → slice_index_or met.new.items j false ≡ true → (slice_index_or met.old.items j false ≡ true) ⊎ (Contains row.now j × IsAhead proposal.now node j) }
{
    for used in row {
        let used = *used as usize;
        if used < met.len() && proposal.is_ahead(node, used) {
            met[used] = true;
        }
    }
}

impl Proposal {
    fn part(&self, node: usize) -> u32
        ensures { result ≡ part_at self.now node }
    {
        number_at(&self.parts, node)
    }

    fn is_root(&self, node: usize) -> bool
        ensures { IsTrue result → IsRoot self.now node }
    {
        place_at(&self.roots, self.part(node) as usize) == node
    }

    fn is_back(&self, node: usize, used: usize) -> bool
        ensures { IsTrue result → IsBack self.now node used }
    {
        used < self.parts.len()
            && self.part(used) == self.part(node)
            && place_at(&self.back, used) < place_at(&self.back, node)
    }

    fn is_ahead(&self, node: usize, used: usize) -> bool
        ensures { IsTrue result → IsAhead self.now node used }
    {
        self.part(node) == self.part(used)
            && place_at(&self.ahead, node) < place_at(&self.ahead, used)
    }
}

// The number at a place, or 0 past the end.
fn number_at(numbers: &[u32], place: usize) -> u32
    ensures { result ≡ slice_index numbers.now place }
{
    numbers.get(place).copied().unwrap_or(0)
}

fn place_at(places: &[usize], place: usize) -> usize
    ensures { result ≡ slice_index places.now place }
{
    places.get(place).copied().unwrap_or(0)
}
