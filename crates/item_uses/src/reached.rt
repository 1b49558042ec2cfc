//! Which nodes of a graph are come to from some.
ghost use Rattle.std.specs.Prelude.{◌≡◌, ℕ, ◌⊎◌, List, true, false, Contains, slice_index_or, IfOk, IsTrue, OnOk};
ghost use Rattle.reference_graph.specs.Graph.{graph_of, row_of};
ghost use Rattle.item_uses.specs.Reached.{AllMarked, AreReached, IsClosed, is_marked as is_marked_in};

use std::alloc::{AllocError, Global};

fn is_marked(flags: &[bool], node: usize) -> bool
    ensures { result ≡ is_marked_in flags.now node }
{
    flags.get(node).copied().unwrap_or(false)
}

// Marks a node, and puts it among those that are left to look at, where it is new.
#[tactic(auto, using(crate::proofs::Marking::one_marked))]
fn mark_node(flags: &mut Vec<bool>, left: &mut Vec<usize>, node: usize) -> Result<(), AllocError>
    ensures { OnOk result ((j : ℕ) → is_marked_in flags.new.items j ≡ true → (is_marked_in flags.old.items j ≡ true) ⊎ (j ≡ node)) }
{
    if node >= flags.len() {
        return Ok(());
    }
    if flags[node] {
        return Ok(());
    }
    left.push(node)?;
    flags[node] = true;
    Ok(())
}

// Marks the nodes of a row.
fn mark(row: &[usize], flags: &mut Vec<bool>, left: &mut Vec<usize>) -> Result<(), AllocError>
    ensures { OnOk result ((j : ℕ) → is_marked_in flags.new.items j ≡ true → (is_marked_in flags.old.items j ≡ true) ⊎ Contains row.now j) }
{
    for node in row {
        mark_node(flags, left, *node)?;
    }
    Ok(())
}

// Marks what a marked node leads to.
fn mark_onward(
    rows: &[Vec<usize>],
    node: usize,
    flags: &mut Vec<bool>,
    left: &mut Vec<usize>,
) -> Result<(), AllocError>
    ensures { (starts : List ℕ) → OnOk result (AreReached (graph_of rows.now) starts flags.old.items → AreReached (graph_of rows.now) starts flags.new.items) }
{
    if !is_marked(flags, node) || node >= rows.len() {
        return Ok(());
    }
    mark(&rows[node], flags, left)?;
    Ok(())
}

fn none_marked(alloc: Global, count: usize) -> Result<Vec<bool>, AllocError>
    ensures { IfOk result (λ flags. (j : ℕ) → slice_index_or flags.items j false ≡ true → ⊥) }
{
    let flags = vec![in alloc; false; count]?;
    Ok(flags)
}

// What is marked from the starts on. That nothing is missed is tested afterwards.
fn marked(alloc: Global, rows: &[Vec<usize>], starts: &[usize]) -> Result<Vec<bool>, AllocError>
    ensures { IfOk result (λ flags. AreReached (graph_of rows.now) starts.now flags.items) }
{
    let mut flags = none_marked(alloc, rows.len())?;
    let mut left = Vec::new(alloc);
    mark(starts, &mut flags, &mut left)?;
    for _step in 0..u64::MAX {
        let Some(node) = left.pop() else {
            return Ok(flags);
        };
        mark_onward(rows, node, &mut flags, &mut left)?;
    }
    Err(AllocError)
}

fn all_marked(flags: &[bool], row: &[usize]) -> bool
    ensures { IsTrue result → AllMarked flags.now row.now }
{
    for node in row {
        if !is_marked(flags, *node) {
            return false;
        }
    }
    true
}

// Whether what is marked leads to nothing that isn't.
fn leads_nowhere_else(rows: &[Vec<usize>], flags: &[bool]) -> bool
    ensures { IsTrue result → (i : ℕ) → is_marked_in flags.now i ≡ true → AllMarked flags.now (row_of (graph_of rows.now) i) }
{
    for (node, row) in rows.iter().enumerate() {
        if is_marked(flags, node) && !all_marked(flags, row) {
            return false;
        }
    }
    true
}

fn is_closed(rows: &[Vec<usize>], starts: &[usize], flags: &[bool]) -> bool
    ensures { IsTrue result → IsClosed (graph_of rows.now) starts.now flags.now }
{
    all_marked(flags, starts) && leads_nowhere_else(rows, flags)
}

/// For each node, whether it is a start or a way leads to it from one.
pub(crate) fn reached(
    alloc: Global,
    rows: &[Vec<usize>],
    starts: &[usize],
) -> Result<Vec<bool>, AllocError>
    ensures sound { IfOk result (λ flags. AreReached (graph_of rows.now) starts.now flags.items) }
    ensures closed { IfOk result (λ flags. IsClosed (graph_of rows.now) starts.now flags.items) }
{
    let flags = marked(alloc, rows, starts)?;
    if is_closed(rows, starts, &flags) {
        return Ok(flags);
    }
    Err(AllocError)
}
