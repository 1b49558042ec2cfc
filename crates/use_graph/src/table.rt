//! Parts by what reaching means alone, with a table of which nodes are reached from which. This takes time that goes with
//! the cube of the number of nodes; it is for graphs for which nothing was found that shows their parts.
ghost use Rattle.std.specs.Prelude.{◌≡◌, ℕ, ◌<◌, [], IfOk, length, vec_len, slice_index, slice_index_or};
ghost use Rattle.use_graph.specs.Graph.{graph_of, row_of};
ghost use Rattle.use_graph.specs.Table.{table_of, cell, is_next, IsTable, IsNextRow, IsLike, IsFirstLike};

use crate::marks::number;
use std::alloc::{AllocError, Global};

// For each node, the first node of its part.
pub(crate) fn first_nodes(
    alloc: Global,
    table: &[Vec<bool>],
    count: usize,
) -> Result<Vec<u32>, AllocError>
    ensures sized { IfOk result (λ firsts. vec_len firsts ≡ count) }
    ensures first { IfOk result (λ firsts. (i : ℕ) → i < count → IsFirstLike (table_of table.now) (slice_index firsts.items i) i) }
{
    let mut firsts = Vec::new(alloc);
    for node in 0..count {
        let first = number(first_like(table, node))?;
        firsts.push(first)?;
    }
    Ok(firsts)
}

fn first_like(table: &[Vec<bool>], node: usize) -> usize
    ensures { IsFirstLike (table_of table.now) result node }
{
    for first in 0..node {
        if is_told(table, first, node) && is_told(table, node, first) {
            return first;
        }
    }
    node
}

// For each node, which nodes it reaches.
pub(crate) fn reach_table(alloc: Global, uses: &[Vec<u32>]) -> Result<Vec<Vec<bool>>, AllocError>
    ensures { IfOk result (λ table. IsTable (graph_of uses.now) (length uses.now) (table_of table.items)) }
{
    let mut table = Vec::new(alloc);
    let mut left = uses.len();
    while left > 0 {
        let more = one_more_use(alloc, uses, &table)?;
        table = more;
        left -= 1;
    }
    Ok(table)
}

fn one_more_use(
    alloc: Global,
    uses: &[Vec<u32>],
    table: &[Vec<bool>],
) -> Result<Vec<Vec<bool>>, AllocError>
    ensures sized { IfOk result (λ more. vec_len more ≡ length uses.now) }
    ensures rows { IfOk result (λ more. (i : ℕ) → i < length uses.now → IsNextRow (table_of table.now) (row_of (graph_of uses.now) i) (length uses.now) (slice_index_or (table_of more.items) i [])) }
{
    let mut more = Vec::new(alloc);
    for row in uses {
        more.push(next_row(alloc, table, row, uses.len())?)?;
    }
    Ok(more)
}

fn next_row(
    alloc: Global,
    table: &[Vec<bool>],
    row: &[u32],
    count: usize,
) -> Result<Vec<bool>, AllocError>
    ensures { IfOk result (λ cells. IsNextRow (table_of table.now) row.now count cells.items) }
{
    let mut cells = Vec::new(alloc);
    for node in 0..count {
        cells.push(comes_next(table, row, node))?;
    }
    Ok(cells)
}

fn comes_next(table: &[Vec<bool>], row: &[u32], node: usize) -> bool
    ensures { result ≡ is_next (table_of table.now) row.now node }
{
    for used in row {
        let used = *used as usize;
        if used == node || is_told(table, used, node) {
            return true;
        }
    }
    false
}

fn is_told(table: &[Vec<bool>], node: usize, used: usize) -> bool
    ensures { result ≡ cell (table_of table.now) node used }
{
    match table.get(node) {
        Some(row) => row.get(used).copied().unwrap_or(false),
        None => false,
    }
}
