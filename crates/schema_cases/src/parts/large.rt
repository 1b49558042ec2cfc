//! Large graphs.
use anyhow::Error;
use std::alloc::Global;
use use_graph::{Next, leads, parts};

const LARGE: u32 = 100_000;

/// How many uses of a chain, a round and a star don't leave their part.
pub(crate) fn uses_text(alloc: Global) -> Result<String, Error> {
    let chain = inner_uses(alloc, &chain(alloc)?)?;
    let round = inner_uses(alloc, &round(alloc)?)?;
    let star = inner_uses(alloc, &star(alloc)?)?;
    Ok(format!(in alloc; " chain {chain}, round {round}, star {star}")?)
}

/// How many nodes lead to yes, where the last says yes, says no, or goes on to the first.
pub(crate) fn ways_text(alloc: Global) -> Result<String, Error> {
    let to_yes = yes_count(alloc, &way(alloc, Next::Yes)?)?;
    let to_no = yes_count(alloc, &way(alloc, Next::No)?)?;
    let around = yes_count(alloc, &way(alloc, Next::To(0))?)?;
    Ok(format!(in alloc; " {to_yes}, {to_no}, {around}")?)
}

// Each node uses the next, and the last one none.
fn chain(alloc: Global) -> Result<Vec<Vec<u32>>, Error> {
    let mut uses = Vec::new(alloc);
    for node in 1..LARGE {
        uses.push(vec![in alloc; node]?)?;
    }
    uses.push(Vec::new(alloc))?;
    Ok(uses)
}

// Each node uses the one before it, and the first the last.
fn round(alloc: Global) -> Result<Vec<Vec<u32>>, Error> {
    let mut uses = Vec::new(alloc);
    uses.push(vec![in alloc; LARGE - 1]?)?;
    for node in 1..LARGE {
        uses.push(vec![in alloc; node - 1]?)?;
    }
    Ok(uses)
}

// The first node uses all others, and those in the first half use it.
fn star(alloc: Global) -> Result<Vec<Vec<u32>>, Error> {
    let mut uses = Vec::new(alloc);
    let mut others = Vec::new(alloc);
    for node in 1..LARGE {
        others.push(node)?;
    }
    uses.push(others)?;
    for node in 1..LARGE {
        if node < LARGE / 2 {
            uses.push(vec![in alloc; 0]?)?;
        } else {
            uses.push(Vec::new(alloc))?;
        }
    }
    Ok(uses)
}

// How many uses don't leave their part.
fn inner_uses(alloc: Global, uses: &[Vec<u32>]) -> Result<usize, Error> {
    let parts = parts(alloc, uses)?;
    let mut count: usize = 0;
    for (part, row) in parts.iter().zip(uses.iter()) {
        count = count.saturating_add(inner_count(&parts, *part, row));
    }
    Ok(count)
}

fn inner_count(parts: &[u32], part: u32, row: &[u32]) -> usize {
    row.iter()
        .filter(|used| parts.get(**used as usize).copied() == Some(part))
        .count()
}

// Each node goes on to the next, and the last is this.
fn way(alloc: Global, last: Next) -> Result<Vec<Next>, Error> {
    let mut next = Vec::new(alloc);
    for node in 1..LARGE {
        next.push(Next::To(node))?;
    }
    next.push(last)?;
    Ok(next)
}

// How many nodes lead to an end that says yes.
fn yes_count(alloc: Global, next: &[Next]) -> Result<usize, Error> {
    let answers = leads(alloc, next)?;
    Ok(answers.iter().filter(|answer| **answer).count())
}
