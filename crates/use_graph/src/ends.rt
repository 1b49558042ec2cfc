//! To which end a node leads that goes on to one other at most.
ghost use Rattle.std.specs.Prelude.{◌≡◌, ℕ, ◌<◌, suc, true, false, length, vec_len, IfOk, IsTrue, slice_index, slice_index_or};
ghost use Rattle.use_graph.specs.Ends.{next_at, next_leads, leads_within};
ghost use Rattle.use_graph.specs.Followed.{IsFollowed, AreFollowed};

use std::alloc::{AllocError, Global};

/// What a node is: an end that says yes, one that says no, or a node that goes on to the one of that number.
#[derive(Clone, Copy)]
pub enum Next {
    Yes,
    No,
    To(u32),
}

// An answer for each node, and a rank for each, which falls from a node to the next where the answer is yes.
#[derive(Drop)]
pub(crate) struct Answers {
    pub(crate) answers: Vec<bool>,
    pub(crate) ranks: Vec<usize>,
}

// Proposes answers: no clause says that they are right, as that is tested.
pub(crate) fn ends_proposed(alloc: Global, next: &[Next]) -> Result<Answers, AllocError> {
    let mut answers = vec![in alloc; false; next.len()]?;
    let mut ranks = vec![in alloc; 0; next.len()]?;
    let mut seen = vec![in alloc; false; next.len()]?;
    for node in 0..next.len() {
        let path = unseen_path(alloc, next, node, &mut seen)?;
        answer_path(next, &path, &mut answers, &mut ranks);
    }
    Ok(Answers { answers, ranks })
}

// The nodes that weren't seen, from one on to the first that was, or to an end.
fn unseen_path(
    alloc: Global,
    next: &[Next],
    start: usize,
    seen: &mut Vec<bool>,
) -> Result<Vec<usize>, AllocError> {
    let mut path = Vec::new(alloc);
    let mut node = start;
    for _ in 0..usize::MAX {
        if node >= next.len() || node >= seen.len() || seen[node] {
            break;
        }
        seen[node] = true;
        path.push(node)?;
        if let Next::To(following) = next[node] {
            node = following as usize;
        }
    }
    Ok(path)
}

// Answers the nodes of a path, from the last on.
fn answer_path(next: &[Next], path: &[usize], answers: &mut Vec<bool>, ranks: &mut Vec<usize>) {
    for node in path.iter().rev() {
        if *node < next.len() && *node < answers.len() && *node < ranks.len() {
            let answer = answer_of(next[*node], answers);
            let rank = rank_of(next[*node], ranks);
            answers[*node] = answer;
            ranks[*node] = rank;
        }
    }
}

fn rank_of(next: Next, ranks: &[usize]) -> usize {
    match next {
        Next::To(node) => rank_at(ranks, node as usize).saturating_add(1),
        _ => 0,
    }
}

// Whether the answers are those of the nodes that follow, and a rank falls along each yes.
pub(crate) fn are_certified(next: &[Next], answers: &Answers) -> bool
    ensures { IsTrue result → AreFollowed next.now answers.now }
{
    if answers.answers.len() != next.len() {
        return false;
    }
    for (node, at) in next.iter().enumerate() {
        if !answers.is_followed(node, *at) {
            return false;
        }
    }
    true
}

impl Answers {
    // Whether the answer of a node is that of what it is.
    fn is_followed(&self, node: usize, at: Next) -> bool
        ensures { IsTrue result → IsFollowed self.now node at }
    {
        let answer = answer_at(&self.answers, node);
        match at {
            Next::Yes => answer,
            Next::No => !answer,
            Next::To(following) => {
                let following = following as usize;
                answer == answer_at(&self.answers, following)
                    && (!answer || rank_at(&self.ranks, following) < rank_at(&self.ranks, node))
            }
        }
    }
}

// The answer of what a node is, where those of the nodes are known.
fn answer_of(at: Next, answers: &[bool]) -> bool
    ensures { result ≡ next_leads (λ j. slice_index_or answers.now j false) at }
{
    match at {
        Next::Yes => true,
        Next::No => false,
        Next::To(node) => answer_at(answers, node as usize),
    }
}

fn answer_at(answers: &[bool], node: usize) -> bool
    ensures { result ≡ slice_index_or answers.now node false }
{
    answers.get(node).copied().unwrap_or(false)
}

fn rank_at(ranks: &[usize], node: usize) -> usize
    ensures { result ≡ slice_index ranks.now node }
{
    ranks.get(node).copied().unwrap_or(0)
}

// The same by following from each node on, which takes time that goes with the square of the number of nodes.
pub(crate) fn leads_one_by_one(alloc: Global, next: &[Next]) -> Result<Vec<bool>, AllocError>
    ensures sized { IfOk result (λ answers. vec_len answers ≡ length next.now) }
    ensures leads { IfOk result (λ answers. (i : ℕ) → i < length next.now → slice_index_or answers.items i false ≡ leads_within next.now (length next.now) i) }
{
    let mut answers = Vec::new(alloc);
    for node in 0..next.len() {
        answers.push(leads_from(next, node))?;
    }
    Ok(answers)
}

fn leads_from(next: &[Next], start: usize) -> bool
    ensures { result ≡ leads_within next.now (length next.now) start }
{
    let mut node = start;
    let mut left = next.len();
    while left > 0 {
        left -= 1;
        match next_of(next, node) {
            Next::Yes => return true,
            Next::No => return false,
            Next::To(following) => node = following as usize,
        }
    }
    false
}

fn next_of(next: &[Next], node: usize) -> Next
    ensures { result ≡ next_at next.now node }
{
    next.get(node).copied().unwrap_or(Next::No)
}
