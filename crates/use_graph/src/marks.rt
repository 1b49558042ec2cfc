//! Proposes parts, with what shows that they are right. No clause says that it does: that is tested.
ghost use Rattle.std.specs.Prelude.{◌≡◌, IfOk};

use std::alloc::{AllocError, Global};

// The number of the part of each node; the root of each part; a rank of each node that rises along some way from the
// root to it; and one that rises along some way from it to the root, taken backwards.
#[derive(Drop)]
pub(crate) struct Proposal {
    pub(crate) parts: Vec<u32>,
    pub(crate) roots: Vec<usize>,
    pub(crate) ahead: Vec<usize>,
    pub(crate) back: Vec<usize>,
}

// The part of a node that lies in none yet.
const NO_PART: u32 = u32::MAX;

// One search through the graph gives an order in which, of two nodes of which one alone reaches the other, the reaching
// one stands later. From the last node on, a search through the graph turned round finds a part each time, and a search
// through the graph itself from its root meets each node of the part.
pub(crate) fn proposed(alloc: Global, uses: &[Vec<u32>]) -> Result<Proposal, AllocError> {
    let order = finished(alloc, uses)?;
    let users = turned_round(alloc, uses)?;
    let mut marks = Marks::new(alloc, uses.len())?;
    let mut roots = Vec::new(alloc);
    for node in order.iter().rev() {
        if marks.is_open(*node) {
            let part = number(roots.len())?;
            roots.push(*node)?;
            marks.spread(&users, *node, NO_PART, part)?;
        }
    }
    let back = marks.begin_anew(alloc)?;
    for root in roots.iter() {
        let part = marks.part(*root);
        marks.spread(uses, *root, part, part)?;
    }
    Ok(Proposal {
        parts: marks.parts,
        roots,
        ahead: marks.ranks,
        back,
    })
}

// A number that fits in 32 bits: there is no memory for as many nodes as have greater ones.
pub(crate) fn number(count: usize) -> Result<u32, AllocError>
    ensures { IfOk result (λ number. number ≡ count) }
{
    match u32::try_from(count) {
        Ok(number) => Ok(number),
        Err(_) => Err(AllocError),
    }
}

#[derive(Clone, Copy)]
enum Task {
    Enter(usize),
    Leave(usize),
}

// The nodes, each after those that were first met from it on.
fn finished(alloc: Global, uses: &[Vec<u32>]) -> Result<Vec<usize>, AllocError> {
    let mut seen = vec![in alloc; false; uses.len()]?;
    let mut tasks = Vec::new(alloc);
    for node in 0..uses.len() {
        tasks.push(Task::Enter(node))?;
    }
    let mut order = Vec::new(alloc);
    for _ in 0..usize::MAX {
        let Some(task) = tasks.pop() else {
            break;
        };
        match task {
            Task::Enter(node) => enter(uses, node, &mut seen, &mut tasks)?,
            Task::Leave(node) => order.push(node)?,
        }
    }
    Ok(order)
}

// Where the node wasn't seen, the nodes that it uses are to be entered, and then it is to be left.
fn enter(
    uses: &[Vec<u32>],
    node: usize,
    seen: &mut Vec<bool>,
    tasks: &mut Vec<Task>,
) -> Result<(), AllocError> {
    if node >= uses.len() || node >= seen.len() || seen[node] {
        return Ok(());
    }
    seen[node] = true;
    tasks.push(Task::Leave(node))?;
    for used in &uses[node] {
        tasks.push(Task::Enter(*used as usize))?;
    }
    Ok(())
}

// For each node, the nodes that use it.
fn turned_round(alloc: Global, uses: &[Vec<u32>]) -> Result<Vec<Vec<u32>>, AllocError> {
    let mut users = Vec::new(alloc);
    for _ in 0..uses.len() {
        users.push(Vec::new(alloc))?;
    }
    for (node, row) in uses.iter().enumerate() {
        add_user(&mut users, number(node)?, row)?;
    }
    Ok(users)
}

fn add_user(users: &mut Vec<Vec<u32>>, user: u32, row: &[u32]) -> Result<(), AllocError> {
    for used in row {
        if let Some(others) = users.get_mut(*used as usize) {
            others.push(user)?;
        }
    }
    Ok(())
}

// The part of each node, its rank in the search that goes on, which is 0 as long as it wasn't met, and the nodes from
// which the search has still to go on.
#[derive(Drop)]
struct Marks {
    parts: Vec<u32>,
    ranks: Vec<usize>,
    waiting: Vec<usize>,
}

impl Marks {
    fn new(alloc: Global, count: usize) -> Result<Marks, AllocError> {
        let parts = vec![in alloc; NO_PART; count]?;
        let ranks = vec![in alloc; 0; count]?;
        Ok(Marks {
            parts,
            ranks,
            waiting: Vec::new(alloc),
        })
    }

    // Forgets the ranks, and gives them.
    fn begin_anew(&mut self, alloc: Global) -> Result<Vec<usize>, AllocError> {
        let ranks = vec![in alloc; 0; self.ranks.len()]?;
        Ok(std::mem::replace(&mut self.ranks, ranks))
    }

    fn part(&self, node: usize) -> u32 {
        self.parts.get(node).copied().unwrap_or(NO_PART)
    }

    fn rank(&self, node: usize) -> usize {
        self.ranks.get(node).copied().unwrap_or(1)
    }

    fn is_open(&self, node: usize) -> bool {
        self.rank(node) == 0
    }

    // Puts the nodes of one part that are met from a node on, by nodes of that part alone, into another part, with ranks.
    fn spread(
        &mut self,
        rows: &[Vec<u32>],
        root: usize,
        from: u32,
        to: u32,
    ) -> Result<(), AllocError> {
        self.meet(root, 1, from, to)?;
        for _ in 0..usize::MAX {
            let Some(node) = self.waiting.pop() else {
                break;
            };
            let rank = self.rank(node).saturating_add(1);
            if node < rows.len() {
                self.meet_all(&rows[node], rank, from, to)?;
            }
        }
        Ok(())
    }

    fn meet_all(&mut self, row: &[u32], rank: usize, from: u32, to: u32) -> Result<(), AllocError> {
        for node in row {
            self.meet(*node as usize, rank, from, to)?;
        }
        Ok(())
    }

    fn meet(&mut self, node: usize, rank: usize, from: u32, to: u32) -> Result<(), AllocError> {
        if node < self.parts.len() && self.is_open(node) && self.part(node) == from {
            self.parts[node] = to;
            if node < self.ranks.len() {
                self.ranks[node] = rank;
            }
            self.waiting.push(node)?;
        }
        Ok(())
    }
}
