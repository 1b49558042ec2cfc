//! Names in order, each with its place.
ghost use Rattle.std.specs.Prelude.{◌≡◌, ℕ, ◌+◌, ◌-◌, ◌*◌, ◌^◌, ◌<◌, ◌≤◌, [], length, IfOk, IfErr, OnOk, OnErr};
ghost use Rattle.name_tables.specs.Names.{Names, IsRising, IsAt, IsGapFor, place_of, entered};

use crate::steps::{Name, StepLedger, Steps, Tokens};
use std::alloc::{AllocError, Global};
use std::cmp::Ordering;
use std::marker::{Brand, Model};
use std::sync::ledger::{Blank, Ledger};

/// Names with their places. Contracts see it as the list of them, in order of the names.
#[derive(Drop)]
pub struct NameTable {
    alloc: Global,
    names: Vec<(Name, u32)>,
}

impl Model for NameTable {
    ghost Value = { Names };

    ghost view = { λ t. t.names.items };

    ghost invariant = { λ t. IsRising t.names.items };
}

impl NameTable {
    /// A table without names. It takes no memory.
    pub fn new(alloc: Global) -> NameTable
        ensures { result ≡ [] }
    {
        NameTable {
            alloc,
            names: Vec::new(alloc),
        }
    }

    /// Enters a name with its place; a name that is there keeps the place that it has. It fails where memory runs out,
    /// and then the table is as before. A name that comes after all others takes time for a look-up alone.
    pub fn insert(&mut self, name: &str, place: u32) -> Result<(), AllocError>
        ensures ok { OnOk result (self.new ≡ entered name.now place self.old) }
        ensures err { OnErr result (self.new ≡ self.old) }
    {
        match search_freely(&self.names, name.as_bytes()) {
            Ok(_) => Ok(()),
            Err(at) => {
                let name = Name::new(self.alloc, name)?;
                Ok(self.names.insert(at, (name, place))?)
            }
        }
    }

    /// The place of the name, or none exactly where the name isn't there. For n names it takes k comparisons, with
    /// 2^k at most 4n + 2, at least one where there are names, and no memory.
    pub fn find<L: StepLedger>(&self, name: &str, steps: &mut Steps<L>) -> Option<u32>
        ensures answer { result ≡ place_of name.now self.now }
        ensures counts { steps.old ≤ steps.new }
        ensures counted { 0 < length self.now → steps.old < steps.new }
        ensures cost { 2 ^ (steps.new - steps.old) ≤ 4 * length self.now + 2 }
    {
        match search(&self.names, name.as_bytes(), steps) {
            Ok(at) => Some(self.names[at].1),
            Err(_) => None,
        }
    }

    /// The place of the name, found by the same comparisons, which nobody counts.
    pub fn place(&self, name: &str) -> Option<u32>
        ensures { result ≡ place_of name.now self.now }
    {
        match search_freely(&self.names, name.as_bytes()) {
            Ok(at) => Some(self.names[at].1),
            Err(_) => None,
        }
    }
}

// Where the name stands, or where it would stand.
fn search<L: StepLedger>(
    names: &[(Name, u32)],
    name: &[u8],
    steps: &mut Steps<L>,
) -> Result<usize, usize>
    requires { IsRising names.now }
    ensures found { IfOk result (IsAt names.now name.now) }
    ensures absent { IfErr result (IsGapFor names.now name.now) }
    ensures counts { steps.old ≤ steps.new }
    ensures counted { 0 < length names.now → steps.old < steps.new }
    ensures cost { 2 ^ (steps.new - steps.old) ≤ 2 * length names.now + 1 }
{
    let mut low = 0;
    let mut high = names.len();
    'halves: while low < high {
        let middle = low + (high - low) / 2;
        match names[middle].0.compare(name, steps) {
            Ordering::Less => low = middle + 1,
            Ordering::Equal => return Ok(middle),
            Ordering::Greater => high = middle,
        }
    }
    Err(low)
}

// The search with a counter that nobody reads.
fn search_freely(names: &[(Name, u32)], name: &[u8]) -> Result<usize, usize>
    requires { IsRising names.now }
    ensures found { IfOk result (IsAt names.now name.now) }
    ensures absent { IfErr result (IsGapFor names.now name.now) }
{
    search_with::<Brand>(names, name, Blank::new(1))
}

fn search_with<B: Ledger>(names: &[(Name, u32)], name: &[u8], blank: Blank) -> Result<usize, usize>
    requires name { blank.name ≡ B.name }
    requires parts { blank.parts ≡ B.parts }
    requires some { 0 < blank.parts }
    requires rising { IsRising names.now }
    ensures found { IfOk result (IsAt names.now name.now) }
    ensures absent { IfErr result (IsGapFor names.now name.now) }
{
    let mut steps = Steps::new(Tokens::<B>::new(blank));
    search(names, name, &mut steps)
}
