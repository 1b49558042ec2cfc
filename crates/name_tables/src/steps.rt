//! Comparisons of names, each of which is counted.
ghost use Rattle.std.specs.Prelude.{◌≡◌, ℕ, ◌+◌, ◌<◌, List, string_bytes, IfOk};
ghost use Rattle.std.specs.Ordering.{nat_cmp};
ghost use Rattle.std.specs.Cmp.Lexicographic.{slice_cmp};

use std::alloc::{AllocError, Global};
use std::cmp::Ordering;
use std::marker::Model;
use std::sync::ledger::{Blank, Book, Ledger, Share};

/// A ledger in which steps are counted.
pub trait StepLedger {
    ghost count: { Self → ℕ };

    /// Counts one step.
    fn add_one(&mut self)
        ensures { count self.new ≡ count self.old + 1 };
}

/// A ledger of tokens, which count in proofs alone: it takes no bytes and no time.
#[derive(Drop)]
pub struct Tokens<L: Ledger> {
    book: Book<L>,
    share: Share<L>,
}

impl<L: Ledger> Model for Tokens<L> {
    ghost Value = { ℕ };

    ghost view = { λ t. t.book.total };

    ghost invariant = { λ t. 0 < t.share.parts };
}

impl<L: Ledger> Tokens<L> {
    /// A ledger with nothing counted yet.
    pub fn new(blank: Blank) -> Self
        requires name { blank.name ≡ L.name }
        requires parts { blank.parts ≡ L.parts }
        requires some { 0 < blank.parts }
        ensures { result ≡ 0 }
    {
        let (book, share) = blank.open::<L>();
        Tokens { book, share }
    }
}

impl<L: Ledger> StepLedger for Tokens<L> {
    ghost count = { λ t. t };

    fn add_one(&mut self) {
        self.book.add(&mut self.share, 1);
    }
}

/// A counter of comparisons. Contracts see it as what its ledger has counted.
#[derive(Drop)]
pub struct Steps<L: StepLedger> {
    ledger: L,
}

impl<L: StepLedger> Model for Steps<L> {
    ghost Value = { ℕ };

    ghost view = { λ s. L.count s.ledger };
}

impl<L: StepLedger> Steps<L> {
    /// A counter that counts in the ledger.
    pub fn new(ledger: L) -> Self
        ensures { result ≡ L.count ledger }
    {
        Steps { ledger }
    }
}

/// A name. It can be compared only by a comparison that is counted.
pub(crate) struct Name {
    text: String,
}

impl Drop for Name {
    fn drop(self) {
        let Name { text: _text } = self;
    }
}

impl Model for Name {
    ghost Value = { List ℕ };

    ghost view = { λ n. string_bytes n.text };
}

impl Name {
    pub(crate) fn new(alloc: Global, text: &str) -> Result<Self, AllocError>
        ensures { IfOk result (λ n. n ≡ text.now) }
    {
        Ok(Name {
            text: String::from_str(alloc, text)?,
        })
    }

    pub(crate) fn compare<L: StepLedger>(&self, name: &[u8], steps: &mut Steps<L>) -> Ordering
        ensures order { result ≡ slice_cmp nat_cmp self.now name.now }
        ensures counted { steps.new ≡ steps.old + 1 }
    {
        steps.ledger.add_one();
        self.text.as_bytes().cmp(name)
    }
}
