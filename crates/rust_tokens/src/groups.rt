//! The groups of a text that is being read: those still open, and the trees of the innermost.
ghost use Rattle.std.specs.Prelude.{◌≡◌, ◌↔◌, ◌≢◌, [], ◌∷◌, ◌++◌, OnOk, OnErr, IfOk, IfErr, IsTrue, Some, None, map};
ghost use Rattle.token_trees.specs.View.{tree as tree_view, stream};
ghost use Rattle.rust_tokens.specs.Groups.{levels, inner_trees, innermost, first_left, Closes, brackets, IsLeftAtFault};

use crate::partners::{are_closed, is_same};
use std::alloc::{AllocError, Global};
use std::mem;
use token_trees::{Delimiter, Group, Span, TokenStream, TokenTree};

/// A group whose closing bracket has not come: its bracket, and the trees before it.
#[derive(Drop)]
pub(crate) struct OpenGroup {
    pub(crate) delimiter: Delimiter,
    pub(crate) before: TokenStream,
}

/// The open groups, the trees of the innermost, and how many characters were left at the outermost bracket.
#[derive(Drop)]
pub(crate) struct Groups {
    pub(crate) unclosed: Vec<OpenGroup>,
    pub(crate) trees: TokenStream,
    pub(crate) first: usize,
}

impl Groups {
    pub(crate) fn new(alloc: Global) -> Groups
        ensures levels { levels result ≡ [] }
        ensures trees { inner_trees result ≡ [] }
    {
        Groups {
            unclosed: Vec::new(alloc),
            trees: TokenStream::new(alloc),
            first: 0,
        }
    }

    /// A tree more in the innermost group.
    pub(crate) fn add(&mut self, tree: TokenTree) -> Result<(), AllocError>
        ensures levels { levels self.new ≡ levels self.old }
        ensures trees { OnOk result (inner_trees self.new ≡ inner_trees self.old ++ tree_view tree ∷ []) }
        ensures first { self.new.first ≡ self.old.first }
    {
        self.trees.push(tree)
    }

    /// A group opens, `left` characters before the end.
    pub(crate) fn enter(
        &mut self,
        alloc: Global,
        delimiter: Delimiter,
        left: usize,
    ) -> Result<(), AllocError>
        ensures levels { OnOk result (levels self.new
            ≡ levels self.old ++ record { delimiter = delimiter; before = inner_trees self.old } ∷ []) }
        ensures trees { OnOk result (inner_trees self.new ≡ []) }
        ensures first { OnOk result (self.new.first ≡ first_left (levels self.old) self.old.first left) }
    {
        if self.unclosed.is_empty() {
            self.first = left;
        }
        let before = mem::replace(&mut self.trees, TokenStream::new(alloc));
        self.unclosed.push(OpenGroup { delimiter, before })?;
        Ok(())
    }

    /// Whether that bracket closes the innermost open group.
    pub(crate) fn closes(&self, delimiter: Delimiter) -> bool
        ensures { IsTrue result ↔ (innermost (levels self.now) ≡ Some delimiter) }
    {
        match self.unclosed.last() {
            Some(group) => is_same(group.delimiter, delimiter),
            None => false,
        }
    }

    /// The innermost group is closed.
    pub(crate) fn close(&mut self, delimiter: Delimiter, span: Span) -> Result<(), AllocError>
        requires { innermost (levels self.old) ≡ Some delimiter }
        ensures closes { OnOk result (Closes delimiter span (levels self.old) (inner_trees self.old) (levels self.new) (inner_trees self.new)) }
        ensures first { self.new.first ≡ self.old.first }
    {
        match self.unclosed.pop() {
            Some(OpenGroup { before, .. }) => {
                let stream = mem::replace(&mut self.trees, before);
                self.trees.push(TokenTree::Group(Group {
                    delimiter,
                    stream,
                    span,
                }))?;
                Ok(())
            }
            None => unreachable!(),
        }
    }

    // The open brackets, the innermost last.
    fn open_brackets(&self, alloc: Global) -> Result<Vec<Delimiter>, AllocError>
        ensures { IfOk result (λ v. v.items ≡ map (λ g. g.delimiter) self.now.unclosed.items) }
    {
        self.unclosed
            .iter()
            .map(|group| group.delimiter)
            .collect(alloc)
    }

    /// How many characters are left from the first fault on, where what stands at the front of `rest` doesn't fit: that
    /// is the fault, unless the outermost open bracket stays open.
    pub(crate) fn fault(&self, alloc: Global, rest: &[char]) -> Result<usize, AllocError>
        ensures { IfOk result (IsLeftAtFault (brackets (levels self.now) []) rest.now self.now.first) }
    {
        let open_brackets = self.open_brackets(alloc)?;
        if are_closed(alloc, open_brackets, rest)? {
            Ok(rest.len())
        } else {
            Ok(self.first)
        }
    }

    /// The trees, or how many characters are left from the outermost bracket on that is still open.
    pub(crate) fn finish(self) -> Result<TokenStream, usize>
        ensures closed { OnOk result (levels self ≡ []) }
        ensures trees { IfOk result (λ s. stream s ≡ inner_trees self) }
        ensures unclosed { OnErr result (levels self ≢ []) }
        ensures first { IfErr result (λ left. left ≡ self.first) }
    {
        let Groups {
            unclosed,
            trees,
            first,
        } = self;
        if unclosed.is_empty() {
            Ok(trees)
        } else {
            Err(first)
        }
    }
}
