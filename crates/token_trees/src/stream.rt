//! Streams that grow.
ghost use Rattle.std.specs.Prelude.{◌≡◌, OnOk, OnErr, [], ◌∷◌, ◌++◌, map};
ghost use Rattle.token_trees.specs.Token.{word, mark, group, toks_of, site, span_of, span_of_all, last_of};
ghost use Rattle.token_trees.specs.View.{tree, tree as tree_view, trees, stream};

use crate::token::{Delimiter, Group, Ident, Punct, Spacing, Span, TokenStream, TokenTree};
use std::alloc::{AllocError, Global};

impl Span {
    /// The span of what no text shows: file, beginning and end are 0.
    pub fn call_site() -> Span
        ensures { result ≡ site }
    {
        Span {
            file: 0,
            lo: 0,
            hi: 0,
        }
    }
}

impl TokenTree {
    /// The tree's own span.
    pub fn span(&self) -> Span
        ensures { result ≡ span_of (tree self.now) }
    {
        match self {
            TokenTree::Ident(name) => name.span,
            TokenTree::Punct(punct) => punct.span,
            TokenTree::Literal(literal) => literal.span,
            TokenTree::Group(group) => group.span,
        }
    }
}

// Where the last of `first` and `rest` ends.
fn end_of(first: &TokenTree, rest: &[TokenTree]) -> u32
    ensures { result ≡ (span_of (last_of (tree first.now) (map tree rest.now))).hi }
{
    match rest.last() {
        None => first.span().hi,
        Some(last) => last.span().hi,
    }
}

/// From the beginning of the first tree to the end of the last, in the file of the first; `call_site` where there is none.
pub fn span_of_trees(trees: &[TokenTree]) -> Span
    ensures { result ≡ span_of_all (map tree trees.now) }
{
    match trees {
        [] => Span::call_site(),
        [first, rest @ ..] => {
            let begin = first.span();
            Span {
                file: begin.file,
                lo: begin.lo,
                hi: end_of(first, rest),
            }
        }
    }
}

impl TokenStream {
    /// An empty stream, which takes no memory.
    pub fn new(alloc: Global) -> TokenStream
        ensures { stream result ≡ [] }
    {
        TokenStream {
            trees: Vec::new(alloc),
        }
    }

    /// The allocator that the stream grows by.
    pub fn allocator(&self) -> Global {
        *self.trees.allocator()
    }

    /// The trees in order.
    pub fn trees(&self) -> &[TokenTree]
        ensures { trees result.now ≡ stream self.now }
    {
        &self.trees
    }

    /// From the beginning of the first tree to the end of the last, in the file of the first; `call_site` where it is empty.
    pub fn span(&self) -> Span
        ensures { result ≡ span_of_all (stream self.now) }
    {
        span_of_trees(&self.trees)
    }

    /// Appended last. Where memory runs out, nothing changes.
    pub fn push(&mut self, tree: TokenTree) -> Result<(), AllocError>
        ensures ok { OnOk result (stream self.new ≡ stream self.old ++ tree_view tree ∷ []) }
        ensures err { OnErr result (stream self.new ≡ stream self.old) }
    {
        self.trees.push(tree)?;
        Ok(())
    }

    /// A punctuation character without a place of its own, appended last.
    pub fn push_mark(&mut self, ch: char, spacing: Spacing) -> Result<(), AllocError>
        ensures ok { OnOk result (stream self.new ≡ stream self.old ++ mark ch spacing site ∷ []) }
        ensures err { OnErr result (stream self.new ≡ stream self.old) }
    {
        self.push(TokenTree::Punct(Punct {
            ch,
            spacing,
            span: Span::call_site(),
        }))
    }

    /// An identifier, appended last.
    pub fn push_word(&mut self, text: &str, span: Span) -> Result<(), AllocError>
        ensures ok { OnOk result (stream self.new ≡ stream self.old ++ word text.now span ∷ []) }
        ensures err { OnErr result (stream self.new ≡ stream self.old) }
    {
        let alloc = self.allocator();
        self.push(TokenTree::Ident(Ident {
            text: String::from_str(alloc, text)?,
            span,
        }))
    }

    /// A group without a place of its own, appended last. Where memory runs out, `inner` is given up.
    pub fn push_group(&mut self, delimiter: Delimiter, inner: TokenStream) -> Result<(), AllocError>
        ensures ok { OnOk result (stream self.new ≡ stream self.old ++ group delimiter (toks_of (stream inner)) site ∷ []) }
        ensures err { OnErr result (stream self.new ≡ stream self.old) }
    {
        self.push(TokenTree::Group(Group {
            delimiter,
            stream: inner,
            span: Span::call_site(),
        }))
    }

    /// The trees of `other` move to the end. Where memory runs out, both stay.
    pub fn append(&mut self, other: &mut TokenStream) -> Result<(), AllocError>
        ensures ok { OnOk result (stream self.new ≡ stream self.old ++ stream other.old) }
        ensures err { OnErr result (stream self.new ≡ stream self.old) }
    {
        self.trees.append(&mut other.trees)
    }
}
