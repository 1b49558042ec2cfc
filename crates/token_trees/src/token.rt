//! The token trees. A span names a file and a range of byte places in it; `lo` is where it begins, `hi` where it ends.

/// Where a token stands: the bytes from `lo` to `hi` of a file.
#[derive(Clone, Copy, PartialEq, Eq)]
pub struct Span {
    pub file: u32,
    pub lo: u32,
    pub hi: u32,
}

/// The brackets round a group. `None` is a group that no bracket shows.
#[derive(Clone, Copy, PartialEq, Eq)]
pub enum Delimiter {
    Parenthesis,
    Brace,
    Bracket,
    None,
}

/// Whether a punctuation character belongs to the token after it.
#[derive(Clone, Copy, PartialEq, Eq)]
pub enum Spacing {
    Alone,
    Joint,
}

/// An identifier or a keyword, with `r#` where it was written so.
pub struct Ident {
    pub text: String,
    pub span: Span,
}

impl Drop for Ident {
    fn drop(self) {
        let Ident {
            text: _text,
            span: _,
        } = self;
    }
}

/// One punctuation character.
#[derive(Clone, Copy)]
pub struct Punct {
    pub ch: char,
    pub spacing: Spacing,
    pub span: Span,
}

/// What a literal is: a string without its quotes and escapes, decimal digits with `_` and what belongs to them, or another.
pub enum Lit {
    Str { value: String, suffix: String },
    Int { digits: String },
    Other { text: String },
}

impl Drop for Lit {
    fn drop(self) {
        match self {
            Lit::Str {
                value: _value,
                suffix: _suffix,
            } => {}
            Lit::Int { digits: _digits } => {}
            Lit::Other { text: _text } => {}
        }
    }
}

/// A literal with its place.
pub struct Literal {
    pub lit: Lit,
    pub span: Span,
}

impl Drop for Literal {
    fn drop(self) {
        let Literal { lit: _lit, span: _ } = self;
    }
}

/// Token trees between two brackets.
#[cycle(tree)]
#[derive(Drop)]
pub struct Group {
    pub delimiter: Delimiter,
    pub stream: TokenStream,
    pub span: Span,
}

/// A token, or a group of them.
#[cycle(tree)]
#[derive(Drop)]
pub enum TokenTree {
    Ident(Ident),
    Punct(Punct),
    Literal(Literal),
    Group(Group),
}

/// Token trees in order.
#[cycle(tree)]
pub struct TokenStream {
    pub(crate) trees: Vec<TokenTree>,
}

impl TokenStream {
    ghost use Rattle.std.specs.Prelude.{◌≡◌};
    ghost use Rattle.token_trees.specs.View.{trees as trees_view, stream};
    ghost use Rattle.token_trees.specs.declared.token.TokenStream.{out-TokenStream};

    // The trees themselves.
    fn into_trees(self) -> Vec<TokenTree>
        ensures trees { trees_view result.items ≡ stream self }
        ensures same { result ≡ (out-TokenStream self).trees }
    {
        let TokenStream { trees } = self;
        trees
    }
}

// One tree after the other: the trees of a group take its place, so that deep groups want no deep stack. Only where no
// memory is left for them are they dropped in the group.
impl Drop for TokenStream {
    #[cycle(tree)]
    fn drop(self) {
        let TokenStream { trees } = self;
        let mut left = trees;
        while let Some(tree) = left.pop() {
            match tree {
                TokenTree::Group(group) => {
                    let Group { stream, .. } = group;
                    let mut inner = stream.into_trees();
                    let _ = left.append(&mut inner);
                }
                _leaf => {}
            }
        }
    }
}
