//! How deep the types of a text may be nested.
use std::alloc::{AllocError, Global};
use token_trees::{Spacing, TokenTree};

/// The most types that may stand in one another. Deeper ones would ask more of the stack than eight megabytes hold.
pub const DEEPEST: u32 = 500;

/// A walk over tokens that tells how deep the types end that stand there.
#[derive(Drop)]
struct Nesting {
    /// How deep a type is that stands here.
    depth: u32,
    /// How deep a type is that stands behind the next comma.
    start: u32,
    /// The same of the angle brackets that are open, outermost first.
    outer: Vec<u32>,
    /// Whether a `-` that belongs to the next character stands before it.
    is_arrow: bool,
}

impl Nesting {
    // The next character: an angle bracket, a comma, or one that stands before a type.
    fn sign(&mut self, ch: char, spacing: Spacing) -> Result<(), AllocError> {
        let is_arrow = self.is_arrow;
        self.is_arrow = ch == '-' && spacing == Spacing::Joint;
        match ch {
            '<' => {
                self.outer.push(self.start)?;
                self.depth = self.depth.saturating_add(1);
                self.start = self.depth;
            }
            '>' if is_arrow => self.depth = self.depth.saturating_add(1),
            '>' => {
                if let Some(start) = self.outer.pop() {
                    self.depth = self.start.saturating_sub(1);
                    self.start = start;
                }
            }
            '&' | '*' => self.depth = self.depth.saturating_add(1),
            ',' => self.depth = self.start,
            _ => {}
        }
        Ok(())
    }
}

/// Whether no type in these tokens stands deeper than `DEEPEST`. Each group, angle bracket, `&`, `*` and `->` leads one
/// deeper. Fails where memory runs out.
pub(crate) fn is_shallow(alloc: Global, tokens: &[TokenTree]) -> Result<bool, AllocError> {
    are_shallow(alloc, tokens, 0, DEEPEST)
}

// The same, where a type that begins here is `depth` deep, and so many groups may still stand in one another.
#[cycle(nesting)]
fn are_shallow(
    alloc: Global,
    tokens: &[TokenTree],
    depth: u32,
    room: u32,
) -> Result<bool, AllocError> {
    let mut nesting = Nesting {
        depth,
        start: depth,
        outer: Vec::new(alloc),
        is_arrow: false,
    };
    for token in tokens {
        if !token_is_shallow(alloc, token, &mut nesting, room)? {
            return Ok(false);
        }
    }
    Ok(true)
}

// The same of one token, which the walk passes.
#[cycle(nesting)]
fn token_is_shallow(
    alloc: Global,
    token: &TokenTree,
    nesting: &mut Nesting,
    room: u32,
) -> Result<bool, AllocError> {
    match token {
        TokenTree::Punct(punct) => nesting.sign(punct.ch, punct.spacing)?,
        TokenTree::Group(group) => {
            nesting.is_arrow = false;
            if room == 0 {
                return Ok(false);
            }
            let depth = nesting.depth.saturating_add(1);
            return are_shallow(alloc, group.stream.trees(), depth, room - 1);
        }
        _ => nesting.is_arrow = false,
    }
    Ok(nesting.depth <= DEEPEST)
}
