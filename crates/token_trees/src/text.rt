//! The text of token trees: one space between any two tokens, but none after a joint character.
ghost use Rattle.std.specs.Prelude.{◌≡◌, OnOk, IfOk, true, false, ◌++◌, ◌∷◌, [], string_bytes, encode_utf8, flat_map};
ghost use Rattle.std.specs.Str.{chars};
ghost use Rattle.token_trees.specs.View.{tree as tree_view, fixed_view, stream as stream_view};
ghost use Rattle.token_trees.specs.Text.{pieces_of, fixed_spelling, is_joint_spacing, gap, spaced, tight_after, text_of, shown, escaped};
ghost use Rattle.token_trees.specs.Brackets.{opening_pieces, closing_pieces, first_pieces};

use crate::token::{Delimiter, Lit, Spacing, TokenStream, TokenTree};
use std::alloc::{AllocError, Global};

// Whether the character after it follows at once.
fn is_tight(spacing: Spacing) -> bool
    ensures { result ≡ is_joint_spacing spacing }
{
    match spacing {
        Spacing::Alone => false,
        Spacing::Joint => true,
    }
}

// A character, escaped where it changes the direction of what is shown.
fn push_shown(out: &mut String, ch: char) -> Result<(), AllocError>
    ensures { OnOk result (string_bytes out.new ≡ string_bytes out.old ++ shown ch) }
{
    match ch {
        '\u{202a}' => out.push_str("\\u{202a}"),
        '\u{202b}' => out.push_str("\\u{202b}"),
        '\u{202c}' => out.push_str("\\u{202c}"),
        '\u{202d}' => out.push_str("\\u{202d}"),
        '\u{202e}' => out.push_str("\\u{202e}"),
        '\u{2066}' => out.push_str("\\u{2066}"),
        '\u{2067}' => out.push_str("\\u{2067}"),
        '\u{2068}' => out.push_str("\\u{2068}"),
        '\u{2069}' => out.push_str("\\u{2069}"),
        _ => out.push(ch),
    }
}

// A character of a string literal, escaped where it has to be.
fn push_escaped(out: &mut String, ch: char) -> Result<(), AllocError>
    ensures { OnOk result (string_bytes out.new ≡ string_bytes out.old ++ escaped ch) }
{
    match ch {
        '\n' => out.push_str("\\n"),
        '\r' => out.push_str("\\r"),
        '\t' => out.push_str("\\t"),
        '\0' => out.push_str("\\0"),
        '\\' => out.push_str("\\\\"),
        '"' => out.push_str("\\\""),
        _ => push_shown(out, ch),
    }
}

// The characters of a string literal between its quotes.
fn push_all_escaped(out: &mut String, value: &str) -> Result<(), AllocError>
    ensures { OnOk result (string_bytes out.new ≡ string_bytes out.old ++ flat_map escaped (chars value.now)) }
{
    for ch in value.chars() {
        push_escaped(out, ch)?;
    }
    Ok(())
}

// A literal as it stands in a text.
fn push_literal(out: &mut String, lit: &Lit) -> Result<(), AllocError>
    ensures { OnOk result (string_bytes out.new ≡ string_bytes out.old ++ fixed_spelling (fixed_view lit.now)) }
{
    match lit {
        Lit::Str { value, suffix } => {
            out.push('"')?;
            push_all_escaped(out, value)?;
            out.push('"')?;
            out.push_str(suffix)
        }
        Lit::Int { digits } => out.push_str(digits),
        Lit::Other { text } => out.push_str(text),
    }
}

// A text that grows token by token. Where it is tight, no space comes before the next token.
#[derive(Drop)]
struct Printer {
    text: String,
    tight: bool,
}

impl Printer {
    // What stands between the token before and the next one.
    fn space(&mut self) -> Result<(), AllocError>
        ensures text { OnOk result (string_bytes self.new.text ≡ string_bytes self.old.text ++ gap self.old.tight) }
        ensures tight { OnOk result (self.new.tight ≡ self.old.tight) }
    {
        if !self.tight {
            self.text.push(' ')?;
        }
        Ok(())
    }

    // A token that is printed as that text.
    fn plain(&mut self, text: &str, joint: bool) -> Result<(), AllocError>
        ensures text { OnOk result (string_bytes self.new.text ≡ string_bytes self.old.text ++ (gap self.old.tight ++ text.now)) }
        ensures tight { OnOk result (self.new.tight ≡ joint) }
    {
        self.space()?;
        self.text.push_str(text)?;
        self.tight = joint;
        Ok(())
    }

    // A punctuation character.
    fn sign(&mut self, ch: char, spacing: Spacing) -> Result<(), AllocError>
        ensures text { OnOk result (string_bytes self.new.text ≡ string_bytes self.old.text ++ (gap self.old.tight ++ encode_utf8 ch)) }
        ensures tight { OnOk result (self.new.tight ≡ is_joint_spacing spacing) }
    {
        self.space()?;
        self.text.push(ch)?;
        self.tight = is_tight(spacing);
        Ok(())
    }

    // A literal.
    fn literal(&mut self, lit: &Lit) -> Result<(), AllocError>
        ensures text { OnOk result (string_bytes self.new.text ≡ string_bytes self.old.text ++ (gap self.old.tight ++ fixed_spelling (fixed_view lit.now))) }
        ensures tight { OnOk result (self.new.tight ≡ false) }
    {
        self.space()?;
        push_literal(&mut self.text, lit)?;
        self.tight = false;
        Ok(())
    }

    // The bracket that opens a group, where one shows.
    fn open(&mut self, delimiter: Delimiter) -> Result<(), AllocError>
        ensures text { OnOk result (string_bytes self.new.text ≡ string_bytes self.old.text ++ spaced self.old.tight (opening_pieces delimiter)) }
        ensures tight { OnOk result (self.new.tight ≡ tight_after self.old.tight (opening_pieces delimiter)) }
    {
        match delimiter {
            Delimiter::Parenthesis => self.plain("(", false),
            Delimiter::Brace => self.plain("{", false),
            Delimiter::Bracket => self.plain("[", false),
            Delimiter::None => Ok(()),
        }
    }

    // The bracket that closes a group, where one shows.
    fn close(&mut self, delimiter: Delimiter) -> Result<(), AllocError>
        ensures text { OnOk result (string_bytes self.new.text ≡ string_bytes self.old.text ++ spaced self.old.tight (closing_pieces delimiter)) }
        ensures tight { OnOk result (self.new.tight ≡ tight_after self.old.tight (closing_pieces delimiter)) }
    {
        match delimiter {
            Delimiter::Parenthesis => self.plain(")", false),
            Delimiter::Brace => self.plain("}", false),
            Delimiter::Bracket => self.plain("]", false),
            Delimiter::None => Ok(()),
        }
    }

    // A token, or the bracket that opens a group.
    fn begin(&mut self, tree: &TokenTree) -> Result<(), AllocError>
        ensures text { OnOk result (string_bytes self.new.text ≡ string_bytes self.old.text ++ spaced self.old.tight (first_pieces (tree_view tree.now))) }
        ensures tight { OnOk result (self.new.tight ≡ tight_after self.old.tight (first_pieces (tree_view tree.now))) }
    {
        match tree {
            TokenTree::Ident(name) => self.plain(&name.text, false),
            TokenTree::Punct(punct) => self.sign(punct.ch, punct.spacing),
            TokenTree::Literal(literal) => self.literal(&literal.lit),
            TokenTree::Group(group) => self.open(group.delimiter),
        }
    }
}

// The trees that are left of a group that is being printed, and its brackets. The outermost trees stand in none.
#[derive(Clone, Copy)]
struct Level<'a> {
    left: &'a [TokenTree],
    delimiter: Delimiter,
}

// The trees of a stream, level by level: the levels that are open stand in a list, so that deep groups want no deep stack.
fn print_stream(alloc: Global, stream: &TokenStream, out: &mut Printer) -> Result<(), AllocError>
    ensures text { OnOk result (string_bytes out.new.text ≡ string_bytes out.old.text ++ spaced out.old.tight (pieces_of (stream_view stream.now))) }
    ensures tight { OnOk result (out.new.tight ≡ tight_after out.old.tight (pieces_of (stream_view stream.now))) }
{
    let mut levels = Vec::new(alloc);
    levels.push(Level {
        left: &stream.trees,
        delimiter: Delimiter::None,
    })?;
    while let Some(Level { left, delimiter }) = levels.pop() {
        let Some((tree, rest)) = left.split_first() else {
            out.close(delimiter)?;
            continue;
        };
        out.begin(tree)?;
        levels.push(Level {
            left: rest,
            delimiter,
        })?;
        if let TokenTree::Group(group) = tree {
            levels.push(Level {
                left: &group.stream.trees,
                delimiter: group.delimiter,
            })?;
        }
    }
    Ok(())
}

impl TokenStream {
    /// The tokens with one space between any two, but none after a joint character. Brackets are tokens, a group
    /// without delimiters is its tokens, and string literals are escaped, so that rustc takes them.
    pub fn text(&self, alloc: Global) -> Result<String, AllocError>
        ensures { IfOk result (λ s. string_bytes s ≡ text_of (stream_view self.now)) }
    {
        let mut printer = Printer {
            text: String::new(alloc),
            tight: true,
        };
        print_stream(alloc, self, &mut printer)?;
        Ok(printer.text)
    }
}
