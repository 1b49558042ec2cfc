//! A cursor over nested metas, as `rename = "a", default`. It takes no memory.
ghost use Rattle.std.specs.Prelude.{◌≡◌, ◌≤◌, ◌-◌, ◌↔◌, IsTrue, IsSome, Option, Some, None, OnOk, OnErr, IfOk, IfErr, IfSome, IfNone, [], take, drop, length, option_map, is_some, true, false};
ghost use Rattle.token_trees.specs.View.{tree, trees, group_view, stream as stream_view};
ghost use Rattle.syntax_trees.specs.declared.cursor.SyntaxKind.TheVariants.{ExpectedPath, ExpectedParen, ExpectedComma};
ghost use Rattle.syntax_trees.specs.Metas.{is_sign, is_joint_sign, is_word, sign_next, colons_next, names_len, no_name, path_len, no_path, rest_of, before_comma, from_comma, ends_meta, not_empty, value_next, in_parens, parens_next, place, expected, no_value};

use token_trees::{Delimiter, Group, Spacing, Span, TokenStream, TokenTree};

/// What was expected, or what stands where nothing fits.
#[derive(Clone, Copy, PartialEq, Eq)]
pub enum SyntaxKind {
    ExpectedArguments,
    ExpectedPath,
    ExpectedComma,
    ExpectedEq,
    ExpectedEqOrParen,
    ExpectedParen,
    ExpectedValue,
    ExpectedIdent,
    ExpectedType,
    ExpectedGt,
    ExpectedLifetime,
    ExpectedPlus,
    ExpectedBound,
    UnexpectedToken,
    Lex,
}

/// An error of syntax. The span is that of the offending token, or of the enclosing group where the tokens end.
#[derive(Clone, Copy, PartialEq, Eq)]
pub struct SyntaxError {
    pub kind: SyntaxKind,
    pub span: Span,
}

/// A cursor: the tokens that are left, and the span of the group that they stand in.
#[derive(Clone, Copy)]
pub struct MetaCursor<'a> {
    pub left: &'a [TokenTree],
    pub at: Span,
}

// Whether that character stands next.
fn is_sign_next(ch: char, tokens: &[TokenTree]) -> bool
    ensures { result ≡ sign_next ch (trees tokens.now) }
{
    match tokens {
        [TokenTree::Punct(punct), ..] => ch == punct.ch,
        _ => false,
    }
}

// Whether the token is a name.
fn is_name(token: &TokenTree) -> bool
    ensures { result ≡ is_word (tree token.now) }
{
    match token {
        TokenTree::Ident(_) => true,
        _ => false,
    }
}

// Whether the token is that character, and the next one belongs to it.
fn is_joint_mark(ch: char, token: &TokenTree) -> bool
    ensures { result ≡ is_joint_sign ch (tree token.now) }
{
    match token {
        TokenTree::Punct(punct) => ch == punct.ch && punct.spacing == Spacing::Joint,
        _ => false,
    }
}

// Whether `::` stands next.
fn are_colons_next(tokens: &[TokenTree]) -> bool
    ensures value { result ≡ colons_next (trees tokens.now) }
    ensures room { IsTrue result → 2 ≤ length tokens.now }
{
    match tokens {
        [first, rest @ ..] => {
            !rest.is_empty() && is_joint_mark(':', first) && is_sign_next(':', rest)
        }
        [] => false,
    }
}

// What stands after the first two tokens.
fn after_two(tokens: &[TokenTree]) -> &[TokenTree]
    ensures value { trees result.now ≡ rest_of (rest_of (trees tokens.now)) }
    ensures len { length result.now ≡ length tokens.now - 2 }
{
    match tokens {
        [_, _, rest @ ..] => rest,
        _ => &[],
    }
}

// How many tokens stand before the first comma.
fn comma_place(tokens: &[TokenTree]) -> usize
    ensures within { result ≤ length tokens.now }
    ensures after { drop result (trees tokens.now) ≡ from_comma (trees tokens.now) }
{
    let mut left = tokens;
    let mut passed = 0;
    while let Some((_, rest)) = left.split_first() {
        if is_sign_next(',', left) {
            return passed;
        }
        left = rest;
        passed += 1;
    }
    passed
}

// The tokens before the first comma, and those from it on.
fn split_at_comma(tokens: &[TokenTree]) -> (&[TokenTree], &[TokenTree])
    ensures front { trees result.0.now ≡ before_comma (trees tokens.now) }
    ensures back { trees result.1.now ≡ from_comma (trees tokens.now) }
{
    tokens.split_at(comma_place(tokens))
}

// Where the names in front end, or on Err where one is missing.
fn names_end(tokens: &[TokenTree]) -> Result<usize, usize>
    ensures ok { IfOk result (λ n. names_len (trees tokens.now) ≡ Some n) }
    ensures ok_within { IfOk result (λ n. n ≤ length tokens.now) }
    ensures err { IfErr result (λ n. names_len (trees tokens.now) ≡ None) }
    ensures err_place { IfErr result (λ n. drop n (trees tokens.now) ≡ no_name (trees tokens.now)) }
    ensures err_within { IfErr result (λ n. n ≤ length tokens.now) }
{
    let mut left = tokens;
    let mut passed = 0;
    while let Some((first, rest)) = left.split_first() {
        if !is_name(first) {
            return Err(passed);
        }
        if !are_colons_next(rest) {
            return Ok(passed + 1);
        }
        left = after_two(rest);
        passed += 3;
    }
    Err(passed)
}

// What stands after the first token.
fn after_one(tokens: &[TokenTree]) -> &[TokenTree]
    ensures { trees result.now ≡ rest_of (trees tokens.now) }
{
    match tokens.split_first() {
        Some((_, rest)) => rest,
        None => &[],
    }
}

// The tokens of the group, where it is in parentheses.
fn parens_of(group: &Group) -> Option<&TokenStream>
    ensures some { IfSome result (λ s. in_parens (group_view group.now) ≡ Some (stream_view s.now)) }
    ensures none { IfNone result (in_parens (group_view group.now) ≡ None) }
{
    match group.delimiter {
        Delimiter::Parenthesis => Some(&group.stream),
        _ => None,
    }
}

// The tokens of the token, where it is a group in parentheses.
fn parens_in(token: &TokenTree) -> Option<&TokenStream>
    ensures some { IfSome result (λ s. in_parens (tree token.now) ≡ Some (stream_view s.now)) }
    ensures none { IfNone result (in_parens (tree token.now) ≡ None) }
{
    match token {
        TokenTree::Group(group) => parens_of(group),
        _ => None,
    }
}

// The tokens of the group in parentheses that stands next.
fn parens_at(tokens: &[TokenTree]) -> Option<&TokenStream>
    ensures some { IfSome result (λ s. parens_next (trees tokens.now) ≡ Some (stream_view s.now)) }
    ensures none { IfNone result (parens_next (trees tokens.now) ≡ None) }
{
    match tokens.first() {
        Some(token) => parens_in(token),
        None => None,
    }
}

// Where the path in front ends, or on Err where a name of it is missing.
fn path_end(tokens: &[TokenTree]) -> Result<usize, usize>
    ensures ok { IfOk result (λ n. path_len (trees tokens.now) ≡ Some n) }
    ensures ok_within { IfOk result (λ n. n ≤ length tokens.now) }
    ensures err { IfErr result (λ n. path_len (trees tokens.now) ≡ None) }
    ensures err_place { IfErr result (λ n. drop n (trees tokens.now) ≡ no_path (trees tokens.now)) }
    ensures err_within { IfErr result (λ n. n ≤ length tokens.now) }
{
    if !are_colons_next(tokens) {
        return names_end(tokens);
    }
    match names_end(after_two(tokens)) {
        Ok(end) => Ok(end + 2),
        Err(end) => Err(end + 2),
    }
}

// The span of the token that stands next, or `at` where none does.
fn place_next(at: Span, tokens: &[TokenTree]) -> Span
    ensures { result ≡ place at (trees tokens.now) }
{
    match tokens.first() {
        Some(token) => token.span(),
        None => at,
    }
}

impl<'a> MetaCursor<'a> {
    /// A cursor at the first token of `stream`, which stands in a group whose span is `at`.
    pub fn over(stream: &'a TokenStream, at: Span) -> MetaCursor<'a>
        ensures tokens { trees result.left.now ≡ stream_view stream.now }
        ensures at { result.at ≡ at }
    {
        MetaCursor {
            left: stream.trees(),
            at,
        }
    }

    /// Whether `=` stands next.
    pub fn peek_eq(&self) -> bool
        ensures { result ≡ sign_next 61 (trees self.now.left.now) }
    {
        is_sign_next('=', self.left)
    }

    /// Whether a group in parentheses stands next.
    pub fn peek_paren(&self) -> bool
        ensures { IsTrue result ↔ IsSome (parens_next (trees self.now.left.now)) }
    {
        match self.left.first() {
            Some(TokenTree::Group(group)) => group.delimiter == Delimiter::Parenthesis,
            _ => false,
        }
    }

    // What was expected, at the place of the next of `tokens`.
    fn expected(&self, kind: SyntaxKind, tokens: &[TokenTree]) -> SyntaxError
        ensures { result ≡ expected kind self.now.at (trees tokens.now) }
    {
        SyntaxError {
            kind,
            span: place_next(self.at, tokens),
        }
    }

    /// The tokens of the path that stands next: names with `::` between two, and maybe one `::` before the first. None at the
    /// end. On Err, ExpectedPath at the place where a name is missing, the cursor stays.
    pub fn next(&mut self) -> Result<Option<&'a [TokenTree]>, SyntaxError>
        ensures end { (trees self.old.left.now ≡ []) ↔ (result ≡ Ok None) }
        ensures len { IfOk result (λ o. IfSome o (λ p. path_len (trees self.old.left.now) ≡ Some (length p.now))) }
        ensures path { IfOk result (λ o. IfSome o (λ p. trees p.now ≡ take (length p.now) (trees self.old.left.now))) }
        ensures rest { IfOk result (λ o. IfSome o (λ p. trees self.new.left.now ≡ drop (length p.now) (trees self.old.left.now))) }
        ensures stays { IfOk result (λ o. IfNone o (self.new ≡ self.old)) }
        ensures no_path { OnErr result (path_len (trees self.old.left.now) ≡ None) }
        ensures err { IfErr result (λ e. e ≡ expected ExpectedPath self.old.at (no_path (trees self.old.left.now))) }
        ensures unchanged { OnErr result (self.new ≡ self.old) }
        ensures at { self.new.at ≡ self.old.at }
    {
        let tokens = self.left;
        if tokens.is_empty() {
            return Ok(None);
        }
        match path_end(tokens) {
            Ok(end) => {
                let (path, rest) = tokens.split_at(end);
                self.left = rest;
                Ok(Some(path))
            }
            Err(end) => {
                let (_, rest) = tokens.split_at(end);
                Err(self.expected(SyntaxKind::ExpectedPath, rest))
            }
        }
    }

    /// The tokens after `=` up to the next comma or the end, one at least. On Err, ExpectedEq at what stands in place of `=` or
    /// ExpectedValue at what follows it, the cursor stays.
    pub fn value(&mut self) -> Result<&'a [TokenTree], SyntaxError>
        ensures value { IfOk result (λ v. value_next (trees self.old.left.now) ≡ Some (trees v.now)) }
        ensures rest { OnOk result (trees self.new.left.now ≡ from_comma (rest_of (trees self.old.left.now))) }
        ensures no_value { OnErr result (value_next (trees self.old.left.now) ≡ None) }
        ensures err { IfErr result (λ e. e ≡ no_value self.old.at (trees self.old.left.now)) }
        ensures unchanged { OnErr result (self.new ≡ self.old) }
        ensures at { self.new.at ≡ self.old.at }
    {
        let tokens = self.left;
        if !is_sign_next('=', tokens) {
            return Err(self.expected(SyntaxKind::ExpectedEq, tokens));
        }
        let after = after_one(tokens);
        let (value, rest) = split_at_comma(after);
        if value.is_empty() {
            return Err(self.expected(SyntaxKind::ExpectedValue, after));
        }
        self.left = rest;
        Ok(value)
    }

    /// A cursor over the tokens of the group in parentheses that stands next, which is passed. On Err, ExpectedParen at what
    /// stands in its place, the cursor stays.
    pub fn nested(&mut self) -> Result<MetaCursor<'a>, SyntaxError>
        ensures tokens { IfOk result (λ c. parens_next (trees self.old.left.now) ≡ Some (trees c.left.now)) }
        ensures group { IfOk result (λ c. c.at ≡ place self.old.at (trees self.old.left.now)) }
        ensures rest { OnOk result (trees self.new.left.now ≡ rest_of (trees self.old.left.now)) }
        ensures no_group { OnErr result (parens_next (trees self.old.left.now) ≡ None) }
        ensures err { IfErr result (λ e. e ≡ expected ExpectedParen self.old.at (trees self.old.left.now)) }
        ensures unchanged { OnErr result (self.new ≡ self.old) }
        ensures at { self.new.at ≡ self.old.at }
    {
        let tokens = self.left;
        match parens_at(tokens) {
            Some(inner) => {
                let group = place_next(self.at, tokens);
                self.left = after_one(tokens);
                Ok(MetaCursor::over(inner, group))
            }
            None => Err(self.expected(SyntaxKind::ExpectedParen, tokens)),
        }
    }

    /// Passes the comma that stands next, or stands at the end. On Err, ExpectedComma at what stands there, the cursor stays.
    pub fn finish_meta(&mut self) -> Result<(), SyntaxError>
        ensures ends { OnOk result (ends_meta (trees self.old.left.now) ≡ true) }
        ensures rest { OnOk result (trees self.new.left.now ≡ rest_of (trees self.old.left.now)) }
        ensures goes_on { OnErr result (ends_meta (trees self.old.left.now) ≡ false) }
        ensures err { IfErr result (λ e. e ≡ expected ExpectedComma self.old.at (trees self.old.left.now)) }
        ensures unchanged { OnErr result (self.new ≡ self.old) }
        ensures at { self.new.at ≡ self.old.at }
    {
        let tokens = self.left;
        if tokens.is_empty() {
            return Ok(());
        }
        if is_sign_next(',', tokens) {
            self.left = after_one(tokens);
            return Ok(());
        }
        Err(self.expected(SyntaxKind::ExpectedComma, tokens))
    }
}
