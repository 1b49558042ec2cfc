//! The signs of lookaheads and lookbehinds.
ghost use Rattle.std.specs.Prelude.{◌≡◌, ◌+◌, ◌≤◌, length, IfSome, option_map};
ghost use Rattle.plain_patterns.specs.Ends.{after as what_follows, direction as direction_of, is_only as only, look as look_of, looks_behind as looks_at_front, polarity as polarity_of};

/// What follows the character, where the text begins with it.
pub fn after(character: char, text: &[char]) -> Option<&[char]>
    ensures value { option_map (λ u. u.now) result ≡ what_follows character text.now }
    ensures shorter { IfSome result (λ u. length u.now + 1 ≤ length text.now) }
{
    let Some((first, rest)) = text.split_first() else {
        return None;
    };
    if *first == character {
        Some(rest)
    } else {
        None
    }
}

/// Whether the character is the whole text.
pub fn is_only(character: char, text: &[char]) -> bool
    ensures { result ≡ only character text.now }
{
    match text {
        [first] => *first == character,
        _ => false,
    }
}

fn polarity(text: &[char]) -> Option<(bool, &[char])>
    ensures value { option_map (λ p. (p.0, p.1.now)) result ≡ polarity_of text.now }
    ensures shorter { IfSome result (λ p. length p.1.now ≤ length text.now) }
{
    let Some((first, rest)) = text.split_first() else {
        return None;
    };
    match *first {
        '=' => Some((false, rest)),
        '!' => Some((true, rest)),
        _ => None,
    }
}

fn direction(back: bool, text: &[char]) -> Option<&[char]>
    ensures value { option_map (λ u. u.now) result ≡ direction_of back text.now }
    ensures shorter { IfSome result (λ u. length u.now ≤ length text.now) }
{
    if back { after('<', text) } else { Some(text) }
}

/// After the beginning of a lookahead, or of a lookbehind: whether it is negated, and what follows.
pub fn look(back: bool, text: &[char]) -> Option<(bool, &[char])>
    ensures value { option_map (λ p. (p.0, p.1.now)) result ≡ look_of back text.now }
    ensures shorter { IfSome result (λ p. length p.1.now + 1 ≤ length text.now) }
{
    let group = after('(', text)?;
    let sign = after('?', group)?;
    let signs = direction(back, sign)?;
    polarity(signs)
}

/// What follows a `^` at the front, where it is a lookahead.
pub fn looks_behind(text: &[char]) -> Option<&[char]>
    ensures value { option_map (λ u. u.now) result ≡ looks_at_front text.now }
    ensures shorter { IfSome result (λ u. length u.now ≤ length text.now) }
{
    let rest = after('^', text)?;
    if look(false, rest).is_some() {
        Some(rest)
    } else {
        None
    }
}
