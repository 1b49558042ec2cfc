//! Identifiers at the front of characters.
ghost use Rattle.std.specs.Prelude.{◌≡◌, ◌≤◌, ◌+◌, length, ◌∷◌};
ghost use Rattle.rust_tokens.specs.Front.{name_len, is_raw_rest, name_span};

use crate::character::begins_name;

/// How many characters at the front go on with an identifier.
pub(crate) fn name_len(chars: &[char]) -> usize
    ensures value { result ≡ name_len chars.now }
    ensures within { result ≤ length chars.now }
{
    for (i, ch) in chars.iter().enumerate() {
        if !unicode_ident::is_xid_continue(*ch) {
            return i;
        }
    }
    chars.len()
}

// Whether a raw identifier goes on there after its `r`.
fn is_raw_rest(rest: &[char]) -> bool
    ensures { result ≡ is_raw_rest rest.now }
{
    match rest {
        [hash, first, ..] => (*hash == '#') & begins_name(*first),
        _ => false,
    }
}

/// How many characters an identifier takes whose first character is there and that goes on in the rest.
pub(crate) fn name_span(first: char, rest: &[char]) -> usize
    ensures value { result ≡ name_span first rest.now }
    ensures within { result ≤ length rest.now + 1 }
{
    if (first == 'r') & is_raw_rest(rest) {
        name_len(&rest[2..]) + 3
    } else {
        name_len(rest) + 1
    }
}
