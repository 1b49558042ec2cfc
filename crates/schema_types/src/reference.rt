//! The name in a reference (`#/definitions/NAME` or `#/$defs/NAME`), and its decoding, where `~1` is `/` and `~0` is `~`.
ghost use Rattle.std.specs.Prelude.{◌≡◌, [], ◌∷◌, MatchOption, option_map, bytes_eq, codes};
ghost use Rattle.std.specs.List.{list_any};
ghost use Rattle.std.specs.Prelude.{◌==◌};
ghost use Rattle.schema_defs.specs.Location.{unescaped};
ghost use Rattle.schema_defs.specs.Admits.{first_of, without_prefix};

/// The name as it is written, or nothing where the reference has neither prefix.
pub fn written_name(reference: &str) -> Option<&str>
    ensures { option_map (λ n. n.now) result ≡ first_of (without_prefix (codes "#/definitions/") reference.now) (without_prefix (codes "#/$defs/") reference.now) }
{
    match reference.strip_prefix("#/definitions/") {
        Some(name) => Some(name),
        None => reference.strip_prefix("#/$defs/"),
    }
}

// Whether a `~` stands in the text.
pub(crate) fn is_escaped(text: &str) -> bool
    ensures { result ≡ list_any (λ c. c == 126) text.now }
{
    text.as_bytes().contains(&b'~')
}

// The first byte of what the text decodes to, and what is left to decode.
fn decode_first(escaped: &[u8]) -> Option<(u8, &[u8])>
    ensures { MatchOption result (escaped.now ≡ []) (λ f. unescaped escaped.now ≡ f.0 ∷ unescaped f.1.now) }
{
    let (first, rest) = escaped.split_first()?;
    if *first != b'~' {
        return Some((*first, rest));
    }
    match rest.split_first() {
        Some((b'0', after)) => Some((b'~', after)),
        Some((b'1', after)) => Some((b'/', after)),
        _ => Some((b'~', rest)),
    }
}

// Whether the text decodes to the name.
pub(crate) fn decodes_to(escaped: &str, name: &str) -> bool
    ensures { result ≡ bytes_eq (unescaped escaped.now) name.now }
{
    let mut left = escaped.as_bytes();
    for byte in name.as_bytes() {
        match decode_first(left) {
            Some((first, rest)) if first == *byte => left = rest,
            _ => return false,
        }
    }
    left.is_empty()
}
