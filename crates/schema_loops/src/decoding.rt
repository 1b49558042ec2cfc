//! The name in a reference, and its decoding, where `~1` is `/` and `~0` is `~`.
ghost use Rattle.std.specs.Prelude.{◌≡◌, ◌<◌, [], ◌∷◌, length, MatchOption, IfOk};
ghost use Rattle.schema_defs.specs.Location.{unescaped};

use std::alloc::{AllocError, Global};

// The first byte of what the text decodes to, and what is left to decode.
fn decode_first(escaped: &[u8]) -> Option<(u8, &[u8])>
    ensures decodes { MatchOption result (escaped.now ≡ []) (λ f. unescaped escaped.now ≡ f.0 ∷ unescaped f.1.now) }
    ensures shorter { MatchOption result (escaped.now ≡ []) (λ f. length f.1.now < length escaped.now) }
{
    let (first, rest) = escaped.split_first()?;
    if *first != b'~' {
        return Some((*first, rest));
    }
    match rest.split_first() {
        Some((b'0', after)) => Some((b'~', after)),
        Some((b'1', after)) => Some((b'/', after)),
        _ => Some((b'~', rest)),
    }
}

// What the text decodes to.
pub(crate) fn decoded(alloc: Global, escaped: &str) -> Result<Vec<u8>, AllocError>
    ensures { IfOk result (λ v. v.items ≡ unescaped escaped.now) }
{
    let mut bytes = Vec::with_capacity(alloc, escaped.len())?;
    let mut left = escaped.as_bytes();
    while let Some((first, rest)) = decode_first(left) {
        bytes.push(first)?;
        left = rest;
    }
    Ok(bytes)
}
