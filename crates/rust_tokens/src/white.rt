//! White space between tokens.
ghost use Rattle.std.specs.Prelude.{◌≡◌, ◌≤◌, ◌-◌, drop, length};
ghost use Rattle.std.specs.Str.{skip_leading_whitespace};

/// The characters from the first that is no white space.
pub(crate) fn skip_white(chars: &[char]) -> &[char]
    ensures value { result.now ≡ skip_leading_whitespace chars.now }
    ensures within { length result.now ≤ length chars.now }
{
    for (i, ch) in chars.iter().enumerate() {
        if !ch.is_whitespace() {
            return &chars[i..];
        }
    }
    &chars[chars.len()..]
}

/// The characters after a token of `n` and the white space that follows it.
pub(crate) fn after_token(chars: &[char], n: usize) -> &[char]
    requires { n ≤ length chars.now }
    ensures value { result.now ≡ skip_leading_whitespace (drop n chars.now) }
    ensures within { length result.now ≤ length chars.now - n }
{
    skip_white(&chars[n..])
}
