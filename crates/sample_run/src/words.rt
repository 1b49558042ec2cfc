//! The words `sample N`.
ghost use Rattle.std.specs.Prelude.{◌≡◌, ◌≤◌, ◌-◌, IfSome, IsTrue, map, string_bytes, true};
ghost use Rattle.typify_run.specs.Words.{is_digit as is_digit_of, is_leading as is_leading_of, up_to};
ghost use Rattle.sample_run.specs.Words.{count_of as count_read, sample_said};

/// The number that `sample N` says, from 1 to 999 without sign or leading zero; nothing for any other words.
pub fn sample_of_words(words: &[String]) -> Option<u32>
    ensures exact { result ≡ sample_said (map string_bytes words.now) }
    ensures within { IfSome result (λ n. (1 ≤ n) × (n ≤ 999)) }
{
    match words {
        [word, number] => {
            if word.as_str() == "sample" {
                count_of(number.as_bytes())
            } else {
                None
            }
        }
        _ => None,
    }
}

fn count_of(digits: &[u8]) -> Option<u32>
    ensures exact { result ≡ count_read digits.now }
    ensures within { IfSome result (λ n. (1 ≤ n) × (n ≤ 999)) }
{
    match digits {
        [a] => {
            if is_leading(*a) {
                up_to_999(value_of(*a))
            } else {
                None
            }
        }
        [a, b] => {
            if is_leading(*a) && is_digit(*b) {
                up_to_999(value_of(*a) * 10 + value_of(*b))
            } else {
                None
            }
        }
        [a, b, c] => {
            if is_leading(*a) && is_digit(*b) && is_digit(*c) {
                up_to_999((value_of(*a) * 10 + value_of(*b)) * 10 + value_of(*c))
            } else {
                None
            }
        }
        _ => None,
    }
}

fn up_to_999(n: u32) -> Option<u32>
    requires { 1 ≤ n }
    ensures exact { result ≡ up_to 999 true n }
    ensures within { IfSome result (λ n. (1 ≤ n) × (n ≤ 999)) }
{
    if n <= 999 { Some(n) } else { None }
}

fn is_digit(c: u8) -> bool
    ensures { result ≡ is_digit_of c }
{
    48 <= c && c <= 57
}

fn is_leading(c: u8) -> bool
    ensures exact { result ≡ is_leading_of c }
    ensures above { IsTrue result → 49 ≤ c }
{
    49 <= c && c <= 57
}

// The number that a digit stands for; 0 for a byte below the digits.
fn value_of(c: u8) -> u32
    ensures exact { result ≡ c - 48 }
    ensures small { result ≤ 207 }
{
    u32::from(c.saturating_sub(48))
}
