//! Decimal numbers.
ghost use Rattle.std.specs.Prelude.{◌≡◌, ◌+◌, ◌*◌, ◌≤◌, Some, IfSome, IfNone, is_some};
ghost use Rattle.std.specs.List.{list_all};
ghost use Rattle.std.specs.Char.{is_ascii_digit};
ghost use Rattle.value_types.specs.Large.{IsTooLarge};
ghost use Rattle.type_spellings.specs.Types.{number_of, number_from};

fn are_digits(bytes: &[u8]) -> bool
    ensures { result ≡ list_all is_ascii_digit bytes.now }
{
    bytes.iter().all(|byte| byte.is_ascii_digit())
}

/// Whether the text is decimal digits, one at least. It takes no memory.
#[tactic(auto, using(crate::proofs::Numbers::no_number, crate::proofs::Numbers::digits_are_numbers))]
pub fn is_number(text: &[u8]) -> bool
    ensures { result ≡ is_some (number_of text.now) }
{
    if text.is_empty() {
        return false;
    }
    are_digits(text)
}

/// The number that decimal digits write. It is none where a character is no digit, where there is none, and where the number is
/// greater than a u64.
#[tactic(auto, using(crate::proofs::Numbers::none_written))]
pub fn number_of(text: &[u8]) -> Option<u64>
    ensures some { IfSome result (λ n. number_of text.now ≡ Some n) }
    ensures none { IfNone result (IsTooLarge (number_of text.now)) }
{
    if text.is_empty() {
        return None;
    }
    number_from(text)
}

fn number_from(bytes: &[u8]) -> Option<u64>
    ensures some { IfSome result (λ n. number_from 0 bytes.now ≡ Some n) }
    ensures none { IfNone result (IsTooLarge (number_from 0 bytes.now)) }
{
    let mut number: u64 = 0;
    for byte in bytes {
        if !byte.is_ascii_digit() {
            return None;
        }
        match with_digit(number, *byte - b'0') {
            Some(longer) => number = longer,
            None => return None,
        }
    }
    Some(number)
}

// The number with one digit more.
fn with_digit(number: u64, digit: u8) -> Option<u64>
    ensures some { IfSome result (λ n. n ≡ number * 10 + digit) }
    ensures none { IfNone result (18446744073709551616 ≤ number * 10 + digit) }
{
    let Some(tens) = number.checked_mul(10) else {
        return None;
    };
    tens.checked_add(u64::from(digit))
}
