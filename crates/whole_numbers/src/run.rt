//! Runs of the characters of numbers.
ghost use Rattle.std.specs.Prelude.{◌≡◌, ◌==◌, ◌≤◌, length, position};
ghost use Rattle.std.specs.Char.{is_ascii_digit};
ghost use Rattle.std.specs.List.{list_all, position_or_len};
ghost use Rattle.whole_numbers.specs.Whole.{is_of_numbers as of_numbers, is_integer as integer, is_point, is_zero_fraction as zero_fraction, without_minus as unsigned, without_minus_zero as unsigned_zero, whole_number as whole};

/// Whether the byte is a digit, a sign, the point or the sign of an exponent.
pub fn is_of_numbers(byte: u8) -> bool
    ensures { result ≡ of_numbers byte }
{
    matches!(byte, b'0'..=b'9' | b'+' | b'-' | b'.' | b'e' | b'E')
}

#[tactic(auto, unfolding(crate::specs::Whole::whole_number))]
/// A run as it is written: the integer part where it is a number whose fraction is zeros, `0` for `-0`, else the run.
pub fn whole_number(run: &[u8]) -> &[u8]
    ensures { result.now ≡ whole run.now }
{
    let (integer, fraction) = run.split_at(point(run));
    if is_integer(without_minus(integer)) && is_zero_fraction(fraction) {
        without_minus_zero(integer)
    } else {
        run
    }
}

/// The place of the first point, or the end.
#[tactic(auto, using(crate::proofs::Runs::position_else_length))]
fn point(run: &[u8]) -> usize
    ensures place { result ≡ position_or_len is_point run.now }
    ensures within { result ≤ length run.now }
{
    first_point(run).unwrap_or(run.len())
}

fn first_point(run: &[u8]) -> Option<usize>
    ensures { result ≡ position is_point run.now }
{
    run.iter().position(|byte| *byte == b'.')
}

fn without_minus(bytes: &[u8]) -> &[u8]
    ensures { result.now ≡ unsigned bytes.now }
{
    match bytes.split_first() {
        Some((b'-', rest)) => rest,
        _ => bytes,
    }
}

fn without_minus_zero(bytes: &[u8]) -> &[u8]
    ensures { result.now ≡ unsigned_zero bytes.now }
{
    match bytes {
        b"-0" => &bytes[1..],
        _ => bytes,
    }
}

/// Whether the bytes are decimal digits, without a zero before others.
fn is_integer(bytes: &[u8]) -> bool
    ensures { result ≡ integer bytes.now }
{
    match bytes.split_first() {
        Some((first, rest)) => first.is_ascii_digit()
            && are_digits(rest)
            && (*first != b'0' || rest.is_empty()),
        None => false,
    }
}

/// Whether this is nothing, or a point and zeros, of which there is one at least.
fn is_zero_fraction(bytes: &[u8]) -> bool
    ensures { result ≡ zero_fraction bytes.now }
{
    match bytes.split_first() {
        Some((_, zeros)) => !zeros.is_empty() && are_zeros(zeros),
        None => true,
    }
}

fn are_digits(bytes: &[u8]) -> bool
    ensures { result ≡ list_all is_ascii_digit bytes.now }
{
    bytes.iter().all(|byte| byte.is_ascii_digit())
}

fn are_zeros(bytes: &[u8]) -> bool
    ensures { result ≡ list_all (λ b. b == 48) bytes.now }
{
    bytes.iter().all(|byte| *byte == b'0')
}
