//! Numbers that are whole, written in one way: `1.0` as `1`, and `-0` as `0`.
#![tactic(auto)]

ghost use Rattle.std.specs.Prelude.{◌≡◌, IfOk};
ghost use Rattle.whole_numbers.specs.Whole.{whole};

pub mod examples;
pub mod laws;
mod place;
mod run;

use place::Place;
use run::whole_number;
use std::alloc::{AllocError, Global};

/// The bytes with each whole number rewritten: outside strings (RFC 8259, 7; one without an end takes all that follows)
/// each longest run of digits, `+`, `-`, `.`, `e` and `E` that is a JSON number without exponent (RFC 8259, 6), whose
/// fraction, if it has one, is zeros, becomes its integer part, and `-0` becomes `0`. All else stays. The time goes with
/// the number of bytes.
pub fn whole_numbers(alloc: Global, bytes: &[u8]) -> Result<Vec<u8>, AllocError>
    ensures rewritten { IfOk result (λ v. v.items ≡ whole bytes.now) }
{
    let mut done = Vec::with_capacity(alloc, bytes.len())?;
    let mut place = Place::Outside;
    let mut start = 0;
    for (i, byte) in bytes.iter().enumerate() {
        if place.is_in_run(*byte) {
            continue;
        }
        done.extend_from_slice(whole_number(&bytes[start..i]))?;
        done.push(*byte)?;
        place = place.after(*byte);
        start = i + 1;
    }
    done.extend_from_slice(whole_number(&bytes[start..]))?;
    Ok(done)
}
