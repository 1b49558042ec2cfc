//! Multiples of both sides: the least common one, up to 64 bits.
ghost use Rattle.std.specs.Prelude.{◌≡◌, ◌≢◌, suc, Some};
ghost use Rattle.merge_defs.specs.Outcome.{either};
ghost use Rattle.merge_defs.specs.Leaves.{gcd_within, is_wide as is_wide_of, lcm as lcm_of, small_multiple};

/// The multiple that stands, and whether there is one past 64 bits, which doesn't.
#[derive(Clone, Copy)]
pub(crate) struct Multiple {
    pub value: Option<u64>,
    pub is_wide: bool,
}

#[tactic(auto, using(crate::proofs::Euclid::gcd_turn, crate::proofs::Euclid::gcd_end))]
fn gcd(a: u64, b: u64) -> u64
    ensures { result ≡ gcd_within (suc b) a b }
{
    let mut whole = a;
    let mut part = b;
    while part != 0 {
        let rest = whole % part;
        whole = part;
        part = rest;
    }
    whole
}

// The least common multiple, where it has 64 bits.
#[tactic(auto, using(crate::proofs::Euclid::gcd_above, crate::proofs::Euclid::lcm_zero, crate::proofs::Euclid::lcm_small))]
fn lcm(a: u64, b: u64) -> Option<u64>
    ensures { result ≡ small_multiple (Some (lcm_of a b)) }
{
    if b == 0 {
        return Some(0);
    }
    let divisor = gcd(a, b);
    (a / divisor).checked_mul(b)
}

#[tactic(auto, using(crate::proofs::Euclid::alone_small, crate::proofs::Euclid::none_wide, crate::proofs::Euclid::alone_narrow))]
pub(crate) fn both_multiples(first: Option<u64>, second: Option<u64>) -> Multiple
    ensures value { result.value ≡ small_multiple (either lcm_of first second) }
    ensures is_wide { result.is_wide ≡ is_wide_of (either lcm_of first second) }
{
    match (first, second) {
        (Some(a), Some(b)) => {
            let value = lcm(a, b);
            Multiple {
                value,
                is_wide: value.is_none(),
            }
        }
        (Some(a), None) => Multiple {
            value: Some(a),
            is_wide: false,
        },
        (None, Some(b)) => Multiple {
            value: Some(b),
            is_wide: false,
        },
        (None, None) => Multiple {
            value: None,
            is_wide: false,
        },
    }
}
