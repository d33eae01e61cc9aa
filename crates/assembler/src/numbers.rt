//! Numbers in decimal digits.
ghost use Rattle.std.specs.Prelude.{◌≡◌, ◌+◌};
ghost use Rattle.assembler.specs.Numbers.{number};

/// The number up to `last` that the digits spell; leading zeros are allowed.
#[tactic(auto, using(crate::proofs::NumberLemmas::number_from_over))]
pub(crate) fn number_up_to(last: u64, digits: &[u8]) -> Option<u64>
    ensures { result ≡ number (last + 1) digits.now }
{
    if digits.is_empty() {
        return None;
    }
    let mut value = 0u64;
    for byte in digits {
        if !byte.is_ascii_digit() {
            return None;
        }
        let Some(tens) = value.checked_mul(10) else {
            return None;
        };
        let Some(more) = tens.checked_add(u64::from(*byte - b'0')) else {
            return None;
        };
        value = more;
    }
    if value <= last { Some(value) } else { None }
}
