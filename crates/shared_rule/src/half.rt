//! What a look at a number or a monitor answers.
ghost use Rattle.std.specs.Prelude.{◌/◌, ◌<◌, ◌^◌};
ghost use Rattle.shared_rule.specs.Plays.{IsHalf};

/// Half of an even word, and `None` for an odd one.
#[inline]
pub fn half_if_even(word: u64) -> Option<u32>
    requires { word / 2 < 2 ^ 32 }
    ensures { IsHalf result word }
{
    if word % 2 == 0 {
        Some((word / 2) as u32)
    } else {
        None
    }
}
