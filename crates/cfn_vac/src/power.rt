//! Powers of two.

ghost use Rattle.std.specs.Prelude.{◌≡◌, ℕ, ◌*◌, ◌<◌, ◌≤◌, ◌^◌};

/// The greatest power of two that is at most a number from 1 on.
pub(crate) fn power_within(most: u64) -> u64
    requires { 0 < most }
    ensures power { (k : ℕ) × (result ≡ 2 ^ k) }
    ensures within { result ≤ most }
    ensures greatest { most < 2 * result }
{
    let mut power = 1;
    while power <= most / 2 {
        power *= 2;
    }
    power
}
