//! The least of some words, how many are 0, and an amount taken off or put on each of them.

ghost use Rattle.std.specs.Prelude.{◌≡◌, ◌+◌, ◌==◌, [], map, count_by, MatchOption};
ghost use Rattle.cfn_scan.specs.Words.{IsLeast, less, more};

/// The least of some words; `None` exactly where there are none.
#[inline]
pub fn least(words: &[u64]) -> Option<u64>
    ensures { MatchOption result (words.now ≡ []) (IsLeast words.now) }
{
    let mut least = *words.first()?;
    for word in words {
        if *word < least {
            least = *word;
        }
    }
    Some(least)
}

/// How many of some words are 0.
#[inline]
pub fn zeros(words: &[u64]) -> usize
    ensures { result ≡ count_by (λ word. word == 0) words.now }
{
    words.iter().filter(|word| **word == 0).count()
}

/// Takes an amount off each word, modulo 2^64.
#[inline]
pub fn take_off(words: &mut [u64], amount: u64)
    ensures { words.new ≡ map (less amount) words.old }
{
    for word in words.iter_mut() {
        *word = word.wrapping_sub(amount);
    }
}

/// Puts an amount on each word, modulo 2^64.
#[inline]
pub fn put_on(words: &mut [u64], amount: u64)
    ensures { words.new ≡ map (more amount) words.old }
{
    for word in words.iter_mut() {
        *word = word.wrapping_add(amount);
    }
}
