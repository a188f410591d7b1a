//! The least of what a row's entries are once an amount each was taken off.
//!
//! An entry is open where it is below a bound and is not cut. What is not open counts for nothing.

ghost use Rattle.std.specs.Prelude.{◌≡◌, ◌+◌, ◌<◌, [], length, MatchOption};
ghost use Rattle.cfn_scan.specs.Rows.{IsRow, IsLeastDifference, NoneBelow, IsLeastBelow, IsLesser, IsOpenAt, NoneOpen, left_at, IsLeastOpen};

/// A place of a row, and the word there.
#[derive(Clone, Copy)]
pub struct Found {
    pub place: usize,
    pub word: u64,
}

/// A row of a table: its entries, what is taken off each of them and off all of them, and which are open.
#[derive(Clone, Copy)]
pub struct Row<'a> {
    pub entries: &'a [u64],
    pub shifted: &'a [u64],
    pub cut: &'a [bool],
    /// What is taken off all of them.
    pub own: u64,
    /// Only what is below it is open.
    pub bound: u64,
}

/// The least of the differences of entries and shifted amounts, modulo 2^64; `None` exactly where there are none.
#[inline]
pub fn least_difference(entries: &[u64], shifted: &[u64]) -> Option<u64>
    requires { length shifted.now ≡ length entries.now }
    ensures { MatchOption result (entries.now ≡ []) (IsLeastDifference entries.now shifted.now) }
{
    if entries.is_empty() {
        return None;
    }
    let mut least = entries[0].wrapping_sub(shifted[0]);
    for i in 1..entries.len() {
        let word = entries[i].wrapping_sub(shifted[i]);
        if word < least {
            least = word;
        }
    }
    Some(least)
}

/// The least of the differences at entries below a bound; `None` exactly where no entry is.
#[inline]
pub fn least_below(entries: &[u64], shifted: &[u64], bound: u64) -> Option<u64>
    requires { length shifted.now ≡ length entries.now }
    ensures { MatchOption result (NoneBelow (length entries.now) entries.now bound) (IsLeastBelow (length entries.now) entries.now shifted.now bound) }
{
    let mut least = None;
    for i in 0..entries.len() {
        if entries[i] < bound {
            least = Some(lesser(least, entries[i].wrapping_sub(shifted[i])));
        }
    }
    least
}

/// The first place among the open ones of a row at which the least is left, and what is left there; `None` exactly where no
/// place is open. Behind a place where nothing is left none is read.
#[inline]
pub fn least_open(row: &Row<'_>) -> Option<Found>
    requires { IsRow row.now }
    ensures { MatchOption result (NoneOpen (length row.now.entries.now) row.now) (IsLeastOpen (length row.now.entries.now) row.now) }
{
    for i in 0..row.entries.len() {
        if let Some(word) = left(row, i) {
            return Some(least_from(row, Found { place: i, word }));
        }
    }
    None
}

/// The same, once the first open place is found: behind it only what is less is taken over.
#[inline]
fn least_from(row: &Row<'_>, first: Found) -> Found
    requires row { IsRow row.now }
    requires first { IsLeastOpen (first.place + 1) row.now first }
    ensures { IsLeastOpen (length row.now.entries.now) row.now result }
{
    let mut best = first;
    if best.word == 0 {
        return best;
    }
    for i in first.place + 1..row.entries.len() {
        if let Some(word) = left(row, i) {
            if word < best.word {
                best = Found { place: i, word };
                if word == 0 {
                    return best;
                }
            }
        }
    }
    best
}

/// What is left of the entry at a place, where it is open.
#[inline]
fn left(row: &Row<'_>, i: usize) -> Option<u64>
    requires row { IsRow row.now }
    requires there { i < length row.now.entries.now }
    ensures { MatchOption result (IsOpenAt row.now i → ⊥) (λ word. IsOpenAt row.now i × (left_at row.now i ≡ word)) }
{
    let entry = row.entries[i];
    if entry >= row.bound || row.cut[i] {
        return None;
    }
    Some(entry.wrapping_sub(row.own.wrapping_add(row.shifted[i])))
}

/// The lesser of a number, where there is one, and another.
#[inline]
fn lesser(least: Option<u64>, word: u64) -> u64
    ensures { IsLesser least word result }
{
    match least {
        Some(least) if least <= word => least,
        _ => word,
    }
}
