//! One variable's values in an order: a list of them, and the place of each in it. The values at places below a count are
//! the live ones, so taking a value away is one exchange, and a lower count. Whatever is exchanged below a count changes
//! nothing for that count and greater ones (sparse sets, Briggs and Torczon 1993).

ghost use Rattle.std.specs.Prelude.{◌≡◌, ℕ, ◌+◌, ◌-◌, ◌<◌, ◌≤◌, ◌^◌, length, slice_index, slice_set};
ghost use Rattle.cfn_rows.specs.Order.{AreInverse, Narrows, stays, InRange};

/// Which values stay: all but one, one alone, those of at most a value, or those above it.
#[derive(Clone, Copy)]
pub(crate) enum Kept {
    But(u32),
    Only(u32),
    AtMost(u32),
    Above(u32),
}

impl Kept {
    /// Whether a value stays.
    fn stays(self, value: u32) -> bool
        ensures { result ≡ stays self value }
    {
        match self {
            Kept::But(other) => other != value,
            Kept::Only(other) => other == value,
            Kept::AtMost(most) => value <= most,
            Kept::Above(most) => value > most,
        }
    }
}

/// Numbers from 0 on: each value at its own place.
pub(crate) fn count_up(row: &mut [u32])
    requires { length row.old ≤ 2 ^ 32 }
    ensures { (i : ℕ) → i < length row.old → slice_index row.new i ≡ i }
{
    for i in 0..row.len() {
        row[i] = i as u32;
    }
}

/// Takes the values that don't stay from those at places below `count`, and answers how many are left: these lie at the
/// places below that. It takes constant time where one value goes or one stays.
pub(crate) fn narrow(values: &mut [u32], places: &mut [u32], count: u32, kept: Kept) -> u32
    requires order { AreInverse values.old places.old }
    requires count { count ≤ length places.old }
    requires range { InRange kept (length places.old) }
    ensures order { AreInverse values.new places.new }
    ensures narrows { Narrows places.old places.new count result (stays kept) }
{
    match kept {
        Kept::But(value) => remove(values, places, count, value),
        Kept::Only(value) => keep(values, places, count, value),
        Kept::AtMost(_) | Kept::Above(_) => part(values, places, count, kept),
    }
}

fn remove(values: &mut [u32], places: &mut [u32], count: u32, value: u32) -> u32
    requires order { AreInverse values.old places.old }
    requires count { count ≤ length places.old }
    requires value { value < length places.old }
    ensures order { AreInverse values.new places.new }
    ensures narrows { Narrows places.old places.new count result (stays (Kept.But value)) }
{
    let place = places[value as usize];
    if place >= count {
        return count;
    }
    exchange(values, places, place, count - 1);
    count - 1
}

fn keep(values: &mut [u32], places: &mut [u32], count: u32, value: u32) -> u32
    requires order { AreInverse values.old places.old }
    requires count { count ≤ length places.old }
    requires value { value < length places.old }
    ensures order { AreInverse values.new places.new }
    ensures narrows { Narrows places.old places.new count result (stays (Kept.Only value)) }
{
    let place = places[value as usize];
    if place >= count {
        return 0;
    }
    exchange(values, places, place, 0);
    1
}

// One pass from the front: a value that stays is passed, and one that doesn't is exchanged with the last of the rest.
fn part(values: &mut [u32], places: &mut [u32], count: u32, kept: Kept) -> u32
    requires order { AreInverse values.old places.old }
    requires count { count ≤ length places.old }
    ensures order { AreInverse values.new places.new }
    ensures narrows { Narrows places.old places.new count result (stays kept) }
{
    let mut passed = 0;
    let mut left = count;
    while passed < left {
        if kept.stays(values[passed as usize]) {
            passed += 1;
        } else {
            left -= 1;
            exchange(values, places, passed, left);
        }
    }
    left
}

// Exchanges the values at two places.
fn exchange(values: &mut [u32], places: &mut [u32], i: u32, j: u32)
    requires order { AreInverse values.old places.old }
    requires first { i < length values.old }
    requires second { j < length values.old }
    ensures values { values.new ≡ slice_set (slice_set values.old i (slice_index values.old j)) j (slice_index values.old i) }
    ensures places { places.new ≡ slice_set (slice_set places.old (slice_index values.old i) j) (slice_index values.old j) i }
{
    let a = values[i as usize];
    let b = values[j as usize];
    values[i as usize] = b;
    values[j as usize] = a;
    places[a as usize] = j;
    places[b as usize] = i;
}
